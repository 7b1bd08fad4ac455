// Which records are valid: any bytes at all are tested.
#![tactic(auto)]

ghost use Rattle.std.specs.Prelude.{◌≡◌, ◌+◌, ◌≤◌, length};
ghost use Rattle.valid.specs.Valid.{is_cursor, is_valid_state, is_valid};
ghost use Rattle.valid.specs.Check.{is_row, is_counted, are_rows, is_framed};

use cell::content::{is_cell, is_pen};
use cell::{Cursor, Row};
use state::State;

fn is_cursor(cursor: Cursor) -> bool
    ensures { result ≡ is_cursor cursor }
{
    (1..=15).contains(&cursor.row.0) & (1..=32).contains(&cursor.column.0) & is_pen(cursor.pen)
}

// The ranges of the fields, and what mark and style require. One flag: every part is tested.
fn is_valid_state(state: State) -> bool
    ensures { result ≡ is_valid_state state }
{
    let mode = state.mode;
    let deep = (2..=4).contains(&mode.depth);
    (state.acts <= 16000)
        & (1..=2).contains(&state.selected)
        & (state.stream <= 2)
        & (mode.style <= 3)
        & (mode.text <= 1)
        & (mode.mark <= 1)
        & ((mode.depth == 0) | deep)
        & is_cursor(mode.roll)
        & is_cursor(mode.pop)
        & is_cursor(mode.paint)
        & codes::is_expected(state.first, state.second)
        & ((mode.mark != 1) | deep)
        & ((mode.mark != 1) | (mode.depth <= mode.roll.row.0))
        & ((mode.style != state::ROLL_UP) | (mode.mark == 1))
        & ((mode.style != state::PAINT_ON) | (mode.mark == 0))
}

// A row, by the place where it starts, which stays as it is: the definitions of rows and records (`is_row`, `are_rows`) name the places of the whole.
// Most are empty, and 64 bytes that are 0 are told at once; any other is tested cell by cell, as one flag with no way out.
pub fn is_row(bytes: &[u8], at: usize) -> bool
    requires { at + 64 ≤ length bytes.now }
    ensures { result ≡ is_row bytes.now at }
{
    if facts::is_blank(bytes, at, 64) {
        return true;
    }
    let mut ok = true;
    for j in 0..32 {
        let k = at + j * 2;
        ok &= is_cell(bytes[k], bytes[k + 1]);
    }
    ok
}

// A row of which `count` cells are filled. An empty one is passed over at once.
fn is_counted(bytes: &[u8], at: usize, count: u8) -> bool
    requires { at + 64 ≤ length bytes.now }
    ensures { result ≡ is_counted bytes.now at count }
{
    if facts::is_blank(bytes, at, 64) {
        return count == 0;
    }
    is_row(bytes, at) & (count == page::count_cells(bytes, at))
}

fn are_rows(bytes: &[u8]) -> bool
    requires { length bytes.now ≡ 1984 }
    ensures { result ≡ are_rows bytes.now }
{
    let mut ok = true;
    for r in 0..30 {
        ok &= is_counted(bytes, 64 + r * 64, bytes[19 + r]);
    }
    ok
}

// While the mark is set, the displayed rows above the window and those below it are all 0.
fn is_framed(bytes: &[u8], mark: u8, base: Row, depth: u8) -> bool
    requires { (length bytes.now ≡ 1984) × (base.0 ≤ 15) × (mark ≡ 1 → depth ≤ base.0) }
    ensures { result ≡ is_framed bytes.now mark base depth }
{
    if mark != 1 {
        return true;
    }
    let above = window::rows_above(base, depth);
    let below = base.0 as usize;
    facts::is_blank(bytes, 64, above * 64)
        & facts::is_blank(bytes, 64 + below * 64, (15 - below) * 64)
}

// Whether any bytes at all are a valid record.
pub fn is_valid(bytes: &[u8]) -> bool
    ensures { result ≡ is_valid bytes.now }
{
    if bytes.len() != 1984 {
        return false;
    }
    let state = record::read_state(bytes);
    if !is_valid_state(state) {
        return false;
    }
    let mode = state.mode;
    facts::is_blank(bytes, 49, 15)
        & are_rows(bytes)
        & is_framed(bytes, mode.mark, mode.roll.row, mode.depth)
}
