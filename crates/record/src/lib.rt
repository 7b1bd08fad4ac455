// The desk as one record of 1,984 bytes: written and read.
#![tactic(auto)]

ghost use Rattle.std.specs.Prelude.{◌≡◌, ◌+◌, ◌≤◌, length, drop};
ghost use Rattle.facts.specs.Over.{over};
ghost use Rattle.state.specs.State.{desk};
ghost use Rattle.record.specs.Layout.{low_first_of, cursor_at, fields_of, counts_of, count_at, state_of, record_of};

use cell::{Column, Cursor, Row};
use state::{Mode, State};

// A cursor of the record, by its place, which stays as it is: `cursor_at` names the places of the whole.
fn read_cursor(bytes: &[u8], at: usize) -> Cursor
    requires { at + 3 ≤ length bytes.now }
    ensures { result ≡ cursor_at bytes.now at }
{
    Cursor {
        row: Row(bytes[at]),
        column: Column(bytes[at + 1]),
        pen: bytes[at + 2],
    }
}

// The two bytes of the act count.
fn low_first(low: u8, high: u8) -> u16
    ensures { result ≡ low_first_of low high }
{
    u16::from_le_bytes([low, high])
}

// The state, from bytes 0 to 18. What it gives stays as it is: numbers, and no Result, since the clause `state_of` says what any 1,984 bytes
// give; `valid::is_valid_state` refuses those of no desk. The clause on the length stays as it is: of the desk it is known behind
// `is_valid` alone, which takes any slice, and of a slot it is a part of the tray; an array of either would be had by one more call that can fail.
pub fn read_state(bytes: &[u8]) -> State
    requires { length bytes.now ≡ 1984 }
    ensures { result ≡ state_of bytes.now }
{
    let mode = Mode {
        style: bytes[4],
        text: bytes[5],
        mark: bytes[6],
        depth: bytes[7],
        roll: read_cursor(bytes, 8),
        pop: read_cursor(bytes, 11),
        paint: read_cursor(bytes, 14),
    };
    State {
        acts: low_first(bytes[0], bytes[1]),
        selected: bytes[2],
        stream: bytes[3],
        first: bytes[17],
        second: bytes[18],
        mode,
    }
}

// How many cells of a displayed row are filled, as the record holds it.
pub fn read_count(bytes: &[u8], row: Row) -> u8
    requires { (length bytes.now ≡ 1984) × (row.0 ≤ 15) }
    ensures { result ≡ count_at bytes.now row }
{
    bytes[18 + (row.0 as usize)]
}

// Bytes 0 to 18.
fn write_fields(bytes: &mut [u8], state: State)
    requires { 19 ≤ length bytes.old }
    ensures { bytes.new ≡ over bytes.old 0 (fields_of state) }
{
    let mode = state.mode;
    let [low, high] = state.acts.to_le_bytes();
    let fields = [
        low,
        high,
        state.selected,
        state.stream,
        mode.style,
        mode.text,
        mode.mark,
        mode.depth,
        mode.roll.row.0,
        mode.roll.column.0,
        mode.roll.pen,
        mode.pop.row.0,
        mode.pop.column.0,
        mode.pop.pen,
        mode.paint.row.0,
        mode.paint.column.0,
        mode.paint.pen,
        state.first,
        state.second,
    ];
    facts::copy(bytes, &fields);
}

// Bytes 19 to 48: each row of the cells behind them is counted.
fn write_counts(bytes: &mut [u8])
    requires { length bytes.old ≡ 1984 }
    ensures { bytes.new ≡ over bytes.old 19 (counts_of (drop 64 bytes.old)) }
{
    for r in 0..30 {
        bytes[19 + r] = page::count_cells(bytes, 64 + r * 64);
    }
}

// Bytes 0 to 63 made anew, from the state and from the cells behind them.
pub fn write_head(bytes: &mut [u8], state: State)
    requires { length bytes.old ≡ 1984 }
    ensures { bytes.new ≡ record_of (desk state (drop 64 bytes.old)) }
{
    write_fields(bytes, state);
    write_counts(bytes);
    facts::wipe(bytes, 49, 15);
}

// The record, over the whole of what is lent: a slot's part of the tray, or the desk.
pub fn write(out: &mut [u8], state: State, cells: &[u8])
    requires { (length out.old ≡ 1984) × (length cells.now ≡ 1920) }
    ensures { out.new ≡ record_of (desk state cells.now) }
{
    facts::copy(&mut out[64..1984], cells);
    write_head(out, state);
}
