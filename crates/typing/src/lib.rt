// What is written at the style's cursor.
// The pair of mode and cells stays as it is: two parameters and not one struct, for the reasons that stand at the head of `acts`.
#![tactic(auto)]

ghost use Rattle.std.specs.Prelude.{◌≡◌, true, ◌≤◌};
ghost use Rattle.cell.specs.Pen.{is_pen};
ghost use Rattle.cell.specs.Cursor.{Placed};
ghost use Rattle.page.specs.Page.{Holds};
ghost use Rattle.state.specs.State.{captions};
ghost use Rattle.state.specs.Ranges.{Sound};
ghost use Rattle.typing.specs.Typing.{write_of, write_any_of, passed_of, put_of, attribute_of, mid_row_of, fon_of};

use cell::Cursor;
use cell::pens::{flash_pen, mid_row_pen};
use state::Mode;

// The cell gets code and pen; the cursor goes on.
#[tactic(auto, unfolding(crate::specs::Typing::write_of))]
pub fn write(mode: Mode, cells: &mut [u8], code: u8) -> Mode
    requires { Sound (captions mode cells.old) }
    ensures { captions result cells.new ≡ write_of (captions mode cells.old) code }
{
    let c = mode.cursor();
    page::write_cell(cells, mode.memory(), c.row, c.column, code, c.pen);
    mode.with_cursor(c.after_write())
}

// A code in a cursor's cell, if there is any: the cursor behind it.
pub fn put(cells: &mut [u8], memory: usize, at: Cursor, code: Option<u8>) -> Cursor
    requires { Holds memory cells.old × Placed at }
    ensures { (result ≡ passed_of at code) × (cells.new ≡ put_of cells.old memory at code) }
{
    match code {
        None => at,
        Some(code) => {
            page::write_cell(cells, memory, at.row, at.column, code, at.pen);
            at.after_write()
        }
    }
}

// Two codes one after the other, as far as there are any. The style's cursor is taken once and set once, since most pairs are two characters.
#[tactic(auto, using(crate::proofs::Laws::passed_of_keeps_placed, crate::proofs::Laws::length_put_of))]
pub fn write_two(mode: Mode, cells: &mut [u8], first: Option<u8>, second: Option<u8>) -> Mode
    requires { Sound (captions mode cells.old) × (1 ≤ mode.style) }
    ensures { captions result cells.new ≡ write_any_of (write_any_of (captions mode cells.old) first) second }
{
    let memory = mode.memory();
    let at = mode.cursor();
    let between = put(cells, memory, at, first);
    let behind = put(cells, memory, between, second);
    mode.with_cursor(behind)
}

// The pen changes, then an attribute space is written with it.
#[tactic(auto, unfolding(crate::specs::Typing::attribute_of, crate::specs::Typing::turned_of))]
fn attribute(mode: Mode, cells: &mut [u8], pen: u8) -> Mode
    requires { Sound (captions mode cells.old) × (is_pen pen ≡ true) }
    ensures { captions result cells.new ≡ attribute_of (captions mode cells.old) pen }
{
    let c = mode.cursor();
    let turned = mode.with_cursor(c.with_pen(pen));
    write(turned, cells, 0x80)
}

#[tactic(auto, unfolding(crate::specs::Typing::mid_row_of))]
pub fn mid_row(mode: Mode, cells: &mut [u8], b: u8) -> Mode
    requires { Sound (captions mode cells.old) × (0x20 ≤ b) × (b ≤ 0x2f) }
    ensures { captions result cells.new ≡ mid_row_of (captions mode cells.old) b }
{
    let c = mode.cursor();
    attribute(mode, cells, mid_row_pen(c.pen, b))
}

#[tactic(auto, unfolding(crate::specs::Typing::fon_of))]
pub fn fon(mode: Mode, cells: &mut [u8]) -> Mode
    requires { Sound (captions mode cells.old) }
    ensures { captions result cells.new ≡ fon_of (captions mode cells.old) }
{
    let c = mode.cursor();
    attribute(mode, cells, flash_pen(c.pen))
}
