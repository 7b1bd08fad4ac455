// What puts the style's cursor elsewhere or empties cells at it.
#![tactic(auto)]

ghost use Rattle.std.specs.Prelude.{◌≡◌, List, ℕ, ◌≤◌};
ghost use Rattle.cell.specs.Cursor.{Placed};
ghost use Rattle.state.specs.State.{captions};
ghost use Rattle.state.specs.Ranges.{Ranged, Sound};
ghost use Rattle.placing.specs.Placing.{bs_of, der_of, tabbed_of, moved_of, preamble_of};

use cell::Cursor;
use state::{Mode, ROLL_UP};

// At column 1 nothing; else one left, and that cell is emptied.
#[tactic(auto, using(cell::proofs::Laws::back_of_keeps_placed), unfolding(crate::specs::Placing::bs_of))]
pub fn bs(mode: Mode, cells: &mut [u8]) -> Mode
    requires { Sound (captions mode cells.old) }
    ensures { captions result cells.new ≡ bs_of (captions mode cells.old) }
{
    let c = mode.cursor();
    if c.column.0 <= 1 {
        return mode;
    }
    let left = c.back();
    page::empty_cell(cells, mode.memory(), left.row, left.column);
    mode.with_cursor(left)
}

// From the cursor's cell to the end of its row.
#[tactic(auto, unfolding(crate::specs::Placing::der_of))]
pub fn der(mode: Mode, cells: &mut [u8]) -> Mode
    requires { Sound (captions mode cells.old) }
    ensures { captions result cells.new ≡ der_of (captions mode cells.old) }
{
    let c = mode.cursor();
    page::empty_from(cells, mode.memory(), c.row, c.column);
    mode
}

// Right by n columns; the cells skipped are kept.
#[tactic(auto, unfolding(crate::specs::Placing::tabbed_of))]
pub fn tabbed(mode: Mode, n: u8) -> Mode
    requires { Ranged mode × (n ≤ 32) }
    ensures { (d : List ℕ) → captions result d ≡ tabbed_of (captions mode d) n }
{
    mode.with_cursor(mode.cursor().tab(n))
}

// The window moves to a base row where it fits. To the same one, as live captions ask at every line, nothing moves: no cell is touched.
pub fn moved(mode: Mode, cells: &mut [u8], to: Cursor) -> Mode
    requires { Sound (captions mode cells.old) × Placed to × (mode.mark ≡ 1) × (mode.depth ≤ to.row.0) }
    ensures { captions result cells.new ≡ moved_of (captions mode cells.old) to }
{
    let old = mode.roll.row;
    let new = to.row;
    if old != new {
        window::move_window(cells, page::DISPLAYED, old, new, mode.depth);
    }
    Mode { roll: to, ..mode }
}

// Row, column and pen of the style's cursor. In roll-up the window moves, to a row where it fits.
#[tactic(auto, using(window::proofs::LawsOfRows::lowered_of_placed, window::proofs::LawsOfRows::lowered_of_fits), unfolding(crate::specs::Placing::preamble_of))]
pub fn preamble(mode: Mode, cells: &mut [u8], to: Cursor) -> Mode
    requires { Sound (captions mode cells.old) × Placed to }
    ensures { captions result cells.new ≡ preamble_of (captions mode cells.old) to }
{
    if mode.style == ROLL_UP {
        return moved(mode, cells, window::lowered(to, mode.depth));
    }
    mode.with_cursor(to)
}
