// The roll-up window of a memory inside the lent cells: how it rolls, moves and is cut out.
#![tactic(auto)]

ghost use Rattle.std.specs.Prelude.{◌≡◌, ◌≤◌};
ghost use Rattle.page.specs.Page.{Holds};
ghost use Rattle.window.specs.Window.{above_of, lowered_of, roll_of, empty_outside_of, move_of};

use cell::{Cursor, Row};

// A window stays as it is: a base row and a depth beside each other. A type of the windows that fit would say `depth ≤ base.0` alone: `roll` asks for a
// depth of 1 besides, `move_window` for a fit at two base rows, and `valid` and `rollup` hold the two in a state, each in a field of its own.

// How many rows lie above the window of a base row and a depth that fits there.
pub fn rows_above(base: Row, depth: u8) -> usize
    requires { depth ≤ base.0 }
    ensures { result ≡ above_of base depth }
{
    (base.0 - depth) as usize
}

// A base row where a window of this depth does not fit is lowered to the row equal to the depth; column and pen stay.
#[tactic(auto, unfolding(crate::specs::Window::lowered_of))]
pub fn lowered(cursor: Cursor, depth: u8) -> Cursor
    ensures { result ≡ lowered_of cursor depth }
{
    Cursor {
        row: Row(cursor.row.0.max(depth)),
        ..cursor
    }
}

// Each row of the window takes the row below; the base row is emptied.
#[tactic(auto, unfolding(crate::specs::Window::roll_of))]
pub fn roll(cells: &mut [u8], memory: usize, base: Row, depth: u8)
    requires { Holds memory cells.old × (base.0 ≤ 15) × (1 ≤ depth) × (depth ≤ base.0) }
    ensures { cells.new ≡ roll_of cells.old memory base depth }
{
    let above = rows_above(base, depth);
    let last = (base.0 as usize) - 1;
    let top = memory + above * 64;
    facts::slide(cells, top, top + 64, (last - above) * 64);
    page::empty_rows(cells, memory, last, 1);
}

// The rows above and below the window are emptied.
#[tactic(auto, unfolding(crate::specs::Window::empty_outside_of))]
pub fn empty_outside(cells: &mut [u8], memory: usize, base: Row, depth: u8)
    requires { Holds memory cells.old × (base.0 ≤ 15) × (depth ≤ base.0) }
    ensures { cells.new ≡ empty_outside_of cells.old memory base depth }
{
    let above = rows_above(base, depth);
    page::empty_rows(cells, memory, 0, above);
    let below = base.0 as usize;
    page::empty_rows(cells, memory, below, 15 - below);
}

// The window goes from one base row to another and fits at both: rows keep their distance from it, all else of the memory is emptied.
#[tactic(auto, using(page::proofs::Laws::empty_all_of_is), unfolding(crate::specs::Window::move_of))]
pub fn move_window(cells: &mut [u8], memory: usize, old: Row, new: Row, depth: u8)
    requires { Holds memory cells.old × (depth ≤ old.0) × (old.0 ≤ 15) × (depth ≤ new.0) × (new.0 ≤ 15) × (depth ≤ 4) }
    ensures { cells.new ≡ move_of cells.old memory old new depth }
{
    let from = memory + rows_above(old, depth) * 64;
    let to = memory + rows_above(new, depth) * 64;
    facts::carry(cells, memory, 960, from, to, (depth as usize) * 64);
}
