// Roll-up captions: how they start, and how the window rolls.
#![tactic(auto)]

ghost use Rattle.std.specs.Prelude.{◌≡◌, ◌≤◌};
ghost use Rattle.state.specs.State.{captions};
ghost use Rattle.state.specs.Ranges.{Sound};
ghost use Rattle.rollup.specs.Rollup.{plain_in, opened_of, framed_of, ru_of, cr_of};

use cell::{Column, Cursor, Row};
use state::{Mode, ROLL_UP};

// Column 1 of a row, plain pen.
fn plain_in(row: Row) -> Cursor
    ensures { result ≡ plain_in row }
{
    Cursor {
        row,
        column: Column(1),
        pen: 0,
    }
}

// Mark clear: the displayed memory is emptied, and the base row is 15. Mark set: the window moves where depth n does not fit at its base row.
#[tactic(auto, unfolding(crate::specs::Rollup::opened_of))]
fn opened(mode: Mode, cells: &mut [u8], n: u8) -> Mode
    requires { Sound (captions mode cells.old) × (n ≤ 4) }
    ensures { captions result cells.new ≡ opened_of (captions mode cells.old) n }
{
    if mode.mark == 0 {
        page::empty_all(cells, page::DISPLAYED);
        return Mode {
            roll: plain_in(Row(15)),
            ..mode
        };
    }
    placing::moved(mode, cells, window::lowered(mode.roll, n))
}

// Roll-up with depth n: all but the window is emptied.
#[tactic(auto, unfolding(crate::specs::Rollup::framed_of))]
fn framed(mode: Mode, cells: &mut [u8], n: u8) -> Mode
    requires { Sound (captions mode cells.old) × (n ≤ mode.roll.row.0) }
    ensures { captions result cells.new ≡ framed_of (captions mode cells.old) n }
{
    page::empty_all(cells, page::NON_DISPLAYED);
    window::empty_outside(cells, page::DISPLAYED, mode.roll.row, n);
    Mode {
        style: ROLL_UP,
        text: 0,
        mark: 1,
        depth: n,
        ..mode
    }
}

#[tactic(auto, unfolding(crate::specs::Rollup::ru_of))]
pub fn ru(mode: Mode, cells: &mut [u8], n: u8) -> Mode
    requires { Sound (captions mode cells.old) × (n ≤ 4) }
    ensures { captions result cells.new ≡ ru_of (captions mode cells.old) n }
{
    let open = opened(mode, cells, n);
    framed(open, cells, n)
}

// In roll-up the window rolls; in any other style nothing happens.
#[tactic(auto, unfolding(crate::specs::Rollup::cr_of))]
pub fn cr(mode: Mode, cells: &mut [u8]) -> Mode
    requires { Sound (captions mode cells.old) }
    ensures { captions result cells.new ≡ cr_of (captions mode cells.old) }
{
    if mode.style != ROLL_UP {
        return mode;
    }
    let base = mode.roll.row;
    window::roll(cells, page::DISPLAYED, base, mode.depth);
    Mode {
        roll: plain_in(base),
        ..mode
    }
}
