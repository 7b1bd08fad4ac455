// Pairs of text in a row: while no pair is expected, each goes to the style's cursor alone, and of the state nothing else changes but the count.
#![tactic(auto)]

ghost use Rattle.std.specs.Prelude.{◌≡◌, true, ℕ, ◌+◌, ◌<◌, length};
ghost use Rattle.cell.specs.Cursor.{Placed};
ghost use Rattle.state.specs.State.{desk};
ghost use Rattle.state.specs.Ranges.{Ranged};
ghost use Rattle.decode.specs.Step.{taken_of};
ghost use Rattle.text.specs.Typed.{is_none_expected, is_text, typed_of};

use cell::Cursor;
use state::State;

// Whether no pair is expected.
pub fn is_none_expected(state: State) -> bool
    ensures { result ≡ is_none_expected state }
{
    (state.first == 0) & (state.second == 0)
}

// Whether a pair with this first byte is text. A bad one with a from 10h to 1Fh is left out, so that no bits are counted.
#[tactic(auto, unfolding(crate::specs::Typed::is_text))]
pub fn is_text(x: u8) -> bool
    ensures { result ≡ is_text x }
{
    let a = wire::low_seven(x);
    (a < 0x10) | (0x20 <= a)
}

// A pair of text while none is expected, with the style's cursor in hand: the cursor behind it. Of the state nothing else changes but the
// count. The second byte is looked at once the first is written, which takes fewer registers.
#[tactic(auto, using(typing::proofs::Laws::passed_of_keeps_placed, typing::proofs::Laws::length_put_of))]
pub fn type_text(start: State, cells: &mut [u8], at: Cursor, x: u8, y: u8) -> Cursor
    requires { Ranged start.mode × (length cells.old ≡ 1920) × Placed at × (is_text x ≡ true) }
    ensures { Placed result × ((n : ℕ) → desk (typed_of start result (n + 1)) cells.new ≡ taken_of (desk (typed_of start at n) cells.old) x y) }
{
    if decode::is_open(start) {
        let memory = start.mode.memory();
        let between = typing::put(cells, memory, at, decode::text_code(x));
        return typing::put(cells, memory, between, decode::text_code(y));
    }
    at
}

// The state behind n pairs of text that have left the style's cursor there.
pub fn typed(start: State, cursor: Cursor, n: u16) -> State
    requires { start.acts + n < 65536 }
    ensures { result ≡ typed_of start cursor n }
{
    State {
        acts: start.acts + n,
        first: 0,
        second: 0,
        mode: start.mode.with_cursor(cursor),
        ..start
    }
}
