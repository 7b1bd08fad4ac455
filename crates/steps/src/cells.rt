// Characters typed into a screen.
ghost use Rattle.std.specs.Prelude.{◌≡◌, true, List, ℕ, ◌+◌, ◌*◌, ◌≤◌, IfOk, length};
ghost use Rattle.facts.specs.Over.{over};
ghost use Rattle.steps.specs.Take.{cells_of, is_place, row_at, typed_of, wrong_row_of, put_of};
ghost use Rattle.steps.specs.Wrong.{number_of_wrong, earliest_of, wrong_of};
ghost use Rattle.steps.specs.Hand.{Fit, Does};

use crate::{Hand, Wrong};

// Whether so many characters have a place in a row from a column on.
fn is_place(row: u8, column: u8, count: usize) -> bool
    requires { count ≤ 32 }
    ensures { result ≡ is_place row column count }
{
    ((1 <= row) & (row <= 15)) & ((1 <= column) & (column as usize + count <= 33))
}

// Characters with a pen, from byte `at` on.
fn put_cells(screen: &mut [u8], at: usize, pen: u8, codes: &[u8])
    requires { at + length codes.now * 2 ≤ length screen.old }
    ensures { screen.new ≡ over screen.old at (cells_of pen codes.now) }
{
    for (i, code) in codes.iter().enumerate() {
        screen[at + i * 2] = *code;
        screen[at + i * 2 + 1] = pen;
    }
}

// What is wrong with the row that starts at `at`, if anything. The place beside the screen stays as it is, as in the tests of a row that it asks.
#[tactic(auto, unfolding(crate::specs::Take::wrong_row_of))]
fn wrong_row(screen: &[u8], at: usize) -> Result<(), Wrong>
    requires { at + 64 ≤ length screen.now }
    ensures wrong { number_of_wrong (wrong_of result) ≡ wrong_row_of screen.now at }
    ensures earliest { earliest_of (wrong_of result) ≡ 0 }
{
    if !valid::is_row(screen, at) {
        return Err(Wrong::Invalid);
    }
    if !writable::is_row_writable(screen, at) {
        return Err(Wrong::NotWritable);
    }
    Ok(())
}

// Characters into a row, and what is wrong with the row then.
#[tactic(auto, unfolding(crate::specs::Take::typed_of))]
fn put_row(screen: &mut [u8; 960], row: u8, column: u8, pen: u8, codes: &[u8]) -> Result<(), Wrong>
    requires { is_place row column (length codes.now) ≡ true }
    ensures typed { screen.new ≡ typed_of screen.old row column pen codes.now }
    ensures wrong { number_of_wrong (wrong_of result) ≡ wrong_row_of screen.new (row_at row) }
    ensures earliest { earliest_of (wrong_of result) ≡ 0 }
{
    let at = (row as usize - 1) * 64;
    put_cells(screen, at + (column as usize - 1) * 2, pen, codes);
    wrong_row(screen, at)
}

// Types characters where nothing is wrong then: the screen is tried on a copy.
pub fn put(
    hand: Hand,
    screen: &mut [u8; 960],
    row: u8,
    column: u8,
    pen: u8,
    codes: &[u8],
) -> Result<Hand, Wrong>
    requires { Fit hand × (length codes.now ≤ 32) }
    ensures fit { IfOk result (λ next. Fit next) }
    ensures does { (out : List ℕ) → Does (λ t. put_of t row column pen codes.now) hand screen.old out result screen.new out }
{
    if !is_place(row, column, codes.len()) {
        return Err(Wrong::NoSuch);
    }
    let mut tried = *screen;
    put_row(&mut tried, row, column, pen, codes)?;
    *screen = tried;
    Ok(Hand {
        drawn: true,
        ..hand
    })
}
