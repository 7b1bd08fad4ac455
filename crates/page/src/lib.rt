// One memory of 960 bytes inside the lent cells, at a place: what is written to it, emptied, exchanged and counted.
// The displayed and the non-displayed memory differ in the place alone.
#![tactic(auto)]

ghost use Rattle.std.specs.Prelude.{◌≡◌, ◌+◌, ◌*◌, ◌%◌, ◌≤◌, eqb, length};
ghost use Rattle.facts.specs.Choice.{pick};
ghost use Rattle.cell.specs.Place.{OnScreen};
ghost use Rattle.page.specs.Page.{Holds, write_cell_of, empty_cell_of, empty_from_of, empty_rows_of, empty_all_of, exchanged_of, filled_of, filled_from, is_empty_of, same_screen_of};

use cell::{Column, Row};

// What is lent stays as it is: the cells with the place of a memory, and a row beside a column, since `write_cell_of` and the definitions beside it, which
// the laws of the two memories speak of, take each of them, and `exchange` needs both memories in one lent slice.
pub const DISPLAYED: usize = 0;

pub const NON_DISPLAYED: usize = 960;

#[tactic(auto, unfolding(crate::specs::Page::write_cell_of), using(facts::proofs::Over::over_two))]
pub fn write_cell(cells: &mut [u8], memory: usize, row: Row, column: Column, code: u8, pen: u8)
    requires { Holds memory cells.old × OnScreen row column }
    ensures { cells.new ≡ write_cell_of cells.old memory row column code pen }
{
    let at = cell::address(memory, row, column);
    cells[at] = code;
    cells[at + 1] = pen;
}

#[tactic(auto, unfolding(crate::specs::Page::empty_cell_of, crate::specs::Page::write_cell_of))]
pub fn empty_cell(cells: &mut [u8], memory: usize, row: Row, column: Column)
    requires { Holds memory cells.old × OnScreen row column }
    ensures { cells.new ≡ empty_cell_of cells.old memory row column }
{
    write_cell(cells, memory, row, column, 0, 0);
}

// From a column to the end of its row.
#[tactic(auto, unfolding(crate::specs::Page::empty_from_of))]
pub fn empty_from(cells: &mut [u8], memory: usize, row: Row, column: Column)
    requires { Holds memory cells.old × OnScreen row column }
    ensures { cells.new ≡ empty_from_of cells.old memory row column }
{
    let at = cell::address(memory, row, column);
    facts::wipe(cells, at, 66 - (column.0 as usize) * 2);
}

// `n` rows below the first `above` rows.
#[tactic(auto, unfolding(crate::specs::Page::empty_rows_of))]
pub fn empty_rows(cells: &mut [u8], memory: usize, above: usize, n: usize)
    requires { Holds memory cells.old × (above ≤ 15) × (n ≤ 15) × (above + n ≤ 15) }
    ensures { cells.new ≡ empty_rows_of cells.old memory above n }
{
    facts::wipe(cells, memory + above * 64, n * 64);
}

#[tactic(auto, unfolding(crate::specs::Page::empty_all_of))]
pub fn empty_all(cells: &mut [u8], memory: usize)
    requires { Holds memory cells.old }
    ensures { cells.new ≡ empty_all_of cells.old memory }
{
    facts::wipe(cells, memory, 960);
}

// The displayed and the non-displayed memory change places.
#[tactic(auto, unfolding(crate::specs::Page::exchanged_of))]
pub fn exchange(cells: &mut [u8])
    requires { 1920 ≤ length cells.old }
    ensures { cells.new ≡ exchanged_of cells.old }
{
    facts::exchange(cells, NON_DISPLAYED);
}

// Byte i of a row counts where it is the code of a cell, and that cell is not empty.
fn filled(byte: u8, i: usize) -> u8
    ensures { (result ≡ pick (eqb (i % 2) 0) (filled_of byte) 0) × (result ≤ 1) }
{
    u8::from((i % 2 == 0) & (byte != 0))
}

// How many of a row's 32 cells are not empty. Its bytes are taken one after the other, pens and all, so that the compiler can take many at a time.
pub fn count_cells(cells: &[u8], at: usize) -> u8
    requires { at + 64 ≤ length cells.now }
    ensures { result ≡ filled_from cells.now at 32 }
{
    let mut sum = 0;
    for (i, byte) in cells[at..at + 64].iter().enumerate() {
        sum += filled(*byte, i);
    }
    sum
}

#[tactic(auto, unfolding(crate::specs::Page::is_empty_of))]
pub fn is_empty(cells: &[u8], memory: usize) -> bool
    requires { Holds memory cells.now }
    ensures { result ≡ is_empty_of cells.now memory }
{
    facts::is_blank(cells, memory, 960)
}

// Whether two displayed memories, each at the front of what is lent, are equal in every byte.
#[tactic(auto, unfolding(crate::specs::Page::same_screen_of))]
pub fn same_screen(a: &[u8], b: &[u8]) -> bool
    requires { (960 ≤ length a.now) × (960 ≤ length b.now) }
    ensures { result ≡ same_screen_of a.now b.now }
{
    facts::same(a, b, 960)
}
