// The tests of a screen that is to be written: whether a record may hold its cells, and whether it is writable.
#![tactic(auto)]

ghost use Rattle.std.specs.Prelude.{◌≡◌, ◌+◌, ◌≤◌, length};
ghost use Rattle.tape.specs.Writable.{are_cells, row_pen_of, is_steady, is_cell_of, is_row_writable, is_writable};

use cell::Pen;

// Whether every cell of a screen is one that a record may hold.
pub fn are_cells(memory: &[u8; 960]) -> bool
    ensures { result ≡ are_cells memory.now }
{
    (0..15).all(|row| valid::is_row(memory, row * 64))
}

// A row's place in the memory stays as it is, for the reason that `lines` has; and that an empty row has a plain pen, since `row_pen_of` gives it one for its preamble.
// The pen of the last non-empty cell of the row that starts at `at`; plain where there is none.
#[tactic(auto, unfolding(tape::specs::Writable::row_pen_of))]
pub fn row_pen(memory: &[u8], at: usize) -> u8
    requires { at + 64 ≤ length memory.now }
    ensures { result ≡ row_pen_of memory.now at }
{
    let end = lines::end(memory, at);
    if end == 0 {
        return 0;
    }
    memory[at + (end - 1) * 2 + 1]
}

// No flash, and italics only with white.
#[tactic(auto, unfolding(tape::specs::Writable::is_steady))]
fn is_steady(pen: u8) -> bool
    ensures { result ≡ is_steady pen }
{
    let p = Pen::unpack(pen);
    !p.flash & (!p.italics | (p.colour == 0))
}

// An empty cell, or a character with the row's pen.
#[tactic(auto, unfolding(tape::specs::Writable::is_cell_of))]
fn is_cell_of(pen: u8, code: u8, own: u8) -> bool
    ensures { result ≡ is_cell_of pen code own }
{
    (code == 0) | ((own == pen) & (code != 0x80))
}

// Whether the row that starts at `at` can be written. One flag with no way out, as in the tests of a record.
pub fn is_row_writable(memory: &[u8], at: usize) -> bool
    requires { at + 64 ≤ length memory.now }
    ensures { result ≡ is_row_writable memory.now at }
{
    let pen = row_pen(memory, at);
    let mut ok = true;
    for k in 0..32 {
        let i = at + k * 2;
        ok &= is_cell_of(pen, memory[i], memory[i + 1]);
    }
    is_steady(pen) & ok
}

// Whether a screen can be written.
pub fn is_writable(memory: &[u8; 960]) -> bool
    ensures { result ≡ is_writable memory.now }
{
    (0..15).all(|row| is_row_writable(memory, row * 64))
}
