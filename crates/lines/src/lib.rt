// The bytes of the register's lines, printed at the front of a lent buffer.
#![tactic(auto)]

ghost use Rattle.std.specs.Prelude.{◌≡◌, ◌+◌, ◌-◌, ◌≤◌, length};
ghost use Rattle.facts.specs.Over.{over};
ghost use Rattle.lines.specs.Span.{lead_of, end_of};
ghost use Rattle.lines.specs.Line.{header, digit_of, frame_of, row_of, head_of, codes_of, run, row_line_of, lines_of, refused_of, Put};

use cell::Row;

// The last decimal digit of a number.
#[tactic(auto, unfolding(crate::specs::Line::digit_of))]
fn digit(value: usize) -> u8
    ensures { result ≡ digit_of value }
{
    (value % 10) as u8 + b'0'
}

// A frame in five digits, and a space.
#[tactic(auto, unfolding(crate::specs::Line::frame_of))]
fn frame_text(frame: usize) -> [u8; 6]
    ensures { result ≡ frame_of frame }
{
    [
        digit(frame / 10000),
        digit(frame / 1000),
        digit(frame / 100),
        digit(frame / 10),
        digit(frame),
        b' ',
    ]
}

// A row in two digits, and a space.
#[tactic(auto, unfolding(crate::specs::Line::row_of))]
fn row_text(row: Row) -> [u8; 3]
    ensures { result ≡ row_of row.0 }
{
    let number = row.0 as usize;
    [digit(number / 10), digit(number), b' ']
}

// A row goes in as a screen and the place where it starts, which stays as it is: as 64 bytes each caller would cut it out of its memory first, and the laws of tapes
// and of the register, which speak of `lead_of` and `end_of` at places of the whole, would have to bring it back there. That 32 and 0 stand for a row with no
// cell stays as it is too: they are counts of cells, as `lead_of` and `end_of` are.

// How many cells of the row that starts at `at` stand before its first non-empty one.
pub fn lead(screen: &[u8], at: usize) -> usize
    requires { at + 64 ≤ length screen.now }
    ensures { (result ≡ lead_of screen.now at 32) × (result ≤ 32) }
{
    (0..32).find(|k| screen[at + *k * 2] != 0).unwrap_or(32)
}

// How many stand up to its last non-empty one; 0 where there is none. Most rows of a screen are empty, and such a row is passed over as a
// whole; in the others the last cell is come to from the back.
#[tactic(auto, using(crate::proofs::Printed::end_of_here, crate::proofs::Printed::end_of_none))]
pub fn end(screen: &[u8], at: usize) -> usize
    requires { at + 64 ≤ length screen.now }
    ensures { (result ≡ end_of screen.now at 32) × (result ≤ 32) }
{
    if facts::is_blank(screen, at, 64) {
        return 0;
    }
    for k in (0..32).rev() {
        if screen[at + k * 2] != 0 {
            return k + 1;
        }
    }
    0
}

// The codes of the cells from `from` on up to `end`. Gives how many bytes they are.
fn put_codes(out: &mut [u8], screen: &[u8], at: usize, from: usize, end: usize) -> usize
    requires { (64 ≤ length out.old) × (at + 64 ≤ length screen.now) × (from ≤ 32) × (end ≤ 32) }
    ensures { Put out.old (codes_of screen.now at from (end - from)) 64 out.new result }
{
    let mut n = 0;
    for k in from..end {
        let code = screen[at + k * 2];
        out[n] = wire::hex(code / 16);
        out[n + 1] = wire::hex(code % 16);
        n += 2;
    }
    n
}

// What stands before the codes of a line.
fn put_head(out: &mut [u8], from: usize, to: usize, row: Row)
    requires { 15 ≤ length out.old }
    ensures { out.new ≡ over out.old 0 (head_of from to row.0) }
{
    facts::copy(out, &frame_text(from));
    facts::copy(&mut out[6..], &frame_text(to));
    facts::copy(&mut out[12..], &row_text(row));
}

// A run's frames and its screen go in one by one, which stays as it is: of a struct that holds the lent screen each clause says whether it means
// what it was or what it is, and code takes the screen out before it lends it on.

// The line of one row of a run, where the row has a non-empty cell. Gives how many bytes it is.
fn put_row_line(out: &mut [u8], from: usize, to: usize, screen: &[u8; 960], row: Row) -> usize
    requires { (80 ≤ length out.old) × (1 ≤ row.0) × (row.0 ≤ 15) }
    ensures { Put out.old (row_line_of (run from to screen.now) row.0) 80 out.new result }
{
    let at = cell::row_address(page::DISPLAYED, row);
    let end = end(screen, at);
    if end == 0 {
        return 0;
    }
    let lead = lead(screen, at);
    put_head(out, from, to, row);
    let n = 15 + put_codes(&mut out[15..], screen, at, lead, end);
    out[n] = b'\n';
    n + 1
}

// The lines of a run, from the top. Gives how many bytes they are.
pub fn put_lines(out: &mut [u8], from: usize, to: usize, screen: &[u8; 960]) -> usize
    requires { 1200 ≤ length out.old }
    ensures { Put out.old (lines_of (run from to screen.now)) 1200 out.new result }
{
    let mut n = 0;
    for row in 1..=15 {
        n += put_row_line(&mut out[n..], from, to, screen, Row(row));
    }
    n
}

// The line of a refusal: its frame, and the paper's number.
pub fn put_refused(out: &mut [u8], frame: usize, number: usize)
    requires { 16 ≤ length out.old }
    ensures { out.new ≡ over out.old 0 (refused_of frame number) }
{
    facts::copy(out, b"refused ");
    facts::copy(&mut out[8..], &frame_text(frame));
    facts::copy(&mut out[14..], &[digit(number), b'\n']);
}

// The line before all others.
pub fn put_header(out: &mut [u8])
    requires { 18 ≤ length out.old }
    ensures { out.new ≡ over out.old 0 header }
{
    facts::copy(out, b"from to row codes\n");
}
