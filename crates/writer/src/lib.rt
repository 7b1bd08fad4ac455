// The writer of tapes: the pairs that load a screen and show it pop-on, as raw bytes in a lent buffer. The call asks nothing of its caller.
#![tactic(auto)]

ghost use Rattle.std.specs.Prelude.{◌≡◌, ◌+◌, ◌*◌, ◌<◌, ◌≤◌, length};
ghost use Rattle.wire.specs.Written.{outcome};
ghost use Rattle.tape.specs.Channel.{number_of_channel};
ghost use Rattle.tape.specs.Tape.{code_before, item_at, rest_of, row_tape_of, rows_tape_of, tape_of};
ghost use Rattle.items.specs.Laid.{Laid};
ghost use Rattle.writer.specs.Write.{number_of_refusal, number_of_tape, value_of_tape, write_tape_of};

use tape::{Channel, Item};

// Why a tape is refused.
#[derive(Clone, Copy, Debug, PartialEq, Eq)]
pub enum Refusal {
    WrongLength,
    // A channel that there is not.
    NoSuch,
    // A cell that no record may hold.
    Invalid,
    NotWritable,
}

// The paper's number of a refusal.
impl From<Refusal> for u16 {
    ghost from_gives = { λ refusal number. number ≡ number_of_refusal refusal };

    fn from(refusal: Refusal) -> u16 {
        match refusal {
            Refusal::WrongLength => 1,
            Refusal::NoSuch => 2,
            Refusal::Invalid => 6,
            Refusal::NotWritable => 7,
        }
    }
}

// A row's place in the memory stays as it is, for the reason that `lines` has; and 80h behind a row's cells, since `next_item_of` and its laws take three codes and
// no cell has 80h that is written.
// The code of cell `k` of a row of `end` cells; behind them 80h stands, so that the next row is no part of this one.
fn code_before(memory: &[u8], at: usize, end: usize, k: usize) -> u8
    requires { (at + 64 ≤ length memory.now) × (end ≤ 32) }
    ensures { result ≡ code_before memory.now at end k }
{
    if k < end {
        return memory[at + k * 2];
    }
    0x80
}

// What comes at cell `k`.
fn item_at(memory: &[u8], at: usize, end: usize, k: usize) -> Item
    requires { (at + 64 ≤ length memory.now) × (end ≤ 32) × (k < end) }
    ensures { (result ≡ item_at memory.now at end k) × (1 ≤ result.columns) × (result.columns ≤ 3) }
{
    let code = code_before(memory, at, end, k);
    let next = code_before(memory, at, end, k + 1);
    let after = code_before(memory, at, end, k + 2);
    items::next_item(code, next, after)
}

// The items of a row from cell `from` on, at the front of a buffer. Gives how many bytes they are.
// The loop stays as it is: an item leads on one to three columns by what it is, so that no range, slice or chunk is what it goes over.
fn put_rest(
    out: &mut [u8],
    channel: Channel,
    memory: &[u8],
    at: usize,
    end: usize,
    from: usize,
) -> usize
    requires { (at + 64 ≤ length memory.now) × (end ≤ 32)
        × (length (rest_of (number_of_channel channel) memory.now at end from) ≤ length out.old) }
    ensures { Laid out.old (rest_of (number_of_channel channel) memory.now at end from) out.new result }
{
    let mut n = 0;
    let mut k = from;
    while k < end {
        let item = item_at(memory, at, end, k);
        n += items::put_item(&mut out[n..], channel, item);
        k += item.columns;
    }
    n
}

// A row, counted from 0: nothing where it is empty, else its preamble and its cells up to the last non-empty one.
fn put_row(out: &mut [u8], channel: Channel, memory: &[u8; 960], row: usize) -> usize
    requires { (row < 15)
        × (length (row_tape_of (number_of_channel channel) memory.now row) ≤ length out.old) }
    ensures { Laid out.old (row_tape_of (number_of_channel channel) memory.now row) out.new result }
{
    let at = row * 64;
    let end = lines::end(memory, at);
    if end == 0 {
        return 0;
    }
    let pen = writable::row_pen(memory, at);
    let item = items::preamble_item(row, pen, lines::lead(memory, at));
    let n = items::put_item(out, channel, item);
    n + put_rest(&mut out[n..], channel, memory, at, end, item.columns)
}

// All rows, from the top.
fn put_rows(out: &mut [u8], channel: Channel, memory: &[u8; 960]) -> usize
    requires { length (rows_tape_of (number_of_channel channel) memory.now 15) ≤ length out.old }
    ensures { Laid out.old (rows_tape_of (number_of_channel channel) memory.now 15) out.new result }
{
    let mut n = 0;
    for row in 0..15 {
        n += put_row(&mut out[n..], channel, memory, row);
    }
    n
}

// The whole tape, at the front of a buffer.
fn put_tape(out: &mut [u8], channel: Channel, memory: &[u8; 960]) -> usize
    requires { length (tape_of memory.now (number_of_channel channel)) ≤ length out.old }
    ensures { Laid out.old (tape_of memory.now (number_of_channel channel)) out.new result }
{
    let mut n = items::put_item(out, channel, items::RCL);
    n += items::put_item(&mut out[n..], channel, items::ENM);
    n += put_rows(&mut out[n..], channel, memory);
    n + items::put_item(&mut out[n..], channel, items::EOC)
}

// The tape of a screen on a channel, into a buffer of 4,096 bytes.
#[tactic(auto, unfolding(crate::specs::Write::write_tape_of))]
fn write_sized(memory: &[u8; 960], channel: u8, out: &mut [u8]) -> Result<u16, Refusal>
    requires { length out.old ≡ 4096 }
    ensures { outcome (number_of_tape result) (value_of_tape result) out.new ≡ write_tape_of memory.now channel out.old }
{
    if !writable::are_cells(memory) {
        return Err(Refusal::Invalid);
    }
    let Ok(channel) = Channel::try_from(channel) else {
        return Err(Refusal::NoSuch);
    };
    if !writable::is_writable(memory) {
        return Err(Refusal::NotWritable);
    }
    Ok(put_tape(out, channel, memory) as u16)
}

// The tape of a screen of 960 bytes on a channel, into a buffer of 4,096, and how many bytes it has; the buffer's bytes past the pairs stay, and on a refusal all of them.
#[tactic(auto, unfolding(crate::specs::Write::write_tape_of))]
pub fn write_tape(memory: &[u8], channel: u8, out: &mut [u8]) -> Result<u16, Refusal>
    ensures { outcome (number_of_tape result) (value_of_tape result) out.new ≡ write_tape_of memory.now channel out.old }
{
    match memory.as_array() {
        Some(memory) if out.len() == 4096 => write_sized(memory, channel, out),
        _ => Err(Refusal::WrongLength),
    }
}
