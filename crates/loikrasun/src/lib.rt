// The desk for programs in C and Rust: each function that `loikrasun_c` exports is thin over one call, and packs its answer into one number.
// As in `desk`, nothing is asked of the caller, and a refusal leaves every lent byte alone.
#![tactic(auto)]

ghost use Rattle.std.specs.Prelude.{◌≡◌, ℕ, MatchResult};
ghost use Rattle.wire.specs.Line.{line_at};
ghost use Rattle.wire.specs.Written.{write_line_of};
ghost use Rattle.standing.specs.Calls.{gives, open_of, take_of, select_of, back_of};
ghost use Rattle.replay.specs.Captions.{caption_decoder};
ghost use Rattle.desk.specs.Looks.{row_of};
ghost use Rattle.writer.specs.Write.{write_tape_of};
ghost use Rattle.loikrasun.specs.Packed.{packed_of, given_line, ended, ended_of, filled, written_of, viewed_of};

use wire::Line;

// The paper's number times 65,536, plus the value.
#[tactic(auto, unfolding(crate::specs::Packed::packed_of))]
fn pack(number: u16, value: u16) -> u32
    ensures { result ≡ packed_of (gives number value) }
{
    number as u32 * 65536 + value as u32
}

// A value, or the paper's number of a refusal.
fn pack_answer<E: Into<u16>>(answer: Result<u16, E>) -> u32
    ensures { MatchResult answer (λ value. result ≡ packed_of (gives 0 value))
        (λ refusal. (number : ℕ) × E.converts refusal number × (result ≡ packed_of (gives number 0))) }
{
    match answer {
        Ok(value) => pack(0, value),
        Err(refusal) => pack(refusal.into(), 0),
    }
}

fn pack_line(line: Line) -> u32
    ensures { result ≡ packed_of (given_line line) }
{
    match line {
        Line::Pair(first, second) => pack(0, first as u16 * 256 + second as u16),
        Line::End => pack(0, 0),
        Line::Bad => pack(5, 0),
    }
}

pub fn loikrasun_open(desk: &mut [u8], log: &mut [u8], tray: &mut [u8]) -> u32
    ensures { ended result desk.new log.new tray.new
        ≡ ended_of (open_of caption_decoder desk.old log.old tray.old) }
{
    pack_answer(desk::open(desk, log, tray))
}

pub fn loikrasun_take(
    desk: &mut [u8],
    log: &mut [u8],
    tray: &mut [u8],
    first: u8,
    second: u8,
) -> u32
    ensures { ended result desk.new log.new tray.new
        ≡ ended_of (take_of caption_decoder desk.old log.old tray.old first second) }
{
    pack_answer(desk::take(desk, log, tray, first, second))
}

pub fn loikrasun_select(desk: &mut [u8], log: &mut [u8], tray: &mut [u8], channel: u8) -> u32
    ensures { ended result desk.new log.new tray.new
        ≡ ended_of (select_of caption_decoder desk.old log.old tray.old channel) }
{
    pack_answer(desk::select(desk, log, tray, channel))
}

pub fn loikrasun_back(desk: &mut [u8], log: &mut [u8], tray: &mut [u8], k: u32) -> u32
    ensures { ended result desk.new log.new tray.new
        ≡ ended_of (back_of caption_decoder desk.old log.old tray.old k) }
{
    pack_answer(desk::back(desk, log, tray, k))
}

pub fn loikrasun_row(desk: &[u8], row: u8) -> u32
    ensures { result ≡ packed_of (row_of desk.now row) }
{
    pack_answer(desk::row(desk, row))
}

// What the view hands back, copied over `out`; on refusal that is an empty part, and `out` keeps its bytes.
pub fn loikrasun_view(desk: &[u8], out: &mut [u8]) -> u32
    ensures { filled result out.new ≡ viewed_of desk.now out.old }
{
    if out.len() != 960 {
        return pack_answer(Err(desk::Refusal::WrongLength));
    }
    facts::copy(out, desk::view(desk));
    pack_answer(desk::view_number(desk))
}

pub fn loikrasun_line_write(out: &mut [u8], first: u8, second: u8) -> u32
    ensures { filled result out.new ≡ written_of (write_line_of out.old first second) }
{
    pack_answer(wire::write_line(out, first, second).map(|()| 0))
}

// The pair of the reel's first line; an empty reel has none and gives 0.
pub fn loikrasun_line_read(reel: &[u8]) -> u32
    ensures { result ≡ packed_of (given_line (line_at reel.now 0)) }
{
    pack_line(wire::read_line(reel, 0))
}

// The tape of a screen on a channel, from the first byte of `out` on; the value is how many bytes it has.
pub fn loikrasun_tape(memory: &[u8], channel: u8, out: &mut [u8]) -> u32
    ensures { filled result out.new ≡ written_of (write_tape_of memory.now channel out.old) }
{
    pack_answer(writer::write_tape(memory, channel, out))
}
