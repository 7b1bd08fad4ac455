// Bytes as they come on line 21, good or bad, with their low seven bits; frame lines of a reel, read and written.
#![tactic(auto)]

ghost use Rattle.std.specs.Prelude.{◌≡◌, ◌&&◌, ◌+◌, ◌*◌, ◌<◌, Some, None, Err};
ghost use Rattle.facts.specs.Choice.{pick};
ghost use Rattle.wire.specs.Byte.{is_good, low_seven, sent_of};
ghost use Rattle.wire.specs.Line.{is_digit, digit_of, hex_of, judge_of, line_at};
ghost use Rattle.wire.specs.Written.{outcome, write_line_of};
ghost use Rattle.wire.specs.Numbers.{reading_of, read_line_of, number_of_written, value_of_written};

// What stands at a place of a reel: the two raw bytes of a frame, the reel's end, or what is no frame line. This enum stays as it is:
// `line_at`, the reader's laws and `read_line_only` speak of these three, and as a Result of an Option the reel's end and a bad line would have no name in them.
#[derive(Clone, Copy, Debug, PartialEq, Eq)]
pub enum Line {
    Pair(u8, u8),
    End,
    Bad,
}

// Why no frame line is written: the buffer has a wrong length.
#[derive(Clone, Copy, Debug, PartialEq, Eq)]
pub struct WrongLength;

impl From<WrongLength> for u16 {
    ghost from_gives = { λ refusal number. number ≡ number_of_written (Err refusal) };

    fn from(_refusal: WrongLength) -> u16 {
        1
    }
}

// Whether a byte has an odd number of one bits among its eight.
pub fn is_good(byte: u8) -> bool
    ensures { result ≡ is_good byte }
{
    byte.count_ones() % 2 == 1
}

// What a byte says without its parity bit.
pub fn low_seven(byte: u8) -> u8
    ensures { (result ≡ low_seven byte) × (result < 128) }
{
    byte & 0x7f
}

// A value as it is sent: with the parity bit that makes it good.
#[tactic(auto, unfolding(crate::specs::Byte::sent_of))]
pub fn sent(value: u8) -> u8
    ensures { result ≡ sent_of value }
{
    let low = low_seven(value);
    if is_good(low) {
        return low;
    }
    low + 0x80
}

// The value of a digit, 0-9 A-F; 16 for any other byte. That stays as it is: a number and two tests with no way out, so that the compiler reads the four digits of a line
// side by side. By a `match` of ranges, and with an Option for each digit, a line took 1.8 times as long.
fn value(byte: u8) -> u8
    ensures { result ≡ digit_of byte }
{
    if (b'0' <= byte) & (byte <= b'9') {
        return byte - b'0';
    }
    if (b'A' <= byte) & (byte <= b'F') {
        return byte - b'A' + 10;
    }
    16
}

// The value of a digit, 0-9 A-F.
pub fn digit(byte: u8) -> Option<u8>
    ensures { result ≡ pick (is_digit byte) (Some (digit_of byte)) None }
{
    let value = value(byte);
    (value < 16).then_some(value)
}

// The digit, 0-9 A-F, of a value.
pub fn hex(value: u8) -> u8
    requires { value < 16 }
    ensures { result ≡ hex_of value }
{
    if value < 10 {
        return b'0' + value;
    }
    b'A' + (value - 10)
}

// The byte that two digits say, the high digit first.
pub fn byte(high: u8, low: u8) -> Option<u8>
    ensures { result ≡ pick (is_digit high && is_digit low) (Some (digit_of high * 16 + digit_of low)) None }
{
    Some(digit(high)? * 16 + digit(low)?)
}

// Five bytes judged as a frame line.
#[tactic(auto, unfolding(crate::specs::Line::judge_of))]
fn judge(line: &[u8; 5]) -> Line
    ensures { result ≡ judge_of line.now }
{
    let a = value(line[0]);
    let b = value(line[1]);
    let c = value(line[2]);
    let d = value(line[3]);
    if (a < 16) & (b < 16) & (c < 16) & (d < 16) & (line[4] == b'\n') {
        return Line::Pair(a * 16 + b, c * 16 + d);
    }
    Line::Bad
}

// The frame line that stands at place `at` of a reel. It reads five bytes and copies none. The place beside the reel stays as it is: a reader holds
// the slice and its position, and `line_at` says what stands there.
pub fn read_line(reel: &[u8], at: usize) -> Line
    ensures { (result ≡ line_at reel.now at) × (reading_of result ≡ read_line_of reel.now at) }
{
    if reel.len() <= at {
        return Line::End;
    }
    match reel[at..].first_chunk::<5>() {
        Some(line) => judge(line),
        None => Line::Bad,
    }
}

// The frame line of a pair into a buffer of five bytes; any other buffer keeps its bytes.
#[tactic(auto, using(crate::proofs::Lemmas::set_five), unfolding(crate::specs::Written::write_line_of, crate::specs::Line::line_of))]
pub fn write_line(out: &mut [u8], first: u8, second: u8) -> Result<(), WrongLength>
    ensures { outcome (number_of_written result) (value_of_written result) out.new ≡ write_line_of out.old first second }
{
    if out.len() != 5 {
        return Err(WrongLength);
    }
    let line = [
        hex(first / 16),
        hex(first % 16),
        hex(second / 16),
        hex(second % 16),
        0x0a,
    ];
    out.copy_from_slice(&line);
    Ok(())
}
