// The whole of standard input, read after read, for a program that works on it when it is there; and what a program says of a call that fails.
#![tactic(auto)]

pub mod sums;
pub mod words;

ghost use Rattle.std.specs.Prelude.{◌≡◌, ◌+◌, ◌≤◌, length, IfOk, MatchResult};

use std::io;
use std::io::{Read, Write};

// How many bytes there are, and how many of them the last read brought.
#[derive(Clone, Copy)]
struct Got {
    n: usize,
    came: usize,
}

// How many bytes had come when a read failed, and why it did.
#[derive(Clone, Copy, Drop)]
pub struct Cut {
    pub n: usize,
    pub error: io::Error,
}

// The words of an error: its number stands behind them in round brackets, and zeros fill up the rest.
fn words_of(text: &[u8]) -> &[u8] {
    let end = text
        .iter()
        .position(|byte| *byte == 0)
        .unwrap_or(text.len());
    let bracket = text[..end].iter().position(|byte| *byte == b'(');
    &text[..bracket.map_or(end, |at| at.saturating_sub(1))]
}

// A write that fails is passed over, and the next one is tried. What a terminal or a file takes, no clause can say.
pub fn print(to: &impl Print, words: &[u8]) {
    let _ = to.write_all(words);
}

// Bytes that go out are counted here and nowhere else; where the write fails, none are.
pub fn send(to: &impl Print, bytes: &[u8]) -> io::Result<usize>
    ensures { IfOk result (λ n. n ≡ length bytes.now) }
{
    to.write_all(bytes)?;
    Ok(bytes.len())
}

// Says what failed, and why, on what is standard error in a program: a line, and no number in it.
pub fn fail(err: &impl Print, what: &[u8], error: io::Error) {
    let mut text = [0u8; 256];
    let mut rest = &mut text[..];
    let _ = write!(rest, "{error}");
    print(err, what);
    print(err, b": ");
    print(err, words_of(&text));
    print(err, b"\n");
}

// One read, behind the first `n` bytes. At the end of the input none come.
fn read_more<R: Read>(from: &mut R, into: &mut [u8], n: usize) -> Result<Got, Cut>
    requires { n ≤ length into.old }
    ensures { MatchResult result (λ got. (got.n ≤ length into.old) × (got.n ≡ n + got.came)) (λ cut. cut.n ≡ n) }
{
    let came = from.read(&mut into[n..]).map_err(|error| Cut { n, error })?;
    Ok(Got { n: n + came, came })
}

// What is read into stays as it is: a buffer of fixed size that the program lends, since nothing here lies on a heap.
// Read after read, until the input ends, the buffer is full or a read fails.
pub fn read_all<R: Input>(rt: &R, into: &mut [u8]) -> Result<usize, Cut>
    ensures { MatchResult result (λ n. n ≤ length into.old) (λ cut. cut.n ≤ length into.old) }
{
    let mut from = rt.reader();
    let mut n = 0;
    while n < into.len() {
        let got = read_more(&mut from, into, n)?;
        if got.came == 0 {
            return Ok(n);
        }
        n = got.n;
    }
    Ok(n)
}

// The same for a program that works on what had come before a read failed: that it failed is said, with why, and behind `what`.
pub fn read_what_comes<R: Input>(rt: &R, err: &impl Print, into: &mut [u8], what: &[u8]) -> usize
    ensures { result ≤ length into.old }
{
    match read_all(rt, into) {
        Ok(n) => n,
        Err(cut) => {
            fail(err, what, cut.error);
            cut.n
        }
    }
}
