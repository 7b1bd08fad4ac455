// Frame lines at the front of a lent buffer: those of raw bytes, and those of frames that say nothing.
#![tactic(auto)]

ghost use Rattle.std.specs.Prelude.{◌≤◌, length};
ghost use Rattle.wire.specs.Line.{line_of};
ghost use Rattle.wire.specs.Reel.{reel_of_raw};
ghost use Rattle.tape.specs.Programme.{nulls_of};
ghost use Rattle.items.specs.Laid.{Laid};
ghost use Rattle.frames.specs.Held.{held_of};

// The frame line of a pair. Gives how many bytes it is.
#[tactic(auto, using(wire::proofs::Laws::length_line_of))]
fn put_line(out: &mut [u8], first: u8, second: u8) -> usize
    requires { length (line_of first second) ≤ length out.old }
    ensures { Laid out.old (line_of first second) out.new result }
{
    let _ = wire::write_line(&mut out[..5], first, second);
    5
}

// The frame lines of raw bytes.
fn put_pairs(out: &mut [u8], raw: &[u8]) -> usize
    requires { length (reel_of_raw raw.now) ≤ length out.old }
    ensures { Laid out.old (reel_of_raw raw.now) out.new result }
{
    let mut n = 0;
    for pair in raw.chunks_exact(2) {
        n += put_line(&mut out[n..], pair[0], pair[1]);
    }
    n
}

// The frame lines of so many pairs of nulls.
pub fn put_nulls(out: &mut [u8], count: usize) -> usize
    requires { length (reel_of_raw (nulls_of count)) ≤ length out.old }
    ensures { Laid out.old (reel_of_raw (nulls_of count)) out.new result }
{
    let mut n = 0;
    for _ in 0..count {
        n += put_line(&mut out[n..], 0x80, 0x80);
    }
    n
}

// The frame lines of raw bytes with so many pairs of nulls before the control pair that they end in. Gives how many bytes they are.
pub fn put_held(out: &mut [u8], raw: &[u8], held: usize) -> usize
    requires { (4 ≤ length raw.now) × (length (held_of raw.now held) ≤ length out.old) }
    ensures { Laid out.old (held_of raw.now held) out.new result }
{
    let last = raw.len() - 4;
    let mut n = put_pairs(out, &raw[..last]);
    n += put_nulls(&mut out[n..], held);
    n + put_pairs(&mut out[n..], &raw[last..])
}
