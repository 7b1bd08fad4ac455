// What is done to lent bytes, and a choice of two: all that is done to bytes without knowing what they mean.
#![tactic(auto)]

ghost use Rattle.std.specs.Prelude.{◌≡◌, ◌+◌, ◌≤◌, length, replicate};
ghost use Rattle.facts.specs.Choice.{pick};
ghost use Rattle.facts.specs.Over.{over, part, exchange_of};
ghost use Rattle.facts.specs.Every.{same_of, blank_of};

// The first where the test passes, else the second.
pub fn choose<T: Copy>(test: bool, x: T, y: T) -> T
    ensures { result ≡ pick test x y }
{
    if test { x } else { y }
}

// What is lent stays as it is: all the bytes, with a place and a number beside them. With the part lent alone, each of a dozen calls above would cut it out by the
// same two sums, and each of their proofs would bring it back into the whole, where `over`, `part` and `blank_of` name its place; here that is proved once.

// The whole of a lent part becomes 0.
pub fn blank(out: &mut [u8])
    ensures { out.new ≡ replicate (length out.old) 0 }
{
    out.fill(0);
}

// `n` bytes from `at` on become 0.
#[tactic(auto, using(crate::proofs::Over::over_lent))]
pub fn wipe(bytes: &mut [u8], at: usize, n: usize)
    requires { at + n ≤ length bytes.old }
    ensures { bytes.new ≡ over bytes.old at (replicate n 0) }
{
    bytes[at..at + n].fill(0);
}

// `src` over the front of `out`.
#[tactic(auto, using(crate::proofs::Over::over_front))]
pub fn copy(out: &mut [u8], src: &[u8])
    requires { length src.now ≤ length out.old }
    ensures { out.new ≡ over out.old 0 src.now }
{
    out[..src.len()].copy_from_slice(src);
}

// `n` bytes from `from` on go down to `to`, which may cover some of them.
#[tactic(auto, using(crate::proofs::Over::over_within))]
pub fn slide(bytes: &mut [u8], to: usize, from: usize, n: usize)
    requires { (to ≤ from) × (from + n ≤ length bytes.old) }
    ensures { bytes.new ≡ over bytes.old to (part bytes.old from n) }
{
    bytes.copy_within(from..from + n, to);
}

// `n` bytes go from `from` to `to`, by way of a copy since the two may overlap, after `size` bytes from `at` on became 0.
#[tactic(auto, using(crate::proofs::Over::over_lent))]
pub fn carry(bytes: &mut [u8], at: usize, size: usize, from: usize, to: usize, n: usize)
    requires { (n ≤ 256) × (at + size ≤ length bytes.old) × (from + n ≤ length bytes.old) × (to + n ≤ length bytes.old) }
    ensures { bytes.new ≡ over (over bytes.old at (replicate size 0)) to (part bytes.old from n) }
{
    let mut held = [0u8; 256];
    held[..n].copy_from_slice(&bytes[from..from + n]);
    wipe(bytes, at, size);
    bytes[to..to + n].copy_from_slice(&held[..n]);
}

// The first `n` bytes and the `n` behind them change places.
#[tactic(auto, using(crate::proofs::Over::exchange_halves))]
pub fn exchange(bytes: &mut [u8], n: usize)
    requires { n + n ≤ length bytes.old }
    ensures { bytes.new ≡ exchange_of bytes.old n }
{
    let (front, behind) = bytes.split_at_mut(n);
    front.swap_with_slice(&mut behind[..n]);
}

// Whether the first `n` bytes of two slices are the same. One flag and no way out, so that the compiler can take many bytes at a time.
pub fn same(a: &[u8], b: &[u8], n: usize) -> bool
    requires { (n ≤ length a.now) × (n ≤ length b.now) }
    ensures { result ≡ same_of a.now b.now n }
{
    let mut ok = true;
    for i in 0..n {
        ok &= a[i] == b[i];
    }
    ok
}

// Whether `n` bytes from `at` on are 0; joined as in `same`.
pub fn is_blank(bytes: &[u8], at: usize, n: usize) -> bool
    requires { at + n ≤ length bytes.now }
    ensures { result ≡ blank_of bytes.now at n }
{
    bytes[at..at + n]
        .iter()
        .fold(true, |blank, byte| blank & (*byte == 0))
}
