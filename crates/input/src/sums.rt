// The sum of bytes, by which a program that runs the edges tells what a buffer holds.
ghost use Rattle.std.specs.Prelude.{◌≡◌, ◌+◌, ◌*◌, ◌%◌};
ghost use Rattle.input.specs.Sums.{sum_from};

// The largest prime below 2 to the 32.
const PRIME: u32 = 4294967291;

fn add(sum: u32, byte: u8) -> u32
    ensures { result ≡ (sum * 256 + byte) % 4294967291 }
{
    ((u64::from(sum) * 256 + u64::from(byte)) % u64::from(PRIME)) as u32
}

// The number that the bytes are the digits of, in base 256 and behind `before`, modulo the prime. So every place counts by a weight
// of its own, zeros alone sum to 0, and the sum of a text goes on from that of what stands before it.
pub fn sum(before: u32, bytes: &[u8]) -> u32
    ensures { result ≡ sum_from before bytes.now }
{
    bytes
        .iter()
        .fold(before % PRIME, |sum, byte| add(sum, *byte))
}
