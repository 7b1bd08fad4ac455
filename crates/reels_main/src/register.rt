// A reel's register as it is, or what is told of one that is longer than a screenful: its number of bytes, their sum, and its last line.
ghost use Rattle.std.specs.Prelude.{◌≤◌, max, length};

use input::print;
use input::sums::sum;

// The longest register that is printed whole.
const SCREENFUL: u64 = 2000;

// Of the pieces so far: how many bytes they have, their sum, and the length of the last one that is not empty.
#[derive(Clone, Copy)]
struct Told {
    size: u64,
    sum: u32,
    last: usize,
}

impl Told {
    // One piece more.
    fn add(self, piece: &[u8]) -> Told
        ensures { result.last ≤ max self.last (length piece.now) }
    {
        if piece.is_empty() {
            return self;
        }
        Told {
            size: self.size.wrapping_add(piece.len() as u64),
            sum: sum(self.sum, piece),
            last: piece.len(),
        }
    }
}

// Piece after piece, as the program `register` prints them; the last one is left in the buffer.
fn tell(reel: &[u8], cells: &mut [u8; 1920], held: &mut [u8; 960], out: &mut [u8; 65536]) -> Told
    ensures { result.last ≤ 65536 }
{
    let mut told = Told {
        size: 0,
        sum: 0,
        last: 0,
    };
    let mut w = walk::start(cells, held);
    while w.stage.is_live() {
        let p = pieces::next_piece(w, reel, cells, held, out);
        w = p.walk;
        told = told.add(&out[..p.n]);
    }
    told
}

// A register no longer than a screenful is one piece, and stands in the buffer whole. That each word is a write of its own stays as it is: one that fails is passed
// over, and the next one is tried.
fn print_told(to: &impl Print, told: Told, last: &[u8]) {
    if told.size <= SCREENFUL {
        print(to, last);
        return;
    }
    let (size, sum) = (told.size, told.sum);
    let _ = print!(to; "{size}");
    print(to, b" bytes, sum ");
    let _ = print!(to; "{sum:08x}");
    print(to, b", last line:\n");
    let lines = last.split_inclusive(|b| *b == b'\n');
    print(to, lines.last().unwrap_or(&[]));
}

pub fn print_register(to: &impl Print, reel: &[u8]) {
    let mut cells = [0u8; 1920];
    let mut held = [0u8; 960];
    let mut out = [0u8; 65536];
    let told = tell(reel, &mut cells, &mut held, &mut out);
    print_told(to, told, &out[..told.last]);
}
