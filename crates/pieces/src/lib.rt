// The register of a reel in pieces: each call reads on in the reel and prints the next piece into a lent buffer.
#![tactic(auto)]

ghost use Rattle.std.specs.Prelude.{◌≡◌, true, ◌≤◌, length};
ghost use Rattle.lines.specs.Line.{Put};
ghost use Rattle.runs.specs.Frames.{most, next_of};
ghost use Rattle.walk.specs.Stage.{is_live};
ghost use Rattle.walk.specs.Walk.{place, Fit, room, step_of, step_text_of};
ghost use Rattle.pieces.specs.Pieces.{is_on, handed, next_piece_of};

use walk::{MOST, Piece, Stage, Walk};
use wire::Line;

// The bytes of the buffer that a piece is put into.
pub const BUFFER: usize = 65536;

// The longest output of one step.
pub const ROOM: usize = 1216;

// What stands behind the frames that are read: the next line, or nothing after the last that is allowed.
fn next_line(reel: &[u8], frame: usize) -> Line
    requires { frame ≤ most }
    ensures { result ≡ next_of reel.now frame }
{
    if frame < MOST {
        return reel::line(reel, frame * 5);
    }
    Line::End
}

// One step: the header, one frame, or the end.
fn step(w: Walk, reel: &[u8], cells: &mut [u8; 1920], held: &mut [u8; 960], out: &mut [u8]) -> Piece
    requires { Fit (place w cells.old held.old) × (is_live w.stage ≡ true) × (room ≤ length out.old) }
    ensures { (place result.walk cells.new held.new ≡ step_of (place w cells.old held.old) reel.now)
        × Put out.old (step_text_of (place w cells.old held.old) reel.now) room out.new result.n }
{
    match w.stage {
        Stage::Header => {
            lines::put_header(out);
            Piece {
                walk: Walk {
                    stage: Stage::Frames,
                    ..w
                },
                n: 18,
            }
        }
        Stage::Frames | Stage::End => match next_line(reel, w.frame) {
            Line::Pair(first, second) => walk::show(w, cells, held, out, first, second),
            Line::End | Line::Bad => walk::finish(w, reel.len(), held, out),
        },
    }
}

// Whether there is room for one step more behind `n` bytes, and all is not given yet.
#[tactic(auto, unfolding(crate::specs::Pieces::is_on))]
fn is_on(stage: Stage, n: usize) -> bool
    requires { n ≤ 65536 }
    ensures { result ≡ is_on stage n }
{
    (n + ROOM <= BUFFER) & stage.is_live()
}

// The next piece of the register: step after step, while there is room. A walk at its end has given all.
pub fn next_piece(
    w: Walk,
    reel: &[u8],
    cells: &mut [u8; 1920],
    held: &mut [u8; 960],
    out: &mut [u8; 65536],
) -> Piece
    requires { Fit (place w cells.old held.old) }
    ensures { (handed (place result.walk cells.new held.new) result.n out.new
        ≡ next_piece_of (place w cells.old held.old) reel.now out.old)
        × (result.n ≤ 65536) × (length out.new ≡ 65536) }
{
    let mut walk = w;
    let mut n = 0;
    while is_on(walk.stage, n) {
        let piece = step(walk, reel, cells, held, &mut out[n..]);
        walk = piece.walk;
        n += piece.n;
    }
    Piece { walk, n }
}
