// One step of the register's walk over a reel: a frame's pair is shown, or the end is printed, at the front of a lent buffer.
// The walk goes by value; the cells and the screen of the open stretch are lent beside it, and their types fix their lengths. That stays as it is:
// `start` is a public call that fills what it is lent, and a struct that holds what is lent owes in each contract which loan it holds.
#![tactic(auto)]

ghost use Rattle.std.specs.Prelude.{◌≡◌, ◌≤◌, ◌<◌, length};
ghost use Rattle.lines.specs.Line.{Put};
ghost use Rattle.runs.specs.Frames.{most};
ghost use Rattle.runs.specs.Register.{refusal_of};
ghost use Rattle.walk.specs.Stage.{stage_of, is_live};
ghost use Rattle.walk.specs.Walk.{place, start_of, Fit, room, shown_of, shown_text_of, finished_of, finish_text_of};

use state::State;

// What a walk gives next: the header, the frames that are not read yet, or nothing.
#[derive(Clone, Copy, Debug, PartialEq, Eq)]
pub enum Stage {
    Header,
    Frames,
    End,
}

// A walk by the number of its stage, as a caller may keep it: whatever is neither the first nor the second is the end.
impl From<u8> for Stage {
    ghost from_gives = { λ number stage. stage ≡ stage_of number };

    #[tactic(auto, unfolding(crate::specs::Stage::stage_of))]
    fn from(number: u8) -> Stage {
        match number {
            0 => Stage::Header,
            1 => Stage::Frames,
            _ => Stage::End,
        }
    }
}

impl Stage {
    // Whether anything is to come.
    pub fn is_live(self) -> bool
        ensures { result ≡ is_live self }
    {
        self != Stage::End
    }
}

// A reel has at most so many frames.
pub const MOST: usize = 16000;

// How many frames are read, since which frame the present screen stands, and the decoder's state.
#[derive(Clone, Copy)]
pub struct Walk {
    pub stage: Stage,
    pub frame: usize,
    pub since: usize,
    pub state: State,
}

// How many bytes of the buffer are the piece, and where the walk stands then.
#[derive(Clone, Copy)]
pub struct Piece {
    pub walk: Walk,
    pub n: usize,
}

// A walk at the first line: a fresh desk, and an empty screen.
pub fn start(cells: &mut [u8; 1920], held: &mut [u8; 960]) -> Walk
    ensures { place result cells.new held.new ≡ start_of }
{
    *cells = [0; 1920];
    *held = [0; 960];
    Walk {
        stage: Stage::Header,
        frame: 0,
        since: 0,
        state: State::fresh(State::CHANNEL),
    }
}

// A frame's pair: where it changes the screen, the stretch that was open is printed, and its screen is held from now on.
pub fn show(
    w: Walk,
    cells: &mut [u8; 1920],
    held: &mut [u8; 960],
    out: &mut [u8],
    first: u8,
    second: u8,
) -> Piece
    requires { Fit (place w cells.old held.old) × (w.frame < most) × (room ≤ length out.old) }
    ensures { (place result.walk cells.new held.new ≡ shown_of (place w cells.old held.old) first second)
        × Put out.old (shown_text_of (place w cells.old held.old) first second) room out.new result.n }
{
    let state = decode::pair(w.state, cells, first, second);
    let frame = w.frame + 1;
    if page::same_screen(&cells[..960], held) {
        return Piece {
            walk: Walk {
                stage: Stage::Frames,
                frame,
                state,
                ..w
            },
            n: 0,
        };
    }
    let n = lines::put_lines(out, w.since, w.frame, held);
    held.copy_from_slice(&cells[..960]);
    Piece {
        walk: Walk {
            stage: Stage::Frames,
            frame,
            since: frame,
            state,
        },
        n,
    }
}

// The refusal of what stands behind the last good frame, where the reel does not end there. Gives how many bytes it is. The number stays as it is, 3 or 5: it is printed
// and not handed on, and `refusal_of` prints it.
fn put_refusal(out: &mut [u8], size: usize, frame: usize) -> usize
    requires { (16 ≤ length out.old) × (frame ≤ most) }
    ensures { Put out.old (refusal_of size frame) 16 out.new result }
{
    if size <= frame * 5 {
        return 0;
    }
    let number = if frame == MOST { 3 } else { 5 };
    lines::put_refused(out, frame + 1, number);
    16
}

// The end: the open stretch closes at the last good frame, then the refusal if there is one.
pub fn finish(w: Walk, size: usize, held: &[u8; 960], out: &mut [u8]) -> Piece
    requires { (w.frame ≤ most) × (room ≤ length out.old) }
    ensures { (result.walk ≡ finished_of w) × Put out.old (finish_text_of w held.now size) room out.new result.n }
{
    let m = lines::put_lines(out, w.since, w.frame, held);
    let n = m + put_refusal(&mut out[m..], size, w.frame);
    Piece {
        walk: Walk {
            stage: Stage::End,
            ..w
        },
        n,
    }
}
