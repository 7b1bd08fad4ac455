// Screens shown, the display cleared, and frames that say nothing, each at its frame.
ghost use Rattle.std.specs.Prelude.{◌≡◌, true, ◌&&◌, List, ℕ, ◌+◌, ◌≤◌, ◌<◌, IfOk, length};
ghost use Rattle.tape.specs.Channel.{number_of_channel};
ghost use Rattle.tape.specs.Writable.{are_cells, is_writable};
ghost use Rattle.tape.specs.Tape.{tape_of};
ghost use Rattle.steps.specs.Take.{show_of, clear_of, wait_of};
ghost use Rattle.steps.specs.Hand.{Fit, Does, plan_of};

use crate::{Hand, Wrong};

// Frame 0 stays as it is: no frame is asked for, as the two bytes of a step say it (`is_kept`, `step_at`).
// How long a cue of so many pairs is held so that its last pair but one comes at a frame, or why it cannot be.
#[tactic(auto, unfolding(crate::specs::Hand::plan_of))]
fn plan(frames: usize, pairs: usize, frame: u16) -> Result<usize, Wrong>
    requires { (frames ≤ 16000) × (1 ≤ pairs) × (pairs ≤ 16000) }
    ensures { result ≡ plan_of frames pairs frame }
{
    let frame = frame as usize;
    let earliest = frames + pairs - 1;
    let held = frame.saturating_sub(earliest);
    if frame != 0 && frame < earliest {
        return Err(Wrong::TooEarly(earliest));
    }
    if 16000 < frames + pairs + held {
        return Err(Wrong::TooManyFrames);
    }
    Ok(held)
}

// The screen's tape, held up to its frame; then an empty screen is typed on.
fn load(
    hand: Hand,
    screen: &mut [u8; 960],
    out: &mut [u8],
    raw: &[u8],
    frame: u16,
) -> Result<Hand, Wrong>
    requires { Fit hand × (length out.old ≡ 80000)
        × (raw.now ≡ tape_of screen.old (number_of_channel hand.channel)) × ((are_cells screen.old && is_writable screen.old) ≡ true) }
    ensures fit { IfOk result (λ next. Fit next) }
    ensures does { Does (λ t. show_of t frame) hand screen.old out.old result screen.new out.new }
{
    let frames = hand.frames;
    let pairs = raw.len() / 2;
    let held = plan(frames, pairs, frame)?;
    frames::put_held(&mut out[frames * 5..], raw, held);
    *screen = [0; 960];
    Ok(Hand {
        drawn: false,
        frames: frames + pairs + held,
        ..hand
    })
}

// Shows the screen from a frame on, or as soon as it is loaded.
pub fn show(hand: Hand, screen: &mut [u8; 960], out: &mut [u8], frame: u16) -> Result<Hand, Wrong>
    requires { Fit hand × (length out.old ≡ 80000) }
    ensures fit { IfOk result (λ next. Fit next) }
    ensures does { Does (λ t. show_of t frame) hand screen.old out.old result screen.new out.new }
{
    let mut tape = [0u8; 4096];
    match writer::write_tape(screen, u8::from(hand.channel), &mut tape) {
        Ok(n) => load(hand, screen, out, &tape[..n as usize], frame),
        Err(_) => Err(Wrong::NotWritable),
    }
}

// Clears the display from a frame on, or at once.
pub fn clear(hand: Hand, out: &mut [u8], frame: u16) -> Result<Hand, Wrong>
    requires { Fit hand × (length out.old ≡ 80000) }
    ensures fit { IfOk result (λ next. Fit next) }
    ensures does { (screen : List ℕ) → Does (λ t. clear_of t frame) hand screen out.old result screen out.new }
{
    let frames = hand.frames;
    let held = plan(frames, 2, frame)?;
    let mut raw = [0u8; 4];
    items::put_item(&mut raw, hand.channel, items::EDM);
    frames::put_held(&mut out[frames * 5..], &raw, held);
    Ok(hand.further(2 + held))
}

// So many frames of nothing.
pub fn wait(hand: Hand, out: &mut [u8], count: u16) -> Result<Hand, Wrong>
    requires { Fit hand × (length out.old ≡ 80000) }
    ensures fit { IfOk result (λ next. Fit next) }
    ensures does { (screen : List ℕ) → Does (λ t. wait_of t count) hand screen out.old result screen out.new }
{
    let frames = hand.frames;
    let count = count as usize;
    if 16000 < frames + count {
        return Err(Wrong::TooManyFrames);
    }
    frames::put_nulls(&mut out[frames * 5..], count);
    Ok(hand.further(count))
}
