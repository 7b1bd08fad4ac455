// The reel of a script: its steps one by one, up to the first that cannot be kept. The call asks nothing of its caller.
#![tactic(auto)]

ghost use Rattle.std.specs.Prelude.{◌≡◌, List, ℕ, ◌+◌, ◌/◌, ◌≤◌, IfOk, length};
ghost use Rattle.steps.specs.Take.{blank, Went};
ghost use Rattle.steps.specs.Wrong.{number_of_wrong, earliest_of};
ghost use Rattle.steps.specs.Hand.{Fit, Goes, Does};
ghost use Rattle.script.specs.Step.{size, step_at};
ghost use Rattle.script.specs.Script.{step_of, reached_of, show_last_of};
ghost use Rattle.script.specs.Make.{outcome, make_of};

use steps::{Hand, Wrong, cells, cues};
use tape::Channel;

// What a script came to: how many steps were kept, how many bytes their reel has, and why it stops there, if it does.
#[derive(Clone, Copy, Debug, PartialEq, Eq)]
pub struct Made {
    pub kept: usize,
    pub n: usize,
    pub wrong: Option<Wrong>,
}

// The steps that were kept, what is in hand behind the last, and what is wrong with the next, if there is one that is wrong.
#[derive(Clone, Copy, Debug, PartialEq, Eq)]
pub struct Reached {
    pub kept: usize,
    pub hand: Hand,
    pub wrong: Option<Wrong>,
}

// The step from byte `at` on. The place beside the script stays as it is: `step_at` names the steps of the whole by their places. So does the kind, a byte of
// what is lent: any byte can stand there, and all but five are no step.
fn step(
    hand: Hand,
    screen: &mut [u8; 960],
    out: &mut [u8],
    script: &[u8],
    at: usize,
) -> Result<Hand, Wrong>
    requires { Fit hand × (length out.old ≡ 80000) × (at + 40 ≤ length script.now) }
    ensures fit { IfOk result (λ next. Fit next) }
    ensures does { Does (λ t. step_of t (step_at script.now at)) hand screen.old out.old result screen.new out.new }
{
    let count = script[at + 4] as usize;
    let number = u16::from_le_bytes([script[at + 1], script[at + 2]]);
    match script[at] {
        1 if count <= 32 => {
            let from = at + 8;
            cells::put(
                hand,
                screen,
                script[at + 1],
                script[at + 2],
                script[at + 3],
                &script[from..from + count],
            )
        }
        2 => cues::show(hand, screen, out, number),
        3 => cues::clear(hand, out, number),
        4 => cues::wait(hand, out, number),
        5 => hand.switch(number as usize),
        _ => Err(Wrong::Invalid),
    }
}

// All steps up to the first that is wrong, from an empty screen on channel 1.
fn reach(script: &[u8], screen: &mut [u8; 960], out: &mut [u8]) -> Reached
    requires { (screen.old ≡ blank) × (length out.old ≡ 80000) }
    ensures fit { Fit result.hand }
    ensures kept { result.kept ≡ (reached_of script.now (length script.now / size)).kept }
    ensures goes { Goes (reached_of script.now (length script.now / size)).last result.hand result.wrong screen.new out.old out.new }
{
    let count = script.len() / 40;
    let mut hand = Hand {
        channel: Channel::One,
        drawn: false,
        frames: 0,
    };
    for kept in 0..count {
        match step(hand, screen, out, script, kept * 40) {
            Ok(next) => hand = next,
            Err(wrong) => {
                return Reached {
                    kept,
                    hand,
                    wrong: Some(wrong),
                };
            }
        }
    }
    Reached {
        kept: count,
        hand,
        wrong: None,
    }
}

// A screen still to be shown at the end is shown.
fn show_last(reached: Reached, screen: &mut [u8; 960], out: &mut [u8]) -> Reached
    requires { Fit reached.hand × (length out.old ≡ 80000) }
    ensures fit { Fit result.hand }
    ensures kept { result.kept ≡ reached.kept }
    ensures goes { (w : Went) (first : List ℕ) → Goes w reached.hand reached.wrong screen.old first out.old
        → Goes (show_last_of w) result.hand result.wrong screen.new first out.new }
{
    let due = reached.wrong.is_none() & reached.hand.drawn;
    if due {
        return match cues::show(reached.hand, screen, out, 0) {
            Ok(hand) => Reached { hand, ..reached },
            Err(wrong) => Reached {
                wrong: Some(wrong),
                ..reached
            },
        };
    }
    reached
}

// The buffer of a reel stays as it is: a slice with its length in each clause, since `make` is a call that takes any, and what it lends on as an array would be
// a part of it, by whose end the proof would have to come back to the whole.
// The reel of a script at the front of a buffer of 80,000 bytes, whose other bytes stay; where a step is wrong, of the steps before it.
#[tactic(auto, unfolding(crate::specs::Make::make_of, crate::specs::Script::made_of, crate::specs::Script::script_reel_of))]
pub fn make(script: &[u8], out: &mut [u8]) -> Made
    ensures { outcome (number_of_wrong result.wrong) result.kept (earliest_of result.wrong) result.n out.new ≡ make_of script.now out.old }
{
    if out.len() != 80000 || script.len() % 40 != 0 {
        return Made {
            kept: 0,
            n: 0,
            wrong: Some(Wrong::WrongLength),
        };
    }
    let mut screen = [0u8; 960];
    let reached = reach(script, &mut screen, out);
    let last = show_last(reached, &mut screen, out);
    Made {
        kept: last.kept,
        n: last.hand.frames * 5,
        wrong: last.wrong,
    }
}
