// What a step of a script does: characters are typed into a screen, screens are shown, the display is cleared, frames pass, the channel changes.
#![tactic(auto)]

pub mod cells;
pub mod cues;

ghost use Rattle.std.specs.Prelude.{◌≡◌, List, ℕ, ◌+◌, ◌≤◌, IfOk};
ghost use Rattle.steps.specs.Take.{switch_of};
ghost use Rattle.steps.specs.Wrong.{wrong_number_of};
ghost use Rattle.steps.specs.Hand.{hand, Fit, Does};

use tape::Channel;

// Why a step is not kept.
#[derive(Clone, Copy, Debug, PartialEq, Eq)]
pub enum Wrong {
    // A buffer without room for 16,000 lines, or a script that is not whole steps.
    WrongLength,
    // A place or a channel that there is not.
    NoSuch,
    TooManyFrames,
    // A cell that is not valid, or what is no step.
    Invalid,
    NotWritable,
    // With the earliest frame that could be kept.
    TooEarly(usize),
    // Another channel while a screen is still to be shown.
    Unshown,
}

// The paper's number, and behind those 8 and 9 for a script's own.
impl From<Wrong> for u8 {
    ghost from_gives = { λ wrong number. number ≡ wrong_number_of wrong };

    fn from(wrong: Wrong) -> u8 {
        match wrong {
            Wrong::WrongLength => 1,
            Wrong::NoSuch => 2,
            Wrong::TooManyFrames => 3,
            Wrong::Invalid => 6,
            Wrong::NotWritable => 7,
            Wrong::TooEarly(_) => 8,
            Wrong::Unshown => 9,
        }
    }
}

// That a hand has at most 16,000 frames, `Fit`, stays as it is: a clause, since the definitions and laws of a take (`hand`, `Stands`) build hands of any number.
// What is in hand between two steps: the channel that is written for, whether a screen is still to be shown, and how many frames there are.
#[derive(Clone, Copy, Debug, PartialEq, Eq)]
pub struct Hand {
    pub channel: Channel,
    pub drawn: bool,
    pub frames: usize,
}

impl Hand {
    // So many frames more.
    pub fn further(self, frames: usize) -> Hand
        requires { self.frames + frames ≤ 16000 }
        ensures { result ≡ hand self.channel self.drawn (self.frames + frames) }
    {
        Hand {
            frames: self.frames + frames,
            ..self
        }
    }

    // Another channel, where no screen is still to be shown.
    pub fn switch(self, number: usize) -> Result<Hand, Wrong>
        requires { Fit self }
        ensures fit { IfOk result (λ next. Fit next) }
        ensures does { (screen out : List ℕ) → Does (λ t. switch_of t number) self screen out result screen out }
    {
        if self.drawn {
            return Err(Wrong::Unshown);
        }
        // Two bytes say the number, and `Channel::try_from` takes one: this stays as it is, since 257 is no channel.
        let channel = match number {
            1 => Channel::One,
            2 => Channel::Two,
            _ => return Err(Wrong::NoSuch),
        };
        Ok(Hand { channel, ..self })
    }
}
