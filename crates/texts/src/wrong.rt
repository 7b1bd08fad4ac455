// What is wrong with a line that is no step, and the words for it.
use std::fmt;

// In the order in which they are looked for.
#[derive(Clone, Copy, Debug, PartialEq, Eq)]
pub enum Wrong {
    TooManySteps,
    NoStep,
    NoRow,
    NoColumn,
    NoPen,
    NoText,
    NoLetter,
    TooLong,
    NoFrame,
    NoWait,
    NoChannel,
}

impl fmt::Display for Wrong {
    fn fmt<W: fmt::Write>(&self, f: &mut fmt::Formatter<W>) -> fmt::Result {
        f.write_str(match self {
            Wrong::TooManySteps => "a text has at most 8192 steps",
            Wrong::NoStep => "a line begins with a row, or is show, clear, wait or channel",
            Wrong::NoRow => "a row is 1 to 15",
            Wrong::NoColumn => "a column is 1 to 32",
            Wrong::NoPen =>
                "a pen is white, green, blue, cyan, red, yellow, magenta or italics, each also with -u",
            Wrong::NoText => "a text is missing",
            Wrong::NoLetter => "line 21 has no such letter: docs/TAPES.md has those that it has",
            Wrong::TooLong => "the text goes past column 32",
            Wrong::NoFrame => "a frame is 1 to 16000",
            Wrong::NoWait => "a wait is 1 to 16000 frames",
            Wrong::NoChannel => "a channel is 1 or 2",
        })
    }
}
