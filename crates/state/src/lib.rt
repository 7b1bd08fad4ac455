// The desk's state: what an act may change besides the cells, the fresh state, and which memory and cursor a style works on.
#![tactic(auto)]

ghost use Rattle.std.specs.Prelude.{◌≡◌, ◌+◌, ◌≤◌, ◌<◌};
ghost use Rattle.facts.specs.Choice.{pick};
ghost use Rattle.cell.specs.Cursor.{Placed};
ghost use Rattle.state.specs.State.{fresh_cursor, fresh_mode, fresh_of, selected_of};
ghost use Rattle.state.specs.Style.{cursor_of, with_cursor, memory_of, is_ready};
ghost use Rattle.state.specs.Ranges.{Ranged};

use cell::{Column, Cursor, Row};

// The styles as the record numbers them; 0 is none.
// A style stays as it is: a number. `record::read_state` cannot fail and gives what any 1,984 bytes say (`state_of`), a style 4 too, and it is
// `valid::is_valid_state` that refuses such a record; an enum has no value for what is to be refused.
pub const ROLL_UP: u8 = 1;

pub const POP_ON: u8 = 2;

pub const PAINT_ON: u8 = 3;

// What the codes change: style, Text, the roll-up mark and depth, and for each style a cursor with its pen.
// What Text and mark hold, 0 or 1, and the depth, 0 for none, stays as it is: a number, as a style. A record may say 2 of Text, which is no bool, and 1 or 9 of the
// depth (`state_of`).
#[derive(Clone, Copy, Debug, PartialEq, Eq)]
pub struct Mode {
    pub style: u8,
    pub text: u8,
    pub mark: u8,
    pub depth: u8,
    pub roll: Cursor,
    pub pop: Cursor,
    pub paint: Cursor,
}

// The whole state: the mode, and what the pair rules keep of the stream.
// What is selected, the stream's channel, 0 for none, and the expected pair, 0 and 0 for none, stays as it is: the record's own bytes. `told`, `state_of` and
// `fields_of` and the laws that a desk comes back (`state_of_record_of`, `desk_comes_back`) take each as the number that stands in the record, and any number can stand there.
#[derive(Clone, Copy, Debug, PartialEq, Eq)]
pub struct State {
    pub acts: u16,
    pub selected: u8,
    pub stream: u8,
    pub first: u8,
    pub second: u8,
    pub mode: Mode,
}

impl State {
    // A fresh desk has channel 1 selected; its rows are 15, its columns 1, its pens white and plain.
    pub const CHANNEL: u8 = 1;

    pub const ROW: u8 = 15;

    pub const COLUMN: u8 = 1;

    pub const PEN: u8 = 0;

    pub fn fresh(channel: u8) -> State
        ensures { result ≡ fresh_of channel }
    {
        State {
            acts: 0,
            selected: channel,
            stream: 0,
            first: 0,
            second: 0,
            mode: Mode::fresh(),
        }
    }

    // The fresh state with that channel; only the act count goes on.
    pub fn select(self, channel: u8) -> State
        requires { self.acts < 65535 }
        ensures { result ≡ selected_of self channel }
    {
        State {
            acts: self.acts + 1,
            ..State::fresh(channel)
        }
    }
}

// Where a fresh cursor stands.
pub fn fresh_cursor() -> Cursor
    ensures { result ≡ fresh_cursor }
{
    Cursor {
        row: Row(State::ROW),
        column: Column(State::COLUMN),
        pen: State::PEN,
    }
}

impl Mode {
    pub fn fresh() -> Mode
        ensures { result ≡ fresh_mode }
    {
        let cursor = fresh_cursor();
        Mode {
            style: 0,
            text: 0,
            mark: 0,
            depth: 0,
            roll: cursor,
            pop: cursor,
            paint: cursor,
        }
    }

    // A style is set and Text is off.
    #[tactic(auto, unfolding(crate::specs::Style::is_ready))]
    pub fn is_ready(self) -> bool
        ensures { result ≡ is_ready self }
    {
        (1 <= self.style) & (self.text == 0)
    }

    // The cursor of the style.
    #[tactic(auto, using(crate::proofs::Laws::cursor_of_placed), unfolding(crate::specs::Style::cursor_of))]
    pub fn cursor(self) -> Cursor
        requires { Ranged self }
        ensures { (result ≡ cursor_of self) × Placed result }
    {
        match self.style {
            ROLL_UP => self.roll,
            POP_ON => self.pop,
            _ => self.paint,
        }
    }

    // The mode with another cursor for its style.
    #[tactic(auto, unfolding(crate::specs::Style::with_cursor))]
    pub fn with_cursor(mut self, cursor: Cursor) -> Mode
        ensures { result ≡ with_cursor self cursor }
    {
        match self.style {
            ROLL_UP => self.roll = cursor,
            POP_ON => self.pop = cursor,
            PAINT_ON => self.paint = cursor,
            _ => {}
        }
        self
    }

    // Where the memory starts that the style works on.
    #[tactic(auto, unfolding(crate::specs::Style::memory_of))]
    pub fn memory(self) -> usize
        ensures { (result ≡ memory_of self) × (result ≤ 960) }
    {
        if self.style == POP_ON {
            page::NON_DISPLAYED
        } else {
            page::DISPLAYED
        }
    }
}
