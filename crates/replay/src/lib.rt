// Acts of the log replayed on a desk: each well formed act one after the other, and text in runs.
#![tactic(auto)]

ghost use Rattle.std.specs.Prelude.{◌≡◌, true, ◌+◌, ◌-◌, ◌*◌, ◌≤◌, ◌<◌, length};
ghost use Rattle.state.specs.State.{desk};
ghost use Rattle.decode.specs.Sound.{SoundDesk};
ghost use Rattle.text.specs.Typed.{is_none_expected};
ghost use Rattle.standing.specs.Acts.{is_channel, is_formed, act_of, at_act, are_formed};
ghost use Rattle.standing.specs.Calls.{replay_of};
ghost use Rattle.replay.specs.Captions.{step_of, caption_decoder};
ghost use Rattle.replay.specs.Entries.{entry};
ghost use Rattle.replay.specs.Text.{is_text_act};

use state::State;

// Three bytes of the log. It is lent, so any three can stand there: 1 and the two raw bytes of a pair, 2, channel, 0, or what is no act.
// The kind stays as it is: a number, of which `act_of` and `is_formed` of `standing` say for each byte what is done, and whether it is refused.
#[derive(Clone, Copy, Debug, PartialEq, Eq)]
pub struct Entry {
    pub kind: u8,
    pub first: u8,
    pub second: u8,
}

impl Entry {
    // Those behind the first n acts.
    pub fn at(log: &[u8], n: usize) -> Entry
        requires { n * 3 + 3 ≤ length log.now }
        ensures { result ≡ at_act entry log.now n }
    {
        let at = n * 3;
        Entry {
            kind: log[at],
            first: log[at + 1],
            second: log[at + 2],
        }
    }

    // Most acts are pairs, and a pair is told by its first byte.
    pub fn is_formed(self) -> bool
        ensures { result ≡ is_formed self.kind self.first self.second }
    {
        match self.kind {
            1 => true,
            2 => is_channel(self.first) & (self.second == 0),
            _ => false,
        }
    }

    // Whether they are a pair of text.
    fn is_text(self) -> bool
        ensures { result ≡ is_text_act self.kind self.first self.second }
    {
        (self.kind == 1) & text::is_text(self.first)
    }
}

pub fn is_channel(channel: u8) -> bool
    ensures { result ≡ is_channel channel }
{
    (1..=2).contains(&channel)
}

// One act: a pair taken, or a channel selected. With a way out in place of the second arm the compiler keeps more of the state in memory.
fn step(state: State, cells: &mut [u8], act: Entry) -> State
    requires { SoundDesk (desk state cells.old) × (state.acts < 16000) }
    ensures { desk result cells.new
        ≡ step_of (desk state cells.old) (act_of act.kind act.first act.second) }
{
    if act.kind == 1 {
        decode::take(state, cells, act.first, act.second)
    } else {
        decode::select(state, cells, act.first)
    }
}

// Whether `count` acts of the log behind the first `from` are well formed. The way out keeps the compiler from gathering every third byte.
// The log with a place in it stays as it is: the definitions (`are_formed`, `replay_of`) count an act from the log's first one, and not in a part.
pub fn are_formed(log: &[u8], from: usize, count: usize) -> bool
    requires { ((from + count) * 3 ≤ length log.now) × (from + count ≤ 16000) }
    ensures { result ≡ are_formed log.now from count }
{
    for n in 0..count {
        let act = Entry::at(log, from + n);
        if !act.is_formed() {
            return false;
        }
    }
    true
}

// Of `count` acts of the log behind the first `from`, those before the first that is no pair of text: the state behind them. Only the
// style's cursor is in hand meanwhile, since x86-64 has no registers for the whole state.
fn type_run(start: State, cells: &mut [u8], log: &[u8], from: usize, count: usize) -> State
    requires { SoundDesk (desk start cells.old) × (is_none_expected start ≡ true) × (start.acts + count ≤ 16000) × ((from + count) * 3 ≤ length log.now) × (from + count ≤ 16000) }
    ensures { (start.acts ≤ result.acts) × (result.acts ≤ start.acts + count)
        × (desk result cells.new ≡ replay_of caption_decoder (desk start cells.old) log.now from (result.acts - start.acts)) }
{
    let mode = start.mode;
    let mut cursor = mode.cursor();
    for n in 0..count {
        let act = Entry::at(log, from + n);
        if !act.is_text() {
            return text::typed(start, cursor, n as u16);
        }
        cursor = text::type_text(start, cells, cursor, act.first, act.second);
    }
    text::typed(start, cursor, count as u16)
}

// `count` acts of the log behind the first `from`, one after the other. Where no pair is expected, text goes on in a run.
// The `while` stays as it is: a run takes `n` on past all of its acts, where a `for` over a range goes on by one.
pub fn replay(start: State, cells: &mut [u8], log: &[u8], from: usize, count: usize) -> State
    requires { SoundDesk (desk start cells.old) × (start.acts + count ≤ 16000) × ((from + count) * 3 ≤ length log.now) × (from + count ≤ 16000) × (are_formed log.now from count ≡ true) }
    ensures { desk result cells.new ≡ replay_of caption_decoder (desk start cells.old) log.now from count }
{
    let mut state = start;
    let mut n: usize = 0;
    while n < count {
        state = step(state, cells, Entry::at(log, from + n));
        n += 1;
        if text::is_none_expected(state) {
            let acts = state.acts;
            state = type_run(state, cells, log, from + n, count - n);
            n += (state.acts - acts) as usize;
        }
    }
    state
}
