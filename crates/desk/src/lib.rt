// The viewing desk: open, take, select, back, row and view on lent buffers. No call asks anything of its caller:
// what is wrong gets the paper's number, and a refusal leaves every lent byte alone.
#![tactic(auto)]

ghost use Rattle.std.specs.Prelude.{◌≡◌, [], ◌∷◌, Err};
ghost use Rattle.standing.specs.Acts.{act_of, entry_of};
ghost use Rattle.standing.specs.Calls.{three, outcome, open_of, give_of, take_of, select_of, back_of};
ghost use Rattle.replay.specs.Captions.{caption_decoder};
ghost use Rattle.desk.specs.Numbers.{number_of, given, ready_of};
ghost use Rattle.desk.specs.Looks.{row_of, view_of, view_number_of};

use cell::Row;
use replay::Entry;
use state::State;

// Why a call is refused. That `writer` and `steps` have such an enum each stays as it is: one for all would let `take` say by its type that a screen is not writable.
#[derive(Clone, Copy, Debug, PartialEq, Eq)]
pub enum Refusal {
    WrongLength,
    // A channel or a row that there is not.
    NoSuch,
    Full,
    TooFar,
    Invalid,
}

// The paper's number.
impl From<Refusal> for u16 {
    ghost from_gives = { λ refusal number. number ≡ number_of (Err refusal) };

    fn from(refusal: Refusal) -> u16 {
        match refusal {
            Refusal::WrongLength => 1,
            Refusal::NoSuch => 2,
            Refusal::Full => 3,
            Refusal::TooFar => 4,
            Refusal::Invalid => 6,
        }
    }
}

// What every call asks first: that what is lent is sized, then that the desk is valid. The state that it holds.
fn ready(sized: bool, desk: &[u8]) -> Result<State, Refusal>
    ensures { result ≡ ready_of sized desk.now }
{
    if !sized {
        return Err(Refusal::WrongLength);
    }
    if !valid::is_valid(desk) {
        return Err(Refusal::Invalid);
    }
    Ok(record::read_state(desk))
}

// The fresh record, an empty log and an empty tray. The act count: none stands.
pub fn open(desk: &mut [u8], log: &mut [u8], tray: &mut [u8]) -> Result<u16, Refusal>
    ensures { outcome (given result) desk.new log.new tray.new
        ≡ open_of caption_decoder desk.old log.old tray.old }
{
    if !slots::is_sized(desk.len(), log.len(), tray.len()) {
        return Err(Refusal::WrongLength);
    }
    slots::write_fresh(desk);
    facts::blank(log);
    facts::blank(tray);
    Ok(0)
}

// An act by its three bytes. The act count behind it.
fn give(desk: &mut [u8], log: &mut [u8], tray: &mut [u8], act: Entry) -> Result<u16, Refusal>
    requires { entry_of (act_of act.kind act.first act.second) ≡ act.kind ∷ act.first ∷ act.second ∷ [] }
    ensures { outcome (given result) desk.new log.new tray.new
        ≡ give_of caption_decoder (three desk.old log.old tray.old) (act_of act.kind act.first act.second) }
{
    let state = ready(slots::is_sized(desk.len(), log.len(), tray.len()), desk)?;
    if !act.is_formed() {
        return Err(Refusal::NoSuch);
    }
    if state.acts >= 16000 {
        return Err(Refusal::Full);
    }
    Ok(tray::give(desk, log, tray, state, act))
}

// A pair of raw bytes, as an act.
pub fn take(
    desk: &mut [u8],
    log: &mut [u8],
    tray: &mut [u8],
    first: u8,
    second: u8,
) -> Result<u16, Refusal>
    ensures { outcome (given result) desk.new log.new tray.new
        ≡ take_of caption_decoder desk.old log.old tray.old first second }
{
    let act = Entry {
        kind: 1,
        first,
        second,
    };
    give(desk, log, tray, act)
}

// A channel, as an act.
pub fn select(desk: &mut [u8], log: &mut [u8], tray: &mut [u8], channel: u8) -> Result<u16, Refusal>
    ensures { outcome (given result) desk.new log.new tray.new
        ≡ select_of caption_decoder desk.old log.old tray.old channel }
{
    let act = Entry {
        kind: 2,
        first: channel,
        second: 0,
    };
    give(desk, log, tray, act)
}

// A step back by k of the acts that stand. Start and acts are looked at before any byte is touched. The act count that is left.
pub fn back(desk: &mut [u8], log: &mut [u8], tray: &mut [u8], k: u32) -> Result<u16, Refusal>
    ensures { outcome (given result) desk.new log.new tray.new
        ≡ back_of caption_decoder desk.old log.old tray.old k }
{
    let state = ready(slots::is_sized(desk.len(), log.len(), tray.len()), desk)?;
    let acts = state.acts as u32;
    if k > acts {
        return Err(Refusal::TooFar);
    }
    let left = (acts - k) as u16;
    let m = left as usize;
    if !tray::is_replayable(log, tray, m) {
        return Err(Refusal::Invalid);
    }
    tray::restore(desk, log, tray, m);
    facts::wipe(log, m * 3, 48000 - m * 3);
    let kept = m / 1000 * 1984;
    facts::wipe(tray, kept, 31744 - kept);
    Ok(left)
}

// How many cells of a displayed row are not empty: the record keeps the count.
pub fn row(desk: &[u8], number: u8) -> Result<u16, Refusal>
    ensures { given result ≡ row_of desk.now number }
{
    ready(desk.len() == 1984, desk)?;
    if !(1..=15).contains(&number) {
        return Err(Refusal::NoSuch);
    }
    Ok(record::read_count(desk, Row(number)) as u16)
}

// The displayed half of the record, as a part of it; an empty part on refusal. What it gives stays as it is: a part and no Result, since that is the
// paper's word for this one call (`view_of`), and `view_number` gives the refusal.
pub fn view(desk: &[u8]) -> &[u8]
    ensures { result.now ≡ view_of desk.now }
{
    if !valid::is_valid(desk) {
        return &desk[0..0];
    }
    &desk[64..1024]
}

// Whether the view is refused: the value is 0.
pub fn view_number(desk: &[u8]) -> Result<u16, Refusal>
    ensures { given result ≡ view_number_of desk.now }
{
    ready(desk.len() == 1984, desk)?;
    Ok(0)
}
