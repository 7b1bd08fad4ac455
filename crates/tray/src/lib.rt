// Acts on desk, log and tray: written to the log, done on a record in place, and a record made anew from the acts that stand.
#![tactic(auto)]

ghost use Rattle.std.specs.Prelude.{◌≡◌, true, [], ◌∷◌, ◌+◌, ◌*◌, ◌≤◌, length};
ghost use Rattle.facts.specs.Over.{over};
ghost use Rattle.record.specs.Layout.{state_of, read_of, record_of};
ghost use Rattle.valid.specs.Valid.{is_valid};
ghost use Rattle.standing.specs.Acts.{is_formed, are_formed};
ghost use Rattle.standing.specs.Calls.{is_replayable, restored_of, replay_of};
ghost use Rattle.replay.specs.Captions.{caption_decoder};
ghost use Rattle.tray.specs.Given.{Ready, Given};

use replay::Entry;
use state::State;

// The three bytes of an act, behind those that stand.
pub fn write_act(log: &mut [u8], acts: u16, act: Entry)
    requires { acts * 3 + 3 ≤ length log.old }
    ensures { log.new ≡ over log.old (acts * 3) (act.kind ∷ act.first ∷ act.second ∷ []) }
{
    let at = (acts as usize) * 3;
    log[at] = act.kind;
    log[at + 1] = act.first;
    log[at + 2] = act.second;
}

// Whether the desk with m acts to stand can be made: the start, and the acts from there on.
pub fn is_replayable(log: &[u8], tray: &[u8], m: usize) -> bool
    requires { (m ≤ 16000) × (length log.now ≡ 48000) × (length tray.now ≡ 31744) }
    ensures { result ≡ is_replayable caption_decoder log.now tray.now m }
{
    let s = m / 1000;
    let from = s * 1000;
    slots::is_start(tray, s) & replay::are_formed(log, from, m - from)
}

// Acts of the log on a desk's record in place. Every act is done here, one just given too: the decoder stands in one loop,
// where the compiler sees the state whole.
fn replay_in_place(desk: &mut [u8], start: State, log: &[u8], from: usize, count: usize) -> State
    requires { (is_valid desk.old ≡ true) × (start ≡ state_of desk.old) × (start.acts + count ≤ 16000) × ((from + count) * 3 ≤ length log.now) × (from + count ≤ 16000) × (are_formed log.now from count ≡ true) }
    ensures { (desk.new ≡ record_of (replay_of caption_decoder (read_of desk.old) log.now from count))
        × (result ≡ (replay_of caption_decoder (read_of desk.old) log.now from count).state) }
{
    let end = replay::replay(start, &mut desk[64..1984], log, from, count);
    record::write_head(desk, end);
    end
}

// The desk's record with m acts to stand, made anew from the start.
pub fn restore(desk: &mut [u8], log: &[u8], tray: &[u8], m: usize)
    requires { (length desk.old ≡ 1984) × (m ≤ 16000) × (length log.now ≡ 48000) × (length tray.now ≡ 31744) × (is_replayable caption_decoder log.now tray.now m ≡ true) }
    ensures { desk.new ≡ record_of (restored_of caption_decoder log.now tray.now m) }
{
    let s = m / 1000;
    let from = s * 1000;
    slots::write_start(desk, tray, s);
    let start = record::read_state(desk);
    replay_in_place(desk, start, log, from, m - from);
}

// An act on a desk: its three bytes in the log, its record in place, its slot where one is due.
pub fn give(desk: &mut [u8], log: &mut [u8], tray: &mut [u8], state: State, act: Entry) -> u16
    requires { Ready desk.old log.old tray.old × (state ≡ state_of desk.old) × (is_formed act.kind act.first act.second ≡ true) }
    ensures { Given desk.old log.old tray.old act.kind act.first act.second result desk.new log.new tray.new }
{
    let acts = state.acts;
    write_act(log, acts, act);
    let next = replay_in_place(desk, state, log, acts as usize, 1);
    slots::keep(tray, next, &desk[64..1984]);
    next.acts
}
