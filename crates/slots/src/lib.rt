// The lengths of desk, log and tray, and the records that acts start from: the fresh one, and the tray's slots, kept and read.
#![tactic(auto)]

ghost use Rattle.std.specs.Prelude.{◌≡◌, ◌≤◌, length};
ghost use Rattle.state.specs.State.{desk};
ghost use Rattle.decode.specs.Step.{fresh_desk};
ghost use Rattle.record.specs.Layout.{record_of};
ghost use Rattle.standing.specs.Calls.{is_sized, keep_of, start_of, is_start};
ghost use Rattle.replay.specs.Captions.{caption_decoder};

use state::State;

// A lent buffer stays as it is: a slice with its length in a clause. A call takes any, and `is_sized` tells which have their lengths; as an array of its length each
// would be had by a call that can fail, once more.

// Whether the three buffers have their lengths.
pub fn is_sized(desk: usize, log: usize, tray: usize) -> bool
    ensures { result ≡ is_sized caption_decoder desk log tray }
{
    (desk == 1984) & ((log == 48000) & (tray == 31744))
}

// When the act count reaches a thousand, the slot's part of the tray is lent on to the record writer.
pub fn keep(tray: &mut [u8], state: State, cells: &[u8])
    requires { (1 ≤ state.acts) × (state.acts ≤ 16000) × (length tray.old ≡ 31744) × (length cells.now ≡ 1920) }
    ensures { tray.new ≡ keep_of caption_decoder tray.old state.acts (record_of (desk state cells.now)) }
{
    let acts = state.acts as usize;
    if acts % 1000 == 0 {
        let at = (acts / 1000 - 1) * 1984;
        record::write(&mut tray[at..at + 1984], state, cells);
    }
}

// What slot s of the tray holds.
fn slot(tray: &[u8], s: usize) -> &[u8]
    requires { (1 ≤ s) × (s ≤ 16) × (length tray.now ≡ 31744) }
    ensures { (result.now ≡ start_of caption_decoder tray.now s) × (length result.now ≡ 1984) }
{
    let at = (s - 1) * 1984;
    &tray[at..at + 1984]
}

// Whether slot s is valid with its count; the fresh record always is.
pub fn is_start(tray: &[u8], s: usize) -> bool
    requires { (s ≤ 16) × (length tray.now ≡ 31744) }
    ensures { result ≡ is_start caption_decoder (start_of caption_decoder tray.now s) s }
{
    if s == 0 {
        return true;
    }
    let kept = slot(tray, s);
    let start = record::read_state(kept);
    valid::is_valid(kept) & ((start.acts as usize) == s * 1000)
}

// The fresh record.
pub fn write_fresh(desk: &mut [u8])
    requires { length desk.old ≡ 1984 }
    ensures { desk.new ≡ record_of fresh_desk }
{
    facts::blank(desk);
    record::write_head(desk, State::fresh(State::CHANNEL));
}

// The start's record: slot s, or the fresh one.
pub fn write_start(desk: &mut [u8], tray: &[u8], s: usize)
    requires { (length desk.old ≡ 1984) × (s ≤ 16) × (length tray.now ≡ 31744) }
    ensures { desk.new ≡ start_of caption_decoder tray.now s }
{
    if s == 0 {
        write_fresh(desk);
        return;
    }
    desk.copy_from_slice(slot(tray, s));
}
