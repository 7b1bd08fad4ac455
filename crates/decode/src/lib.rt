// The decoder: the pair rules over a state by value and lent cells, and the two acts of a desk.
// A pair of two characters goes straight to `typing::write_two`; only control pairs go through the dispatcher of codes.
#![tactic(auto)]

ghost use Rattle.std.specs.Prelude.{◌≡◌, ◌≤◌, ◌<◌, length};
ghost use Rattle.codes.specs.Codes.{code_of};
ghost use Rattle.state.specs.State.{captions, desk};
ghost use Rattle.state.specs.Ranges.{Sound};
ghost use Rattle.decode.specs.Pair.{told, is_open, type_any_of, text_code_of, is_damaged_repeat, control_of, rule_three_of, pair_of};
ghost use Rattle.decode.specs.Step.{taken_of, select_of};

use codes::Code;
use state::State;

// No pair is expected any more.
fn cleared(state: State) -> State
    ensures { result ≡ told state state.stream 0 0 }
{
    State {
        first: 0,
        second: 0,
        ..state
    }
}

// The code that a byte writes as text, if it writes any.
#[tactic(auto, unfolding(crate::specs::Pair::text_code_of))]
pub fn text_code(y: u8) -> Option<u8>
    ensures { result ≡ text_code_of y }
{
    if !wire::is_good(y) {
        return Some(0x7f);
    }
    let b = wire::low_seven(y);
    if b < 0x20 { None } else { Some(b) }
}

// The one gate for writing: the stream's channel is the selected one, a style is set, and Text is off.
pub fn is_open(state: State) -> bool
    ensures { result ≡ is_open state }
{
    (state.stream == state.selected) & state.mode.is_ready()
}

// Two codes one after the other, as far as there are any. The gate is asked once for both.
fn type_both(state: State, cells: &mut [u8], first: Option<u8>, second: Option<u8>) -> State
    requires { Sound (captions state.mode cells.old) }
    ensures { desk result cells.new ≡ type_any_of (type_any_of (desk state cells.old) first) second }
{
    if is_open(state) {
        let mode = typing::write_two(state.mode, cells, first, second);
        return State { mode, ..state };
    }
    state
}

// Whether the second byte is that of the expected pair: the first byte, which is bad, was its repeat's.
fn is_damaged_repeat(state: State, y: u8) -> bool
    ensures { result ≡ is_damaged_repeat state y }
{
    (1 <= state.first) & wire::is_good(y) & (wire::low_seven(y) == state.second)
}

// An assigned pair: the stream's channel, the expected pair, and the act if the channel is the selected one.
fn control(state: State, cells: &mut [u8], a: u8, b: u8, code: Code) -> State
    requires { Sound (captions state.mode cells.old) × (0x10 ≤ a) × (a ≤ 0x1f) × (0x20 ≤ b) × (b ≤ 0x7f) × (code ≡ code_of a b) }
    ensures { desk result cells.new ≡ control_of (desk state cells.old) a b }
{
    let channel = codes::channel(a);
    let told = State {
        stream: channel,
        first: a,
        second: b,
        ..state
    };
    if channel == state.selected {
        let mode = acts::act(state.mode, cells, code);
        return State { mode, ..told };
    }
    told
}

// Rule 3: a control pair.
fn rule_three(state: State, cells: &mut [u8], a: u8, y: u8) -> State
    requires { Sound (captions state.mode cells.old) × (0x10 ≤ a) × (a ≤ 0x1f) }
    ensures { desk result cells.new ≡ rule_three_of (desk state cells.old) a y }
{
    let open = cleared(state);
    let b = wire::low_seven(y);
    let repeat = (a == state.first) & (b == state.second);
    if !wire::is_good(y) | (b < 0x20) | repeat {
        return open;
    }
    let code = codes::classify(a, b);
    if codes::is_unassigned(code) {
        return open;
    }
    control(open, cells, a, b, code)
}

// What two raw bytes do: rules 2, 3 and 4 for a good first byte, rule 1 for a bad one.
pub fn pair(state: State, cells: &mut [u8], x: u8, y: u8) -> State
    requires { Sound (captions state.mode cells.old) }
    ensures { desk result cells.new ≡ pair_of (desk state cells.old) x y }
{
    let a = wire::low_seven(x);
    let open = cleared(state);
    if wire::is_good(x) {
        if a < 0x10 {
            return type_both(open, cells, None, text_code(y));
        }
        if a < 0x20 {
            return rule_three(state, cells, a, y);
        }
        return type_both(open, cells, Some(a), text_code(y));
    }
    if is_damaged_repeat(state, y) {
        return open;
    }
    type_both(open, cells, Some(0x7f), text_code(y))
}

// A pair as an act: it counts.
pub fn take(state: State, cells: &mut [u8], x: u8, y: u8) -> State
    requires { Sound (captions state.mode cells.old) × (state.acts < 65535) }
    ensures { desk result cells.new ≡ taken_of (desk state cells.old) x y }
{
    State {
        acts: state.acts + 1,
        ..pair(state, cells, x, y)
    }
}

// The selection of a channel as an act.
pub fn select(state: State, cells: &mut [u8], channel: u8) -> State
    requires { (length cells.old ≡ 1920) × (state.acts < 65535) }
    ensures { desk result cells.new ≡ select_of (desk state cells.old) channel }
{
    facts::blank(cells);
    state.select(channel)
}
