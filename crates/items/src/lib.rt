// One item of a tape: what comes next by the cells of a row, a row's preamble, and the raw bytes of an item at the front of a lent buffer.
#![tactic(auto)]

mod rows;

ghost use Rattle.std.specs.Prelude.{◌≡◌, ◌+◌, ◌<◌, ◌≤◌, length};
ghost use Rattle.tape.specs.Channel.{number_of_channel};
ghost use Rattle.tape.specs.Item.{gap_of, next_item_of, bytes_of};
ghost use Rattle.tape.specs.Preamble.{style_of, indent_of, preamble_item_of};
ghost use Rattle.items.specs.Laid.{Laid};

use rows::place;
use tape::{Channel, Item};

// Resume caption loading, erase the non-displayed memory, end of caption: what a tape has beside its rows. Erase displayed memory ends what it shows.
pub const RCL: Item = Item {
    first: 0x14,
    second: 0x20,
    columns: 0,
};

pub const ENM: Item = Item {
    first: 0x14,
    second: 0x2e,
    columns: 0,
};

pub const EOC: Item = Item {
    first: 0x14,
    second: 0x2f,
    columns: 0,
};

pub const EDM: Item = Item {
    first: 0x14,
    second: 0x2c,
    columns: 0,
};

// The bytes of an item at the front of a buffer: a control pair twice, characters once. Gives how many they are.
#[tactic(auto, unfolding(tape::specs::Item::bytes_of))]
pub fn put_item(out: &mut [u8], channel: Channel, item: Item) -> usize
    requires { length (bytes_of (number_of_channel channel) item) ≤ length out.old }
    ensures { Laid out.old (bytes_of (number_of_channel channel) item) out.new result }
{
    let b = wire::sent(item.second);
    if item.first < 0x20 {
        let a = wire::sent(item.first + channel.offset());
        facts::copy(out, &[a, b, a, b]);
        return 4;
    }
    facts::copy(out, &[wire::sent(item.first), b]);
    2
}

// How far a tab leads over an empty cell and the empty ones behind it.
fn gap(next: u8, after: u8) -> u8
    ensures { (result ≡ gap_of next after) × (result ≤ 3) }
{
    match (next, after) {
        (0, 0) => 3,
        (0, _) => 2,
        _ => 1,
    }
}

// What comes next, by the codes of three cells side by side.
#[tactic(auto, unfolding(tape::specs::Item::next_item_of))]
pub fn next_item(code: u8, next: u8, after: u8) -> Item
    ensures { result ≡ next_item_of code next after }
{
    if code == 0 {
        let n = gap(next, after);
        return Item {
            first: 0x17,
            second: 0x20 + n,
            columns: n as usize,
        };
    }
    if 0x90 <= code {
        return Item {
            first: 0x11,
            second: code - 0x60,
            columns: 1,
        };
    }
    if (0x20 <= next) & (next <= 0x7f) {
        return Item {
            first: code,
            second: next,
            columns: 2,
        };
    }
    Item {
        first: code,
        second: 0,
        columns: 1,
    }
}

// The low five bits of a preamble but for underline: an indent in white, or the row's other style.
#[tactic(auto, unfolding(tape::specs::Preamble::style_of))]
fn style(pen: u8, lead: usize) -> u8
    requires { lead < 32 }
    ensures { (result ≡ style_of pen lead) × (result < 32) }
{
    match pen % 16 {
        0 => 0x10 + (lead / 4 * 2) as u8,
        8 => 0x0e,
        own => own * 2,
    }
}

// The columns that a preamble leads on: by fours in a white row, none in any other.
#[tactic(auto, unfolding(tape::specs::Preamble::indent_of))]
fn indent(pen: u8, lead: usize) -> usize
    ensures { result ≡ indent_of pen lead }
{
    if pen % 16 == 0 { lead / 4 * 4 } else { 0 }
}

// The preamble of a row, counted from 0, whose first non-empty cell stands behind `lead` empty ones.
#[tactic(auto, unfolding(tape::specs::Preamble::preamble_item_of))]
pub fn preamble_item(row: usize, pen: u8, lead: usize) -> Item
    requires { (row < 15) × (lead < 32) }
    ensures { result ≡ preamble_item_of row pen lead }
{
    let place = place(row);
    let low = style(pen, lead) + pen / 16;
    Item {
        first: 0x10 + place / 2,
        second: 0x40 + place % 2 * 0x20 + low,
        columns: indent(pen, lead),
    }
}
