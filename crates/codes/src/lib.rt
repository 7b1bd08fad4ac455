// What a pair says: the code of a first and a second byte, and the channel that it is for.
#![tactic(auto)]

pub mod rows;

ghost use Rattle.std.specs.Prelude.{◌≡◌, ◌≤◌};
ghost use Rattle.codes.specs.Codes.{without_channel_of, mid_row_or_special_of, tab_offset_of, preamble_code_of, control_of, channel_one_code_of, code_of, channel_of};
ghost use Rattle.codes.specs.Assigned.{is_unassigned, is_assigned, is_expected};

use cell::moves::preamble_column;
use cell::pens::preamble_pen;
use cell::{Column, Row};
use rows::preamble_row;

// A code stays as it is: `Unassigned` is one among the others, and no `None`, since `code_of`, `Proper` and `is_unassigned` take it as a code.
// That what it carries lies in its ranges stays as it is: a clause, `Proper`, since a variant takes no ghost field.
#[derive(Clone, Copy, Debug, PartialEq, Eq)]
pub enum Code {
    Unassigned,
    // The second byte itself, 20h to 2Fh.
    MidRow(u8),
    // The cell code, 90h to 9Fh.
    Special(u8),
    // Columns to the right, 1 to 3.
    Tab(u8),
    // Row, column and pen byte.
    Preamble(Row, Column, u8),
    Rcl,
    Bs,
    Der,
    // The depth, 2 to 4.
    Ru(u8),
    Fon,
    Rdc,
    Tr,
    Rtd,
    Edm,
    Cr,
    Enm,
    Eoc,
}

// The channel that a first byte is for. It stays as it is: the number 1 or 2, since it goes into the state beside the selected one, and both are bytes of the record
// there (`control_of`, `fields_of`); `tape::Channel` stands above.
#[tactic(auto, unfolding(crate::specs::Codes::channel_of))]
pub fn channel(a: u8) -> u8
    ensures { (result ≡ channel_of a) × (1 ≤ result) × (result ≤ 2) }
{
    if a <= 0x17 { 1 } else { 2 }
}

// What the pair says. A pair stays as it is: two bytes with their ranges in a clause. Of the four bounds only `classify` and its callers ask all; below it each
// function asks for some (a up to 17h, b from 40h, b up to 3Fh), so that a struct with a ghost field would go in here and be taken apart in the next line.
#[tactic(auto, unfolding(crate::specs::Codes::code_of))]
pub fn classify(a: u8, b: u8) -> Code
    requires { (0x10 ≤ a) × (a ≤ 0x1f) × (0x20 ≤ b) × (b ≤ 0x7f) }
    ensures { result ≡ code_of a b }
{
    channel_one_code(without_channel(a), b)
}

// The first byte as channel 1 has it.
#[tactic(auto, unfolding(crate::specs::Codes::without_channel_of))]
fn without_channel(a: u8) -> u8
    requires { (0x10 ≤ a) × (a ≤ 0x1f) }
    ensures { (result ≡ without_channel_of a) × (0x10 ≤ result) × (result ≤ 0x17) }
{
    if a <= 0x17 { a } else { a - 8 }
}

// What the pair says, its first byte as channel 1 has it.
#[tactic(auto, unfolding(crate::specs::Codes::channel_one_code_of))]
fn channel_one_code(a: u8, b: u8) -> Code
    requires { (0x10 ≤ a) × (a ≤ 0x17) × (0x20 ≤ b) × (b ≤ 0x7f) }
    ensures { result ≡ channel_one_code_of a b }
{
    if 0x40 <= b {
        return preamble_code(a, b);
    }
    match a {
        0x11 => mid_row_or_special(b),
        0x14 => control(b),
        0x17 => tab_offset(b),
        _ => Code::Unassigned,
    }
}

// 11h and b below 40h.
#[tactic(auto, unfolding(crate::specs::Codes::mid_row_or_special_of))]
fn mid_row_or_special(b: u8) -> Code
    requires { b ≤ 0x3f }
    ensures { result ≡ mid_row_or_special_of b }
{
    if b <= 0x2f {
        Code::MidRow(b)
    } else {
        Code::Special(b + 0x60)
    }
}

// 17h and b below 40h.
#[tactic(auto, unfolding(crate::specs::Codes::tab_offset_of))]
fn tab_offset(b: u8) -> Code
    ensures { result ≡ tab_offset_of b }
{
    match b {
        0x21..=0x23 => Code::Tab(b - 0x20),
        _ => Code::Unassigned,
    }
}

// Any first byte and b from 40h.
#[tactic(auto, unfolding(crate::specs::Codes::preamble_code_of))]
fn preamble_code(a: u8, b: u8) -> Code
    requires { (0x10 ≤ a) × (a ≤ 0x17) × (0x40 ≤ b) × (b ≤ 0x7f) }
    ensures { result ≡ preamble_code_of a b }
{
    match preamble_row(a, b) {
        Some(row) => Code::Preamble(row, preamble_column(b), preamble_pen(b)),
        None => Code::Unassigned,
    }
}

// 14h and b below 40h. By numbers and not by a table of codes, which would be built anew at each call.
fn control(b: u8) -> Code
    requires { 0x20 ≤ b }
    ensures { result ≡ control_of b }
{
    match b {
        0x20 => Code::Rcl,
        0x21 => Code::Bs,
        0x24 => Code::Der,
        0x25 => Code::Ru(2),
        0x26 => Code::Ru(3),
        0x27 => Code::Ru(4),
        0x28 => Code::Fon,
        0x29 => Code::Rdc,
        0x2a => Code::Tr,
        0x2b => Code::Rtd,
        0x2c => Code::Edm,
        0x2d => Code::Cr,
        0x2e => Code::Enm,
        0x2f => Code::Eoc,
        _ => Code::Unassigned,
    }
}

pub fn is_unassigned(code: Code) -> bool
    ensures { result ≡ is_unassigned code }
{
    matches!(code, Code::Unassigned)
}

// Whether the pair is assigned, whatever the two bytes are.
#[tactic(auto, unfolding(crate::specs::Assigned::is_assigned))]
pub fn is_assigned(a: u8, b: u8) -> bool
    ensures { result ≡ is_assigned a b }
{
    (0x10..=0x1f).contains(&a) && (0x20..=0x7f).contains(&b) && !is_unassigned(classify(a, b))
}

// Whether the two bytes may stand for the expected pair: none, or one that is assigned.
#[tactic(auto, unfolding(crate::specs::Assigned::is_expected))]
pub fn is_expected(a: u8, b: u8) -> bool
    ensures { result ≡ is_expected a b }
{
    (a == 0 && b == 0) || is_assigned(a, b)
}
