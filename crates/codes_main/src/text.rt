// A pair as a line of text, a write for each word: one that fails is passed over, and the next one is tried.
ghost use Rattle.std.specs.Prelude.{◌≤◌};
ghost use Rattle.codes.specs.Proper.{Proper};

use cell::pens::mid_row_pen;
use cell::{Column, Pen, Row};
use codes::Code;
use input::print;

fn colour(colour: u8) -> &'static [u8] {
    match colour {
        0 => b" white",
        1 => b" green",
        2 => b" blue",
        3 => b" cyan",
        4 => b" red",
        5 => b" yellow",
        6 => b" magenta",
        _ => b" unnamed",
    }
}

// A code that carries no number.
fn name(code: Code) -> &'static [u8] {
    match code {
        Code::Rcl => b" RCL",
        Code::Bs => b" BS",
        Code::Der => b" DER",
        Code::Fon => b" FON",
        Code::Rdc => b" RDC",
        Code::Tr => b" TR",
        Code::Rtd => b" RTD",
        Code::Edm => b" EDM",
        Code::Cr => b" CR",
        Code::Enm => b" ENM",
        Code::Eoc => b" EOC",
        _ => b" ---",
    }
}

fn print_counted(out: &impl Print, word: &[u8], n: u8) {
    print(out, word);
    let _ = print!(out; "{n}");
}

// `plain` is a pen with neither italics nor underline.
fn print_looks(out: &impl Print, pen: Pen) {
    if pen.italics {
        print(out, b" italics");
    }
    if pen.underline {
        print(out, b" underline");
    }
    if !pen.italics && !pen.underline {
        print(out, b" plain");
    }
}

// Italics keep the colour, so a mid-row code names the one or the other.
fn print_mid_row(out: &impl Print, b: u8)
    requires { (0x20 ≤ b) × (b ≤ 0x2f) }
{
    let pen = Pen::unpack(mid_row_pen(0, b));
    print(out, b" mid-row");
    if !pen.italics {
        print(out, colour(pen.colour));
    }
    print_looks(out, pen);
}

fn print_preamble(out: &impl Print, row: Row, column: Column, pen: Pen) {
    print_counted(out, b" preamble row ", row.0);
    print_counted(out, b" column ", column.0);
    print(out, colour(pen.colour));
    print_looks(out, pen);
}

fn print_special(out: &impl Print, code: u8) {
    print(out, b" special ");
    let _ = print!(out; "{code:02X}");
}

fn print_code(out: &impl Print, code: Code)
    requires { Proper code }
{
    match code {
        Code::MidRow(b) => print_mid_row(out, b),
        Code::Special(code) => print_special(out, code),
        Code::Tab(n) => print_counted(out, b" tab ", n),
        Code::Preamble(row, column, pen) => print_preamble(out, row, column, Pen::unpack(pen)),
        Code::Ru(n) => print_counted(out, b" roll-up ", n),
        _ => print(out, name(code)),
    }
}

#[tactic(auto, using(codes::proofs::Laws::code_of_proper))]
pub fn print_line(out: &impl Print, a: u8, b: u8)
    requires { (0x10 ≤ a) × (a ≤ 0x1f) × (0x20 ≤ b) × (b ≤ 0x7f) }
{
    let _ = print!(out; "{a:02X}");
    let _ = print!(out; "{b:02X}");
    print_counted(out, b" channel ", codes::channel(a));
    print_code(out, codes::classify(a, b));
    print(out, b"\n");
}
