// What a call gave, as text.
ghost use Rattle.std.specs.Prelude.{◌≡◌};
ghost use Rattle.desk.specs.Numbers.{number_of, value_of};

use crate::buffers::Buffers;
use desk::Refusal;
use input::print;
use input::sums::sum;

fn number_and_value(answer: Result<u16, Refusal>) -> (u16, u16)
    ensures { (result.0 ≡ number_of answer) × (result.1 ≡ value_of answer) }
{
    match answer {
        Ok(value) => (0, value),
        Err(refusal) => (u16::from(refusal), 0),
    }
}

// That each word is a write of its own, and no line one format, stays as it is: one that fails is passed over, and the next one is tried.
fn print_number(out: &impl Print, n: u64) {
    print(out, b" ");
    let _ = print!(out; "{n}");
}

fn print_sum(out: &impl Print, bytes: &[u8]) {
    print(out, b" ");
    let sum = sum(0, bytes);
    let _ = print!(out; "{sum:08x}");
}

// Number and value.
pub fn print_answer(out: &impl Print, answer: Result<u16, Refusal>) {
    let (number, value) = number_and_value(answer);
    print(out, b" |");
    print_number(out, u64::from(number));
    print_number(out, u64::from(value));
}

// Number, length and sum of the part.
pub fn print_view(out: &impl Print, desk: &[u8]) {
    let (number, _) = number_and_value(desk::view_number(desk));
    let part = desk::view(desk);
    print(out, b" |");
    print_number(out, u64::from(number));
    print_number(out, part.len() as u64);
    print_sum(out, part);
}

pub fn print_sums(out: &impl Print, buffers: &Buffers) {
    print(out, b" |");
    print_sum(out, &buffers.desk);
    print_sum(out, &buffers.log);
    print_sum(out, &buffers.tray);
}
