// A line of the script read: its first letter says what it asks for, and the fields behind it, each after a space, say with what.

ghost use Rattle.std.specs.Prelude.{◌<◌};

use input::words::split_once;
use std::slice::Iter;

// How many bytes of each buffer a call is lent.
#[derive(Clone, Copy)]
pub struct Lent {
    pub desk: usize,
    pub log: usize,
    pub tray: usize,
}

// A buffer, by its name.
#[derive(Clone, Copy)]
pub enum Buffer {
    Desk,
    Log,
    Tray,
}

// A call that answers with a number and a value.
#[derive(Clone, Copy)]
pub enum Call {
    Open,
    Take(u8, u8),
    Select(u8),
    Back(u32),
    Many(u32),
    Row(u8),
}

// What a line asks for; of words, nothing.
#[derive(Clone, Copy)]
pub enum Line {
    Words,
    Lend(Lent),
    Poke(Buffer, usize, u8),
    View,
    Call(Call),
}

// The value of a digit, 0-9 A-F; any other letter counts as 0.
fn digit(letter: u8) -> u8
    ensures { result < 16 }
{
    wire::digit(letter).unwrap_or(0)
}

// The decimal number of a field; 0 where there is no such field.
fn number(line: &[u8], field: usize) -> u32 {
    let letters = line.split(|b| *b == b' ').nth(field).unwrap_or(&[]);
    input::words::number(letters, digit)
}

fn size(line: &[u8], field: usize) -> usize {
    number(line, field) as usize
}

fn byte(line: &[u8], field: usize) -> u8 {
    (number(line, field) % 256) as u8
}

// The byte that the next two letters say in hexadecimal; one that is missing counts as 0.
fn hex_byte(letters: &mut Iter<u8>) -> u8 {
    let high = letters.next().map_or(0, |letter| digit(*letter));
    let low = letters.next().map_or(0, |letter| digit(*letter));
    (high << 4) | low
}

// The pair of bytes that stands behind the first space.
fn take(line: &[u8]) -> Call {
    let behind = split_once(line, b' ').map_or(&line[..0], |(_, behind)| behind);
    let mut letters = behind.iter();
    let first = hex_byte(&mut letters);
    let second = hex_byte(&mut letters);
    Call::Take(first, second)
}

fn lend(line: &[u8]) -> Lent {
    Lent {
        desk: size(line, 1),
        log: size(line, 2),
        tray: size(line, 3),
    }
}

fn named_buffer(line: &[u8]) -> Buffer {
    match line.split(|b| *b == b' ').nth(1) {
        Some([b'd', ..]) => Buffer::Desk,
        Some([b'l', ..]) => Buffer::Log,
        _ => Buffer::Tray,
    }
}

pub fn read(line: &[u8]) -> Line {
    match line.first() {
        Some(b'#') => Line::Words,
        Some(b'l') => Line::Lend(lend(line)),
        Some(b'p') => Line::Poke(named_buffer(line), size(line, 2), byte(line, 3)),
        Some(b'v') => Line::View,
        Some(b'o') => Line::Call(Call::Open),
        Some(b't') => Line::Call(take(line)),
        Some(b's') => Line::Call(Call::Select(byte(line, 1))),
        Some(b'b') => Line::Call(Call::Back(number(line, 1))),
        Some(b'm') => Line::Call(Call::Many(number(line, 1))),
        _ => Line::Call(Call::Row(byte(line, 1))),
    }
}
