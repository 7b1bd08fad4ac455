// The characters of a text: letters that stand for themselves, and those in braces by name or by cell code.
ghost use Rattle.std.specs.Prelude.{◌≤◌, length, IfSome};

use crate::wrong::Wrong;
use crate::{SIZE, words};

// The characters that have a name, by their cell codes.
const NAMES: [(&[u8], u8); 26] = [
    (b"a-acute", 0x2a),
    (b"e-acute", 0x5c),
    (b"i-acute", 0x5e),
    (b"o-acute", 0x5f),
    (b"u-acute", 0x60),
    (b"c-cedilla", 0x7b),
    (b"divide", 0x7c),
    (b"N-tilde", 0x7d),
    (b"n-tilde", 0x7e),
    (b"block", 0x7f),
    (b"registered", 0x90),
    (b"degree", 0x91),
    (b"half", 0x92),
    (b"question", 0x93),
    (b"trademark", 0x94),
    (b"cent", 0x95),
    (b"pound", 0x96),
    (b"note", 0x97),
    (b"a-grave", 0x98),
    (b"transparent", 0x99),
    (b"e-grave", 0x9a),
    (b"a-circumflex", 0x9b),
    (b"e-circumflex", 0x9c),
    (b"i-circumflex", 0x9d),
    (b"o-circumflex", 0x9e),
    (b"u-circumflex", 0x9f),
];

// The letters that line 21 has at the same place as ASCII.
fn plain(byte: u8) -> Option<u8> {
    match byte {
        b'*' | b'\\' | b'^' | b'_' | b'`' => None,
        b' '..=b'z' => Some(byte),
        _ => None,
    }
}

// What stands between braces: two digits 0-9 A-F that are the code of a character, or a name.
fn braced(name: &[u8]) -> Option<u8> {
    match name {
        [high, low] => wire::byte(*high, *low).filter(
            |code| matches!(*code, 0x20..=0x7f | 0x90..=0x9f),
        ),
        _ => words::named(&NAMES, name),
    }
}

// The cell code of the character that begins with a byte, and what stands behind it.
fn next(first: u8, rest: &[u8]) -> Option<(u8, &[u8])>
    ensures { IfSome result (λ letter. length letter.1.now ≤ length rest.now) }
{
    if first != b'{' {
        return Some((plain(first)?, rest));
    }
    let end = rest.iter().position(|byte| *byte == b'}')?;
    Some((braced(&rest[..end])?, &rest[end + 1..]))
}

// One code more, from byte 8 on, and byte 4 is how many there are. A step has room for 32; 33 stands for any more.
fn put(step: &mut [u8; SIZE], n: usize, code: u8) -> usize
    ensures { result ≤ 33 }
{
    if n >= 32 {
        return 33;
    }
    step[8 + n] = code;
    step[4] = (n + 1) as u8;
    n + 1
}

// What stands behind the pen, and one space of it parts the two: the codes of the text go into a step.
pub fn put_text(rest: &[u8], step: &mut [u8; SIZE], column: usize) -> Result<(), Wrong>
    requires { column ≤ 32 }
{
    let mut text = rest
        .get(1..)
        .filter(|text| !text.is_empty())
        .ok_or(Wrong::NoText)?;
    let mut n = 0;
    while let Some((first, rest)) = text.split_first() {
        let (code, rest) = next(*first, rest).ok_or(Wrong::NoLetter)?;
        n = put(step, n, code);
        text = rest;
    }
    if 33 < column + n {
        return Err(Wrong::TooLong);
    }
    Ok(())
}
