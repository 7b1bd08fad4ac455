// A reel as its text says it: every byte is the reel's own, but for `<COUNT TEXT>`, which is TEXT so many times.
ghost use Rattle.std.specs.Prelude.{◌≤◌, length};

use input::words::{number, split_once};
use std::io::Write;

// A piece of a text that ends behind `close`, cut at its first `open`: what stands before it, and the part between the two letters.
// Where there is no `open`, all stands before it; a part that the text's end cuts off is a part.
pub fn cut(piece: &[u8], open: u8, close: u8) -> (&[u8], Option<&[u8]>) {
    match split_once(piece, open) {
        Some((before, part)) => (before, Some(part.strip_suffix(&[close]).unwrap_or(part))),
        None => (piece, None),
    }
}

// What a note says: behind its count and a space, its text. The low four bits of a digit are its value, and the count is taken modulo
// 65,536. Where there is no space, it says nothing.
fn put_note(room: &mut &mut [u8], note: &[u8])
    ensures { length room.new.now ≤ length room.old.now }
{
    if let Some((count, text)) = split_once(note, b' ') {
        for _ in 0..number(count, |letter| letter % 16) % 65536 {
            let _ = room.write(text);
        }
    }
}

// The reel that a text says, as far as there is room; gives how many bytes it has.
pub fn write(reel: &mut [u8], text: &[u8]) -> usize
    ensures { result ≤ length reel.old }
{
    let size = reel.len();
    let mut room = reel;
    for piece in text.split_inclusive(|b| *b == b'>') {
        let (before, note) = cut(piece, b'<', b'>');
        let _ = room.write(before);
        if let Some(note) = note {
            put_note(&mut room, note);
        }
    }
    size - room.len()
}
