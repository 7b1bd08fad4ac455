// A text is read line by line, and each line made a step of a script, forty bytes, up to the first that is no step: docs/TAPES.md has the format.
#![tactic(auto)]

mod letters;
mod words;
mod wrong;

ghost use Rattle.std.specs.Prelude.{◌≡◌, ◌/◌, ◌≤◌, ◌<◌, length, IfOk};

pub use wrong::Wrong;

// How many bytes a step has.
pub const SIZE: usize = 40;

// How many steps a script has room for.
const MOST: usize = 8192;

// The kinds of a step.
#[derive(Clone, Copy)]
enum Kind {
    Put = 1,
    Show = 2,
    Clear = 3,
    Wait = 4,
    Channel = 5,
}

// The kinds that have a number, each by its word: the least number that it takes and the most, 0 where nothing stands behind the word, and
// what is wrong with any other.
const NUMBERED: [(&[u8], (Kind, u16, u16, Wrong)); 4] = [
    (b"show", (Kind::Show, 0, 16000, Wrong::NoFrame)),
    (b"clear", (Kind::Clear, 0, 16000, Wrong::NoFrame)),
    (b"wait", (Kind::Wait, 1, 16000, Wrong::NoWait)),
    (b"channel", (Kind::Channel, 1, 2, Wrong::NoChannel)),
];

// The pens, each of which is underlined too where `-u` stands behind its name.
const PENS: [(&[u8], u8); 8] = [
    (b"white", 0),
    (b"green", 1),
    (b"blue", 2),
    (b"cyan", 3),
    (b"red", 4),
    (b"yellow", 5),
    (b"magenta", 6),
    (b"italics", 8),
];

const UNDERLINED: u8 = 0x10;

// How many steps there are, how many lines were read, and what is wrong with the last of them.
#[derive(Clone, Copy, Debug, PartialEq, Eq)]
pub struct Reading {
    pub steps: usize,
    pub lines: usize,
    pub wrong: Option<Wrong>,
}

// The kind of a step, its number or its row and column, its pen, and the line where it was typed, low byte first.
fn start(kind: Kind, number: [u8; 2], pen: u8, line: usize) -> [u8; SIZE] {
    let mut step = [0u8; SIZE];
    step[0] = kind as u8;
    step[1..3].copy_from_slice(&number);
    step[3] = pen;
    step[5..8].copy_from_slice(&line.to_le_bytes()[..3]);
    step
}

// That 0 stands for no number stays as it is: so it stands in the two bytes of a step.
// The one number behind a word: 0 where nothing stands there, and none where what does is a 0, no number of two bytes, or more than that.
fn number_behind(rest: &[u8]) -> Option<u16> {
    let (word, rest) = words::next(rest);
    if word.is_empty() {
        return Some(0);
    }
    let n = words::number(word).and_then(|n| u16::try_from(n).ok())?;
    (n != 0 && words::is_blank(rest)).then_some(n)
}

fn pen(name: &[u8]) -> Option<u8> {
    match name.strip_suffix(b"-u") {
        Some(plain) => words::named(&PENS, plain).map(|pen| pen | UNDERLINED),
        None => words::named(&PENS, name),
    }
}

// Characters side by side: what stands behind the row.
fn put(row: u32, rest: &[u8], line: usize) -> Result<[u8; SIZE], Wrong> {
    if !(1..=15).contains(&row) {
        return Err(Wrong::NoRow);
    }
    let (word, rest) = words::next(rest);
    let column = words::number(word)
        .filter(|column| (1..=32).contains(column))
        .ok_or(Wrong::NoColumn)?;
    let (word, rest) = words::next(rest);
    let pen = pen(word).ok_or(Wrong::NoPen)?;
    let mut step = start(Kind::Put, [row as u8, column as u8], pen, line);
    letters::put_text(rest, &mut step, column as usize)?;
    Ok(step)
}

// The step of a line that is not passed over.
fn step(text: &[u8], line: usize) -> Result<[u8; SIZE], Wrong> {
    let (word, rest) = words::next(text);
    let Some((kind, least, most, wrong)) = words::named(&NUMBERED, word) else {
        let row = words::number(word).ok_or(Wrong::NoStep)?;
        return put(row, rest, line);
    };
    let n = number_behind(rest)
        .filter(|n| (least..=most).contains(n))
        .ok_or(wrong)?;
    Ok(start(kind, n.to_le_bytes(), 0, line))
}

// The step of a line behind those that there are; gives how many there are then.
fn add_step(
    text: &[u8],
    line: usize,
    script: &mut [u8; 327680],
    steps: usize,
) -> Result<usize, Wrong>
    requires { steps ≤ 8192 }
    ensures { IfOk result (λ n. n ≤ 8192) }
{
    if steps == MOST {
        return Err(Wrong::TooManySteps);
    }
    let step = step(text, line)?;
    let at = steps * SIZE;
    script[at..at + SIZE].copy_from_slice(&step);
    Ok(steps + 1)
}

// Line after line, up to the first that is no step. A CR at a line's end is no part of it.
pub fn read(text: &[u8], script: &mut [u8; 327680]) -> Reading
    ensures { result.steps ≤ 8192 }
{
    let mut steps = 0;
    let mut lines = 0;
    for (i, line) in text.split_inclusive(|byte| *byte == b'\n').enumerate() {
        lines = i + 1;
        let line = line.strip_suffix(b"\n").unwrap_or(line);
        let line = line.strip_suffix(b"\r").unwrap_or(line);
        // Blank lines, and those whose first word begins with `#`, are passed over.
        if matches!(words::first(line), None | Some(b'#')) {
            continue;
        }
        match add_step(line, lines, script, steps) {
            Ok(n) => steps = n,
            Err(wrong) => {
                return Reading {
                    steps,
                    lines,
                    wrong: Some(wrong),
                };
            }
        }
    }
    Reading {
        steps,
        lines,
        wrong: None,
    }
}

// The line where a step was typed.
pub fn line_of(script: &[u8], step: usize) -> u64
    requires { step < length script.now / 40 }
{
    let at = step * SIZE + 5;
    u64::from(u32::from_le_bytes([script[at], script[at + 1], script[at + 2], 0]))
}
