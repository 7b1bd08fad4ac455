// What is wrong, in words, on standard error: a write for each word, and one that fails is passed over, and the next one is tried.
use input::print;
use std::fmt;
use steps::Wrong;

// A step that cannot be kept.
#[derive(Clone, Copy)]
struct Unkept(Wrong);

// What a line may show by itself is said as it is of a line. The program lends the room that `script` asks for, and whole steps: of those
// nothing is said. Behind the words for a frame that is too early stands the earliest one.
impl fmt::Display for Unkept {
    fn fmt<W: fmt::Write>(&self, f: &mut fmt::Formatter<W>) -> fmt::Result {
        match self.0 {
            Wrong::WrongLength => Ok(()),
            Wrong::NoSuch => texts::Wrong::TooLong.fmt(f),
            Wrong::TooManyFrames => f.write_str("a reel has at most 16000 frames"),
            Wrong::Invalid => texts::Wrong::NoStep.fmt(f),
            Wrong::NotWritable => f.write_str("all text of a row has one pen"),
            Wrong::TooEarly(_) => f.write_str("the earliest frame is "),
            Wrong::Unshown => f.write_str("show the screen before another channel"),
        }
    }
}

fn print_words(err: &impl Print, words: &impl fmt::Display) {
    let _ = print!(err; "{words}");
}

fn print_line(err: &impl Print, line: u64) {
    print(err, b"line ");
    print_words(err, &line);
    print(err, b": ");
}

fn print_unkept(err: &impl Print, wrong: Wrong) {
    print_words(err, &Unkept(wrong));
    if let Wrong::TooEarly(earliest) = wrong {
        print_words(err, &earliest);
    }
    print(err, b"\n");
}

pub fn tell_too_many_bytes(err: &impl Print) {
    print(err, b"a text has at most 262144 bytes");
    print(err, b"\n");
}

// A line that is no step.
pub fn tell_line(err: &impl Print, line: u64, wrong: texts::Wrong) {
    print_line(err, line);
    print_words(err, &wrong);
    print(err, b"\n");
}

// A line whose step cannot be kept.
pub fn tell_step(err: &impl Print, line: u64, wrong: Wrong) {
    print_line(err, line);
    print_unkept(err, wrong);
}

// The screen that is shown at the end.
pub fn tell_end(err: &impl Print, wrong: Wrong) {
    print(err, b"at the end: ");
    print_unkept(err, wrong);
}
