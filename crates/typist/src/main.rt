// Prints the reel of the text on standard input, or says on standard error what is wrong with it: docs/TAPES.md has the format.
// The lines are read in `texts`, and what they come to, and their reel, is worked out in `script`.
#![tactic(auto)]

mod say;

ghost use Rattle.std.specs.Prelude.{◌≡◌, IfOk, length};
ghost use Rattle.typist.specs.Printed.{printed_of};

use script::Made;
use std::io;
use texts::Reading;

// How many bytes a text may have.
const LONGEST: usize = 262144;

// The first wrong line: that of a step that cannot be kept, else the one where the reading stopped; else it is the screen that the end shows.
fn tell(err: &impl Print, script: &[u8], reading: Reading, made: Made) {
    let steps = script.len() / texts::SIZE;
    if let Some(wrong) = made.wrong {
        if made.kept < steps {
            say::tell_step(err, texts::line_of(script, made.kept), wrong);
            return;
        }
    }
    if let Some(wrong) = reading.wrong {
        say::tell_line(err, reading.lines as u64, wrong);
        return;
    }
    if let Some(wrong) = made.wrong {
        say::tell_end(err, wrong);
    }
}

// The reel of a script goes out where nothing is wrong, and else nothing does.
fn print<O: Print, E: Print>(out: &O, err: &E, script: &[u8], reading: Reading) -> io::Result<usize>
    ensures { IfOk result (λ n. n ≡ printed_of script.now reading.wrong) }
{
    let mut reel = [0u8; 80000];
    let made = script::make(script, &mut reel);
    if made.wrong.is_none() && reading.wrong.is_none() {
        return input::send(out, &reel[..made.n]);
    }
    tell(err, script, reading, made);
    Ok(0)
}

// The reel of a text, by way of its script.
fn play<O: Print, E: Print>(
    out: &O,
    err: &E,
    text: &[u8],
    script: &mut [u8; 327680],
) -> io::Result<usize> {
    let reading = texts::read(text, script);
    print(out, err, &script[..reading.steps * texts::SIZE], reading)
}

// The text has room for one byte more than it may have, so that one that is too long is seen.
fn main(rt: HostRuntime) {
    let err = rt.stderr();
    let mut text = [0u8; 262145];
    let mut script = [0u8; 327680];
    match input::read_all(&rt, &mut text) {
        Ok(n) if LONGEST < n => say::tell_too_many_bytes(&err),
        Ok(n) => {
            if let Err(error) = play(&rt.stdout(), &err, &text[..n], &mut script) {
                input::fail(&err, b"cannot write the reel", error);
            }
        }
        Err(cut) => input::fail(&err, b"cannot read the text", cut.error),
    }
}
