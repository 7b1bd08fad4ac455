// The edges of the desk, run: refusals, thousands, the full log and steps back.
// Plays the script on standard input over the desk's public calls: prints each line of it, and behind a call its number, its
// value and the sums of the three buffers. A line is a call with what is asked of it, or one of these:
//     many 998                 as many pairs of the song, from its first; the last answer is printed
//     lend 1983 48000 31744    how much of each buffer the calls from here on are lent
//     poke tray 2 3            a byte of a buffer: its place and its new value
//     # words                  nothing
#![tactic(auto)]

mod buffers;
mod line;
mod show;
mod song;

use buffers::Buffers;
use line::Line;

fn play_line(out: &impl Print, line: &[u8], buffers: &mut Buffers) {
    match line::read(line) {
        Line::Words => {}
        Line::Lend(lent) => buffers.lent = lent,
        Line::Poke(buffer, at, byte) => buffers.poke(buffer, at, byte),
        Line::View => {
            show::print_view(out, buffers.desk());
            show::print_sums(out, buffers);
        }
        Line::Call(call) => {
            show::print_answer(out, buffers.answer(call));
            show::print_sums(out, buffers);
        }
    }
}

fn play(out: &impl Print, script: &[u8], buffers: &mut Buffers) {
    for line in script.split_inclusive(|b| *b == b'\n') {
        let line = line.strip_suffix(b"\n").unwrap_or(line);
        input::print(out, line);
        play_line(out, line, buffers);
        input::print(out, b"\n");
    }
}

fn main(rt: HostRuntime) {
    let mut script = [0u8; 65536];
    let n = input::read_what_comes(&rt, &rt.stderr(), &mut script, b"cannot read the script");
    play(&rt, &script[..n], &mut Buffers::zeros());
}
