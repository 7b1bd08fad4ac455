// The registers of many reels, run: the paper's reel, the slips, every kind of bad line, and the 16,000th frame.
// Copies the text on standard input, but for what stands between two braces: that is a reel, and its register is printed there.
#![tactic(auto)]

mod note;
mod register;

use input::words::split_once;

// Of a reel 16,000 lines and one byte are kept: what follows them changes no register.
fn print_reel(out: &impl Print, text: &[u8]) {
    let mut reel = [0u8; 80001];
    let n = note::write(&mut reel, text);
    register::print_register(out, &reel[..n]);
}

// The loop stays as it is: it goes on behind the reel that it has printed, and what stands before the next one goes out in one write.
fn play(out: &impl Print, script: &[u8]) {
    let mut rest = script;
    while let Some((copied, behind)) = split_once(rest, b'{') {
        input::print(out, copied);
        let (reel, behind) = split_once(behind, b'}').unwrap_or((behind, &[]));
        print_reel(out, reel);
        rest = behind;
    }
    input::print(out, rest);
}

fn main(rt: HostRuntime) {
    let mut script = [0u8; 65536];
    let n = input::read_what_comes(&rt, &rt.stderr(), &mut script, b"cannot read the script");
    play(&rt, &script[..n]);
}
