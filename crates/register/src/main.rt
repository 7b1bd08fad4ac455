// Prints the register of the reel on standard input, and nothing else. All that is printed is worked out in `pieces`, by the definitions of `runs`.
// A read that fails prints no register, a write that fails ends it; either says why on standard error.
#![tactic(auto)]

ghost use Rattle.std.specs.Prelude.{◌≡◌, ◌+◌, ◌≤◌, IfOk, length};
ghost use Rattle.runs.specs.Register.{register_of};

use std::io;

// One piece more: what goes out is counted here and nowhere else. A register has at most 16,002 pieces of 65,536 bytes.
fn send<O: Print>(to: &O, sent: usize, piece: &[u8]) -> io::Result<usize>
    requires { sent + length piece.now ≤ 1048707072 }
    ensures { IfOk result (λ n. n ≡ sent + length piece.now) }
{
    Ok(sent + input::send(to, piece)?)
}

// Piece after piece, until all is given or a write fails. As many bytes go out as the register has.
fn print<O: Print>(to: &O, reel: &[u8]) -> io::Result<usize>
    ensures { IfOk result (λ n. n ≡ length (register_of reel.now)) }
{
    let mut cells = [0u8; 1920];
    let mut held = [0u8; 960];
    let mut out = [0u8; 65536];
    let mut w = walk::start(&mut cells, &mut held);
    let mut sent = 0;
    while w.stage.is_live() {
        let p = pieces::next_piece(w, reel, &mut cells, &mut held, &mut out);
        w = p.walk;
        sent = send(to, sent, &out[..p.n])?;
    }
    Ok(sent)
}

// 16,000 lines have 80,000 bytes: one byte more is refused, so no more is read.
fn main(rt: HostRuntime) {
    let mut reel = [0u8; 80001];
    let err = rt.stderr();
    match input::read_all(&rt, &mut reel) {
        Ok(n) => {
            if let Err(error) = print(&rt.stdout(), &reel[..n]) {
                input::fail(&err, b"cannot write the register", error);
            }
        }
        Err(cut) => input::fail(&err, b"cannot read the reel", cut.error),
    }
}
