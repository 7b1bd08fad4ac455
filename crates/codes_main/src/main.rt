// Writes what every assigned pair says, a line each, both channels, and then how many there are.
#![tactic(auto)]

mod text;

ghost use Rattle.std.specs.Prelude.{◌≤◌};

use input::print;
use text::print_line;

// The lines of a first byte, one for each second byte with which it is assigned; gives how many they are.
fn print_pairs(out: &impl Print, a: u8) -> u64
    requires { (0x10 ≤ a) × (a ≤ 0x1f) }
    ensures { result ≤ 96 }
{
    let mut n = 0;
    for b in 0x20..=0x7f {
        if codes::is_assigned(a, b) {
            print_line(out, a, b);
            n += 1;
        }
    }
    n
}

fn main(rt: HostRuntime) {
    let mut n = 0;
    for a in 0x10..=0x1f {
        n += print_pairs(&rt, a);
    }
    print(&rt, b"assigned pairs: ");
    let _ = print!(rt; "{n}");
    print(&rt, b"\n");
}
