// What the codes do: the mode by value and the cells lent, and each act one equation with its definition.
// The pair of mode and cells, here and in typing, placing, styles, rollup and decode, stays as it is: in one struct, `Captions { mode, cells: &mut [u8] }`, each act says a third thing beside `Sound` and its equation,
// `self.new.cells.ghost_name ≡ self.old.cells.ghost_name`, or its caller learns nothing of the cells it lent; and `styles::rcl`, `rdc`, `text` and
// `placing::tabbed`, which take a mode alone, would ask for cells. Nor can the struct itself be `Sound`: `typing::write` takes any code, also one that no cell may hold.
#![tactic(auto)]

ghost use Rattle.std.specs.Prelude.{◌≡◌};
ghost use Rattle.codes.specs.Proper.{Proper};
ghost use Rattle.state.specs.State.{captions};
ghost use Rattle.state.specs.Ranges.{Sound};
ghost use Rattle.acts.specs.Act.{is_gated, done_of, act_of};

use cell::Cursor;
use codes::Code;
use state::Mode;

// Whether a code acts only with a style set and Text off.
pub fn is_gated(code: Code) -> bool
    ensures { result ≡ is_gated code }
{
    matches!(
        code,
        Code::Preamble(_, _, _)
            | Code::MidRow(_)
            | Code::Special(_)
            | Code::Tab(_)
            | Code::Bs
            | Code::Der
            | Code::Fon
            | Code::Cr
    )
}

// What a code does once it may act.
fn done(mode: Mode, cells: &mut [u8], code: Code) -> Mode
    requires { Sound (captions mode cells.old) × Proper code }
    ensures { captions result cells.new ≡ done_of (captions mode cells.old) code }
{
    match code {
        Code::Preamble(row, column, pen) => placing::preamble(
            mode,
            cells,
            Cursor { row, column, pen },
        ),
        Code::MidRow(b) => typing::mid_row(mode, cells, b),
        Code::Special(code) => typing::write(mode, cells, code),
        Code::Tab(n) => placing::tabbed(mode, n),
        Code::Bs => placing::bs(mode, cells),
        Code::Der => placing::der(mode, cells),
        Code::Fon => typing::fon(mode, cells),
        Code::Cr => rollup::cr(mode, cells),
        Code::Unassigned => mode,
        Code::Rcl => styles::rcl(mode),
        Code::Rdc => styles::rdc(mode),
        Code::Ru(n) => rollup::ru(mode, cells, n),
        Code::Eoc => styles::eoc(mode, cells),
        Code::Tr | Code::Rtd => styles::text(mode),
        Code::Edm => styles::edm(mode, cells),
        Code::Enm => styles::enm(mode, cells),
    }
}

// What a code does.
#[tactic(auto, unfolding(crate::specs::Act::act_of, crate::specs::Act::gated))]
pub fn act(mode: Mode, cells: &mut [u8], code: Code) -> Mode
    requires { Sound (captions mode cells.old) × Proper code }
    ensures { captions result cells.new ≡ act_of (captions mode cells.old) code }
{
    if is_gated(code) & !mode.is_ready() {
        return mode;
    }
    done(mode, cells, code)
}
