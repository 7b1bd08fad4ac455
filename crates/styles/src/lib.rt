// What sets the style and empties or exchanges the memories.
#![tactic(auto)]

ghost use Rattle.std.specs.Prelude.{◌≡◌, List, ℕ};
ghost use Rattle.state.specs.State.{captions};
ghost use Rattle.state.specs.Ranges.{Sound};
ghost use Rattle.styles.specs.Styles.{rcl_of, rdc_of, text_of, edm_of, enm_of, eoc_of};

use state::{Mode, PAINT_ON, POP_ON};

#[tactic(auto, unfolding(crate::specs::Styles::rcl_of))]
pub fn rcl(mode: Mode) -> Mode
    ensures { (d : List ℕ) → captions result d ≡ rcl_of (captions mode d) }
{
    Mode {
        style: POP_ON,
        text: 0,
        ..mode
    }
}

#[tactic(auto, unfolding(crate::specs::Styles::rdc_of))]
pub fn rdc(mode: Mode) -> Mode
    ensures { (d : List ℕ) → captions result d ≡ rdc_of (captions mode d) }
{
    Mode {
        style: PAINT_ON,
        text: 0,
        mark: 0,
        ..mode
    }
}

// Text starts, for TR and RTD alike.
#[tactic(auto, unfolding(crate::specs::Styles::text_of))]
pub fn text(mode: Mode) -> Mode
    ensures { (d : List ℕ) → captions result d ≡ text_of (captions mode d) }
{
    Mode { text: 1, ..mode }
}

// That EDM and ENM are two functions stays as it is: what they share is `page::empty_all`, and a function with the memory as a parameter would be that call again.
#[tactic(auto, unfolding(crate::specs::Styles::edm_of))]
pub fn edm(mode: Mode, cells: &mut [u8]) -> Mode
    requires { Sound (captions mode cells.old) }
    ensures { captions result cells.new ≡ edm_of (captions mode cells.old) }
{
    page::empty_all(cells, page::DISPLAYED);
    mode
}

#[tactic(auto, unfolding(crate::specs::Styles::enm_of))]
pub fn enm(mode: Mode, cells: &mut [u8]) -> Mode
    requires { Sound (captions mode cells.old) }
    ensures { captions result cells.new ≡ enm_of (captions mode cells.old) }
{
    page::empty_all(cells, page::NON_DISPLAYED);
    mode
}

#[tactic(auto, unfolding(crate::specs::Styles::eoc_of))]
pub fn eoc(mode: Mode, cells: &mut [u8]) -> Mode
    requires { Sound (captions mode cells.old) }
    ensures { captions result cells.new ≡ eoc_of (captions mode cells.old) }
{
    page::exchange(cells);
    Mode {
        style: POP_ON,
        text: 0,
        mark: 0,
        ..mode
    }
}
