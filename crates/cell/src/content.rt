// Which codes and pens a cell may hold. Every test is one flag, so that a check of many cells has no branch.
ghost use Rattle.std.specs.Prelude.{◌≡◌};
ghost use Rattle.cell.specs.Pen.{is_pen};
ghost use Rattle.cell.specs.Code.{is_code, is_cell};

#[tactic(auto, unfolding(crate::specs::Pen::is_pen))]
pub fn is_pen(byte: u8) -> bool
    ensures { result ≡ is_pen byte }
{
    (byte % 8 <= 6) & (byte < 64)
}

#[tactic(auto, unfolding(crate::specs::Code::is_code))]
pub fn is_code(code: u8) -> bool
    ensures { result ≡ is_code code }
{
    (code == 0) | (0x20..=0x7f).contains(&code) | (code == 0x80) | (0x90..=0x9f).contains(&code)
}

#[tactic(auto, using(facts::proofs::Choice::not_or), unfolding(crate::specs::Code::is_cell))]
pub fn is_cell(code: u8, pen: u8) -> bool
    ensures { result ≡ is_cell code pen }
{
    is_code(code) & is_pen(pen) & ((code != 0) | (pen == 0))
}
