// The preambles that set a row, worked out from the row: there is no list of rows here either.
ghost use Rattle.std.specs.Prelude.{◌≡◌, ◌+◌, ◌*◌, ◌/◌, ◌%◌, ◌<◌, get_or};
ghost use Rattle.tape.specs.Preamble.{firsts, seconds};

// The place of a row's preambles: each first value from 10h on has two, b below 60h and b from 60h. Places and rows are counted from 0 here, so that row 1 has
// place 2, and the next have the next but for two corrections: rows 5 to 11 stand four places further on, round at sixteen, and rows 12 to 15 seven before.
pub fn place(row: usize) -> u8
    requires { row < 15 }
    ensures { (0x10 + result / 2 ≡ get_or firsts row 0) × (0x40 + result % 2 * 0x20 ≡ get_or seconds row 0) × (result < 16) }
{
    let row = row as u8;
    if row < 4 {
        return row + 2;
    }
    if row < 11 {
        return (row + 6) % 16;
    }
    row - 5
}
