// The row that a preamble sets, worked out from the code: the small monitor keeps constants in slow storage, so there is no list of rows.
ghost use Rattle.std.specs.Prelude.{◌≡◌, ◌≤◌, eqb, None, Some};
ghost use Rattle.facts.specs.Choice.{pick};
ghost use Rattle.cell.specs.Place.{row_number};
ghost use Rattle.codes.specs.Rows.{preamble_row_of};

use cell::Row;

// The row of a preamble of channel 1, none where it is unassigned. Each first byte has two places, b below 60h and b from 60h, and the first bytes stand
// in order from 11h on, 10h last. Counted from 1, and round at sixteen, a place is its row but for two corrections: from 13h on the rows stand seven
// further on, and from 15h on five further still.
pub fn preamble_row(a: u8, b: u8) -> Option<Row>
    requires { (0x10 ≤ a) × (a ≤ 0x17) × (0x40 ≤ b) × (b ≤ 0x7f) }
    ensures { result ≡ pick (eqb (preamble_row_of a b) 0) None (Some (row_number (preamble_row_of a b))) }
{
    let first = (a + 7) % 8;
    let place = ((first << 1) + ((b - 0x20) >> 5)) % 16;
    let down = facts::choose(place < 5, 0, 7);
    let round = facts::choose(place < 9, 0, 5);
    let row = (place + down + round) % 16;
    if row == 0 { None } else { Some(Row(row)) }
}
