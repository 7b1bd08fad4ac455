// The pen byte, built and taken apart with shifts and masks, and the pens that codes give.
ghost use Rattle.std.specs.Prelude.{◌≡◌, ◌≤◌, ◌<◌};
ghost use Rattle.cell.specs.Pen.{pack_of, unpack_of, after_mid_row, of_preamble, mid_row_pen_of, preamble_pen_of, flash_pen_of};

use crate::Pen;

// This pair stays as it is: two functions and no `From`, since `pack` asks for a colour below 8, which no `From` can ask, and each undoes the other by the
// laws `unpack_of-pack_of` and `pack_of-unpack_of`.
impl Pen {
    pub fn pack(self) -> u8
        requires { self.colour < 8 }
        ensures { result ≡ pack_of self }
    {
        self.colour
            | ((self.italics as u8) << 3)
            | ((self.underline as u8) << 4)
            | ((self.flash as u8) << 5)
    }

    pub fn unpack(byte: u8) -> Pen
        ensures { (result ≡ unpack_of byte) × (result.colour < 8) }
    {
        Pen {
            colour: byte & 7,
            italics: (byte >> 3) & 1 == 1,
            underline: (byte >> 4) & 1 == 1,
            flash: (byte >> 5) & 1 == 1,
        }
    }
}

// The pen after a mid-row code 11h b.
pub fn mid_row_pen(byte: u8, b: u8) -> u8
    requires { (0x20 ≤ b) × (b ≤ 0x2f) }
    ensures { result ≡ mid_row_pen_of byte b }
{
    after_mid_row(Pen::unpack(byte), b).pack()
}

#[tactic(auto, unfolding(crate::specs::Pen::after_mid_row))]
fn after_mid_row(pen: Pen, b: u8) -> Pen
    requires { (0x20 ≤ b) × (b ≤ 0x2f) × (pen.colour < 8) }
    ensures { (result ≡ after_mid_row pen b) × (result.colour < 8) }
{
    let steady = Pen {
        underline: b % 2 == 1,
        flash: false,
        ..pen
    };
    if b < 0x2e {
        Pen {
            colour: (b - 0x20) / 2,
            italics: false,
            ..steady
        }
    } else {
        Pen {
            italics: true,
            ..steady
        }
    }
}

// The pen that a preamble whose second byte is b gives.
pub fn preamble_pen(b: u8) -> u8
    ensures { result ≡ preamble_pen_of b }
{
    of_preamble(b).pack()
}

#[tactic(auto, unfolding(crate::specs::Pen::of_preamble))]
fn of_preamble(b: u8) -> Pen
    ensures { (result ≡ of_preamble b) × (result.colour < 8) }
{
    let low = b % 32;
    let white = Pen {
        colour: 0,
        italics: false,
        underline: b % 2 == 1,
        flash: false,
    };
    if low < 0x0e {
        Pen {
            colour: low / 2,
            ..white
        }
    } else if low < 0x10 {
        Pen {
            italics: true,
            ..white
        }
    } else {
        white
    }
}

// The pen with flash on.
#[tactic(auto, unfolding(crate::specs::Pen::flashing))]
pub fn flash_pen(byte: u8) -> u8
    ensures { result ≡ flash_pen_of byte }
{
    Pen {
        flash: true,
        ..Pen::unpack(byte)
    }
    .pack()
}
