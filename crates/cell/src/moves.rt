// The cursor's moves: each takes the cursor by value and hands the new one back.
ghost use Rattle.std.specs.Prelude.{◌≡◌, ◌≤◌};
ghost use Rattle.cell.specs.Cursor.{with_pen, after_write_of, back_of, tab_of, preamble_column_of};

use crate::{Column, Cursor};

impl Cursor {
    pub fn with_pen(self, pen: u8) -> Cursor
        ensures { result ≡ with_pen self pen }
    {
        Cursor { pen, ..self }
    }

    // The column goes up by one, but not past 32.
    #[tactic(auto, unfolding(crate::specs::Cursor::after_write_of))]
    pub fn after_write(self) -> Cursor
        ensures { result ≡ after_write_of self }
    {
        Cursor {
            column: Column(self.column.0.min(31) + 1),
            ..self
        }
    }

    // At column 1 nothing; else one left.
    #[tactic(auto, unfolding(crate::specs::Cursor::back_of))]
    pub fn back(self) -> Cursor
        ensures { result ≡ back_of self }
    {
        if self.column.0 <= 1 {
            return self;
        }
        Cursor {
            column: Column(self.column.0 - 1),
            ..self
        }
    }

    // Right by `n` columns, stopping at 32.
    #[tactic(auto, unfolding(crate::specs::Cursor::tab_of))]
    pub fn tab(self, n: u8) -> Cursor
        requires { n ≤ 32 }
        ensures { result ≡ tab_of self n }
    {
        Cursor {
            column: Column(self.column.0.min(32 - n) + n),
            ..self
        }
    }
}

// The column that a preamble whose second byte is b sets.
#[tactic(auto, unfolding(crate::specs::Cursor::preamble_column_of))]
pub fn preamble_column(b: u8) -> Column
    ensures { result ≡ preamble_column_of b }
{
    let low = b % 32;
    if low < 0x10 {
        Column(1)
    } else {
        Column((low - 0x10) / 2 * 4 + 1)
    }
}
