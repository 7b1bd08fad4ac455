// A cell and what points at it: rows and columns, the pen byte, the codes a cell may hold, and the cursor with its moves.
#![tactic(auto)]

pub mod content;
pub mod moves;
pub mod pens;

ghost use Rattle.std.specs.Prelude.{◌≡◌, ◌+◌, ◌≤◌};
ghost use Rattle.cell.specs.Place.{OnScreen, cell_at, row_at};

// Caption rows are 1 to 15. That range stays as it is: a clause of three functions, since a tuple struct takes no ghost field, and a record may hold any row.
#[derive(Clone, Copy, Debug, PartialEq, Eq)]
pub struct Row(pub u8);

// Columns are 1 to 32, counted apart from rows: an address takes one of each, in order.
#[derive(Clone, Copy, Debug, PartialEq, Eq)]
pub struct Column(pub u8);

// A pen taken apart; in a cell and in a cursor it is one byte. A colour stays as it is: a number below 8, and no enum of the seven, since `unpack_of` takes
// every byte, and `is_pen` is what tells a pen of colour 7 from those allowed.
#[derive(Clone, Copy, Debug, PartialEq, Eq)]
pub struct Pen {
    pub colour: u8,
    pub italics: bool,
    pub underline: bool,
    pub flash: bool,
}

#[derive(Clone, Copy, Debug, PartialEq, Eq)]
pub struct Cursor {
    pub row: Row,
    pub column: Column,
    pub pen: u8,
}

// Where a row of the memory that starts at `memory` begins.
pub fn row_address(memory: usize, row: Row) -> usize
    requires { (memory ≤ 1920) × (1 ≤ row.0) × (row.0 ≤ 15) }
    ensures { (result ≡ row_at memory row) × (result + 64 ≤ memory + 960) }
{
    memory + ((row.0 as usize) - 1) * 64
}

// Where a cell of the memory that starts at `memory` begins.
pub fn address(memory: usize, row: Row, column: Column) -> usize
    requires { (memory ≤ 1920) × OnScreen row column }
    ensures { (result ≡ cell_at memory row column) × (result + 2 ≤ memory + 960) }
{
    row_address(memory, row) + ((column.0 as usize) - 1) * 2
}
