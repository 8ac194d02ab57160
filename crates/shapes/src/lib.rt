// The shapes: document 01's table, and a shape in few words. Numbers from 3 to 5, as the document has them, and levels as bytes of one number:
// docs/PROMISES.md cites both.
#![tactic(auto)]

ghost use Rattle.std.specs.Prelude.{◌≡◌, [], ℕ, ◌+◌, ◌-◌, ◌*◌, ◌/◌, ◌%◌, ◌^◌, ◌≤◌, ◌<◌, T, get_or};
ghost use Rattle.model.specs.Packed.{pack};
ghost use Rattle.model.specs.Shapes.{counter_bits, rows_of};
ghost use Rattle.shapes.specs.Shapes.{byte_table, entries_at, entry_bytes, shape_of, width_at, width_bytes};

mod levels;

pub use levels::Levels;

// Document 01's table, row by row: shapes 3, 4 and 5, levels 2 to 5. Two tables, as the document has entries and widths.
const ENTRIES: [[u64; 4]; 3] = [[15, 3, 0, 0], [25, 10, 2, 0], [25, 10, 3, 1]];

const WIDTHS: [[u64; 4]; 3] = [[4, 13, 0, 0], [2, 4, 12, 0], [2, 3, 4, 9]];

// A row of such a table as one number, a byte for each level, level 2 lowest. The shapes are told apart first, so that each is read at a number
// that the compiler knows. `entries_of` and `widths_of` show what this asks.
fn row_bytes(table: &[[u64; 4]; 3], shape: u64) -> u64
    requires { (3 ≤ shape) × (shape ≤ 5) × T (byte_table table.now) }
    ensures { result ≡ pack 8 (get_or table.now (shape - 3) []) }
{
    match shape {
        3 => bytes(table[0]),
        4 => bytes(table[1]),
        _ => bytes(table[2]),
    }
}

// `row_bytes` shows what this asks.
fn bytes(row: [u64; 4]) -> u64
    requires { (i : ℕ) → i < 4 → get_or row i 0 < 256 }
    ensures { result ≡ pack 8 row }
{
    row[0] + row[1] * 256 + row[2] * 65536 + row[3] * 16777216
}

// The entries and the widths of the levels from 2 on. A good header shows what these ask.
pub fn entries_of(shape: u64) -> u64
    requires { (3 ≤ shape) × (shape ≤ 5) }
    ensures { result ≡ entry_bytes shape }
{
    row_bytes(&ENTRIES, shape)
}

pub fn widths_of(shape: u64) -> u64
    requires { (3 ≤ shape) × (shape ≤ 5) }
    ensures { result ≡ width_bytes shape }
{
    row_bytes(&WIDTHS, shape)
}

// L. A good header shows what this asks, and the refusals of raise and of the limits call do.
pub fn counter_bits(shape: u64, width: u64) -> u64
    requires { (3 ≤ shape) × (shape ≤ 5) × (width ≤ 16) }
    ensures { (result ≡ counter_bits width (rows_of shape)) × (result < 64) }
{
    if shape == 3 {
        return width + 17;
    }
    width + 18
}

// The width of level 1, and the entries and widths of the levels above it: a byte for each of these, level 2 lowest.
#[derive(Clone, Copy)]
pub struct Shape {
    pub uppers: u64,
    pub width: u64,
    pub entries: u64,
    pub widths: u64,
}

impl Shape {
    // A good header shows what this asks.
    pub fn of(shape: u64, width: u64) -> Self
        requires { (3 ≤ shape) × (shape ≤ 5) }
        ensures { result ≡ shape_of shape width }
    {
        Shape {
            uppers: shape - 1,
            width,
            entries: entries_of(shape),
            widths: widths_of(shape),
        }
    }

    // Entries and width of the upper level j, counted from 0. A walk over the levels shows what these ask.
    pub fn entries_at(self, j: u64) -> u64
        requires { j < 8 }
        ensures { (result ≡ entries_at self j) × (result < 256) }
    {
        byte(self.entries, j)
    }

    pub fn width_at(self, j: u64) -> u64
        requires { j < 8 }
        ensures { (result ≡ width_at self j) × (result < 256) }
    {
        byte(self.widths, j)
    }

    pub fn levels(self) -> Levels
        ensures { result ≡ record { count = self.uppers; entries = self.entries; widths = self.widths } }
    {
        Levels {
            count: self.uppers,
            entries: self.entries,
            widths: self.widths,
        }
    }
}

// Byte j of a number, the lowest counted as 0. `entries_at` and `width_at` show what this asks.
fn byte(x: u64, j: u64) -> u64
    requires { j < 8 }
    ensures { (result ≡ x / 2 ^ (8 * j) % 256) × (result < 256) }
{
    (x >> (8 * j)) % 256
}
