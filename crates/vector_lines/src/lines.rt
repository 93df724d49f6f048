//! Lines of text in columns: for each wire a digit and a mark, a space between them, and a line feed.
ghost use Rattle.std.specs.Prelude.{◌≡◌, ℕ, ◌+◌, ◌*◌, ◌<◌, ◌≤◌, length};
ghost use Rattle.vector_lines.specs.Vectors.{AreOtherRowsKept, ArePutAcross, ArePutDown, IsBlank};

/// A column of a line, in lines for `wires` wires.
#[derive(Clone, Copy, Drop)]
pub struct Place {
    pub wires: usize,
    pub row: usize,
    pub column: usize,
}

/// Writes a byte into a column, `below` lines below a place.
pub fn put_byte(text: &mut [u8], at: Place, below: usize, byte: u8)
    requires narrow { at.wires ≤ 256 }
    requires column { at.column < 2 * at.wires + 2 }
    requires row { (at.row + (below + 1)) * (2 * at.wires + 2) ≤ length text.old }
    ensures { ArePutDown at.wires (at.row + below) 1 at.column (λ i. byte) text.old text.new }
{
    text[(at.row + below) * (2 * at.wires + 2) + at.column] = byte;
}

/// Writes a byte into `count` columns of a row, from the column `from` on.
fn put_across(text: &mut [u8], wires: usize, row: usize, from: usize, count: usize, byte: u8)
    requires narrow { wires ≤ 256 }
    requires column { from + count ≤ 2 * wires + 2 }
    requires row { (row + 1) * (2 * wires + 2) ≤ length text.old }
    ensures { ArePutAcross wires row from count byte text.old text.new }
{
    let first = row * (2 * wires + 2) + from;
    for column in 0..count {
        text[first + column] = byte;
    }
}

/// Writes a line on which no wire is driven with 1 and none is compared.
fn put_blank(text: &mut [u8], wires: usize, row: usize)
    requires narrow { wires ≤ 256 }
    requires row { (row + 1) * (2 * wires + 2) ≤ length text.old }
    ensures long { length text.new ≡ length text.old }
    ensures blank { IsBlank wires row text.new }
    ensures others { AreOtherRowsKept wires row text.old text.new }
{
    put_across(text, wires, row, 0, wires, b'0');
    put_across(text, wires, row, wires, 1, b' ');
    put_across(text, wires, row, wires + 1, wires, b'-');
    put_across(text, wires, row, wires + 1 + wires, 1, b'\n');
}

/// Writes `count` such lines.
pub fn put_blanks(text: &mut [u8], wires: usize, count: usize)
    requires narrow { wires ≤ 256 }
    requires rows { count * (2 * wires + 2) ≤ length text.old }
    ensures long { length text.new ≡ length text.old }
    ensures blank { (r : ℕ) → r < count → IsBlank wires r text.new }
{
    for row in 0..count {
        put_blank(text, wires, row);
    }
}
