//! Tables with two or three indices, in one slice that a caller lends.
ghost use Rattle.std.specs.Prelude.{◌≡◌, ℕ, ◌+◌, ◌*◌, ◌<◌, ◌≤◌, length, MatchOption};
ghost use Rattle.ledger.specs.Places.{at2, at3, is_written, put_line_after, line};
ghost use Rattle.ledger.specs.PlaceLaws.{PlaceLaws};
ghost use Rattle.ledger.specs.SumLaws.{SumLaws};

/// The place of a column in a row of `width` columns.
// Width and row stay two numbers: a struct of them would be made for one call and dropped.
pub fn place2(width: u16, row: u16, column: u16) -> usize
    ensures value { result ≡ at2 width row column }
    ensures inside { (rows : ℕ) → row < rows → column < width → result < rows * width }
{
    row as usize * width as usize + column as usize
}

/// The place of a column in a line of a block of `lines` lines of `width` columns.
pub fn place3(lines: u16, width: u16, block: u16, line: u16, column: u16) -> usize
    ensures value { result ≡ at3 lines width block line column }
    ensures inside { (blocks : ℕ) → block < blocks → line < lines → column < width → result < blocks * lines * width }
{
    place2(lines, block, line) * width as usize + column as usize
}

/// The row of `width` places, if it lies inside.
pub fn line_of<T>(xs: &[T], width: u16, row: u16) -> Option<&[T]>
    ensures { MatchOption result (length xs.now < row * width + width) (λ s. (row * width + width ≤ length xs.now) × (s.now ≡ line width row xs.now)) }
{
    let start = place2(width, row, 0);
    xs.get(start..start + width as usize)
}

/// Writes a row of `width` places, if it lies inside and `new` has the width.
pub fn put_line<T: Copy>(table: &mut [T], width: u16, row: u16, new: &[T]) -> bool
    ensures answer { result ≡ is_written width row new.now table.old }
    ensures after { table.new ≡ put_line_after width row new.now table.old }
{
    let from = place2(width, row, 0);
    let end = from + width as usize;
    if new.len() == width as usize && end <= table.len() {
        table[from..end].copy_from_slice(new);
        return true;
    }
    false
}

/// Where the places of a table lie, and what is found in it after a write.
pub fn place_laws<T>()
    ensures { PlaceLaws T }
{}

/// How sums over the numbers below a bound go together.
pub fn sum_laws()
    ensures { SumLaws }
{}
