// Rows of a lent slice by their number (document 01, "What the library models"). Past its end a row holds nothing and keeps nothing, so
// that no caller needs to ask first.
ghost use Rattle.std.specs.Prelude.{◌≡◌, set};
ghost use Rattle.chip.specs.Slices as spec;

// The most that a row of 24 bits holds. What the slice holds may be above it.
pub const MOST_HELD: u32 = 16777215;

// What a slice holds at a row.
pub fn row_at(rows: &[u32], row: u32) -> u32
    ensures { result ≡ spec.row_at rows.now row }
{
    rows.get(row as usize).copied().unwrap_or(0)
}

// Puts a row into a slice.
pub fn put(rows: &mut [u32], row: u32, value: u32)
    ensures { rows.new ≡ set rows.old row value }
{
    // By index, and not by `get_mut`: of a slice it lent from, a proof knows the length alone.
    let at = row as usize;
    if at < rows.len() {
        rows[at] = value;
    }
}
