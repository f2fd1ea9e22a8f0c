// An image with an entry that is too large: its row, what that says of the image, and a reset that is refused for it (document 01, "Locks").
ghost use Rattle.board.specs.Resets.{FirstTooLarge};

use chip::slices::row_at;
use latch::resetting::all_in_range;
use screen::{say, say_line};
use wording::refusals::OfRow;

// The first row that is not as the reset asks of all, found by the test of the reset itself. 0 where there is none, of which `FirstTooLarge` says
// nothing.
fn first_too_large(rows: &[u32]) -> u32
    ensures { FirstTooLarge rows.now result }
{
    (0..4096)
        .find(|row| !all_in_range(&[row_at(rows, *row)]))
        .unwrap_or(0)
}

// Whether every entry has nothing in its low byte. High byte first, each number of 24 bits looks so.
fn all_low_bytes_zero(rows: &[u32]) -> bool {
    (0..4096).all(|row| row_at(rows, row) % 256 == 0)
}

// ", row 0x005", what it holds, and what that says of the image.
pub fn entry_lines(rt: &HostRuntime, rows: &[u32]) {
    let row = first_too_large(rows);
    let bits = row_at(rows, row);
    say_line!(rt; "{}", OfRow(row));
    say_line!(rt; "   it is {bits:#010x}: the row could not be read, or the file is no image");
    if all_low_bytes_zero(rows) {
        say_line!(rt; "   every entry has a low byte of 0, as in a dump of the other byte order");
    }
}

pub(crate) fn lines(rt: &HostRuntime, number: u32, rows: &[u32]) {
    say!(rt; "{number}: the reset of this image is refused: an entry above 16,777,215");
    entry_lines(rt, rows);
}
