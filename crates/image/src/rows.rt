// The one format of an image: 16,384 bytes for 4,096 rows, row 0 first, each a number of 32 bits, low byte first.
ghost use Rattle.std.specs.Prelude.{◌≡◌, ◌<◌, ◌/◌, ◌%◌};
ghost use Rattle.chip.specs.Slices.{row_at};
ghost use Rattle.image.specs.Images as spec;

use std::array;

// A byte of a file, and 0 past its end.
fn byte_at(bytes: &[u8], at: usize) -> u8
    ensures { result ≡ spec.byte_at bytes.now at }
{
    bytes.get(at).copied().unwrap_or(0)
}

// A row, from its four bytes.
fn row_of(bytes: &[u8], row: usize) -> u32
    requires { row < 4096 }
    ensures { result ≡ spec.row_of bytes.now row }
{
    let byte = |which| byte_at(bytes, 4 * row + which);
    u32::from_le_bytes([byte(0), byte(1), byte(2), byte(3)])
}

// The rows of an image, from its bytes. Neither this nor `bytes_of` is a `From`: both types are the language's own.
pub fn rows_of(bytes: &[u8]) -> [u32; 4096]
    ensures { result ≡ spec.rows_of bytes.now }
{
    array::from_fn(|row| row_of(bytes, row))
}

// A byte of an image: one of the four of its row.
fn image_byte(rows: &[u32], at: usize) -> u8
    ensures { result ≡ spec.byte_of (row_at rows.now (at / 4)) (at % 4) }
{
    let row = rows.get(at / 4).copied().unwrap_or(0);
    row.to_le_bytes()[at % 4]
}

// The bytes of an image, from its rows.
pub fn bytes_of(rows: &[u32]) -> [u8; 16384]
    ensures { result ≡ spec.bytes_of rows.now }
{
    array::from_fn(|at| image_byte(rows, at))
}
