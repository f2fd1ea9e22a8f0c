// Lock rows: three copies of a byte, voted bit by bit (document 01, "Locks").
ghost use Rattle.std.specs.Prelude.{◌≡◌};
ghost use Rattle.latch.specs.Locks as spec;

// The byte that at least two of a row's three copies agree on, bit by bit. It is worked out for all bits at once, and not by `vote`, which
// takes each place by itself: a reset has 134 such rows.
pub fn voted_byte(row: u32) -> u32
    ensures { result ≡ spec.voted_byte row }
{
    let first = row % 256;
    let second = row / 256 % 256;
    let third = row / 65536 % 256;
    ((first & second) | (first & third)) | (second & third)
}

// The level that a field of a lock row stands for.
pub fn level_of(field: u32) -> u8
    ensures { result ≡ spec.level_of field }
{
    field.min(2) as u8
}
