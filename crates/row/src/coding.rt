// The code of a value, and the two rows that hold it (document 01, "A row with ECC").
ghost use Rattle.std.specs.Prelude.{◌≡◌, ◌*◌, ◌/◌, ◌%◌, ◌^◌, ◌<◌};
ghost use Rattle.row.specs.Code as spec;

// The check bits of four bits of the low data byte: of bits 3:0 with entries 0 to 15, of bits 7:4 with entries 16 to 31. It is a `match`,
// since the compiler makes a table in flash of one; a constant array it would build anew at each use.
fn low_checks(entry: u32) -> u32
    requires { entry < 32 }
    ensures { result ≡ spec.code (entry % 16 * 16 ^ (entry / 16)) / 2 ^ 16 }
{
    match entry {
        0 => 0x00,
        1 => 0x23,
        2 => 0x25,
        3 => 0x06,
        4 => 0x26,
        5 => 0x05,
        6 => 0x03,
        7 => 0x20,
        8 => 0x07,
        9 => 0x24,
        10 => 0x22,
        11 => 0x01,
        12 => 0x21,
        13 => 0x02,
        14 => 0x04,
        15 => 0x27,
        16 => 0x00,
        17 => 0x29,
        18 => 0x2a,
        19 => 0x03,
        20 => 0x0b,
        21 => 0x22,
        22 => 0x21,
        23 => 0x08,
        24 => 0x2c,
        25 => 0x05,
        26 => 0x06,
        27 => 0x2f,
        28 => 0x27,
        29 => 0x0e,
        30 => 0x0d,
        31 => 0x24,
        _ => 0,
    }
}

// A table of its own: the two share their shape alone. The same of the high data byte: of bits 11:8 with entries 0 to 15, of bits 15:12 with entries 16 to 31.
fn high_checks(entry: u32) -> u32
    requires { entry < 32 }
    ensures { result ≡ spec.code (entry % 16 * 16 ^ (entry / 16) * 256) / 2 ^ 16 }
{
    match entry {
        0 => 0x00,
        1 => 0x0d,
        2 => 0x0e,
        3 => 0x03,
        4 => 0x2f,
        5 => 0x22,
        6 => 0x21,
        7 => 0x2c,
        8 => 0x31,
        9 => 0x3c,
        10 => 0x3f,
        11 => 0x32,
        12 => 0x1e,
        13 => 0x13,
        14 => 0x10,
        15 => 0x1d,
        16 => 0x00,
        17 => 0x32,
        18 => 0x13,
        19 => 0x21,
        20 => 0x34,
        21 => 0x06,
        22 => 0x27,
        23 => 0x15,
        24 => 0x15,
        25 => 0x27,
        26 => 0x06,
        27 => 0x34,
        28 => 0x21,
        29 => 0x13,
        30 => 0x32,
        31 => 0x00,
        _ => 0,
    }
}

// The code of a value. It is linear: the check bits of a value are the exclusive or of those of its parts.
pub fn code(value: u16) -> u32
    ensures { result ≡ spec.code value }
{
    let bits = value as u32;
    let low = low_checks(bits % 16) ^ low_checks(16 + bits / 16 % 16);
    let checks = low ^ high_checks(bits / 256 % 16) ^ high_checks(16 + bits / 4096);
    bits | (checks << 16)
}

// How many of a row's 24 bits are set.
pub fn set_bits(row: u32) -> u32
    ensures { result ≡ spec.set_bits row }
{
    u32::count_ones(row % 16777216)
}

// All 24 bits of a row flipped.
pub fn flipped(row: u32) -> u32
    ensures { result ≡ spec.flipped row }
{
    row ^ 0xffffff
}

// The plain row of a value.
pub fn plain(value: u16) -> u32
    ensures { result ≡ spec.plain value }
{
    code(value)
}

// The inverted row of a value.
pub fn inverted(value: u16) -> u32
    ensures { result ≡ spec.inverted value }
{
    flipped(plain(value))
}
