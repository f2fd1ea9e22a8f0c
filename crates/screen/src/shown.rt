// How rows, values and bits are shown: each is a type that says how it is written.
use std::{fmt, str};

// A number in hexadecimal, with zeros up to a width. All its digits are one piece, since each piece is written by itself.
fn hexadecimal<W: fmt::Write>(f: &mut fmt::Formatter<W>, number: u32, width: usize) -> fmt::Result {
    let mut digits = [0u8; 16];
    let n = io::hex(u64::from(number), width, &mut digits);
    f.write_str("0x")?;
    f.write_str(str::from_utf8(&digits[..n]).unwrap_or(""))
}

// The number of a row, as the datasheet has it: "0x0c0".
#[derive(Clone, Copy)]
pub struct Row(pub u32);

impl fmt::Display for Row {
    fn fmt<W: fmt::Write>(&self, f: &mut fmt::Formatter<W>) -> fmt::Result {
        hexadecimal(f, self.0, 3)
    }
}

// The rows from one to another: "0x0c0-0x0ff".
#[derive(Clone, Copy)]
pub struct Rows(pub u32, pub u32);

impl fmt::Display for Rows {
    fn fmt<W: fmt::Write>(&self, f: &mut fmt::Formatter<W>) -> fmt::Result {
        write!(f, "{}-{}", Row(self.0), Row(self.1))
    }
}

// A value of 16 bits: "0x0140".
#[derive(Clone, Copy)]
pub struct Value(pub u32);

impl fmt::Display for Value {
    fn fmt<W: fmt::Write>(&self, f: &mut fmt::Formatter<W>) -> fmt::Result {
        hexadecimal(f, self.0, 4)
    }
}

// The 24 bits of a row: "0x060140".
#[derive(Clone, Copy)]
pub struct Bits(pub u32);

impl fmt::Display for Bits {
    fn fmt<W: fmt::Write>(&self, f: &mut fmt::Formatter<W>) -> fmt::Result {
        hexadecimal(f, self.0, 6)
    }
}

// The titles of `Fields`, which stand in its columns.
pub const FIELD_TITLES: &str = "23:22  21:16   15:0";

// The 24 bits of a row in its three fields: "00     000110  0000000101000000".
#[derive(Clone, Copy)]
pub struct Fields(pub u32);

impl fmt::Display for Fields {
    fn fmt<W: fmt::Write>(&self, f: &mut fmt::Formatter<W>) -> fmt::Result {
        let bits = self.0;
        write!(
            f,
            "{:02b}     {:06b}  {:016b}",
            (bits >> 22) % 4,
            (bits >> 16) % 64,
            bits % 65536
        )
    }
}

// How many there are of something: "1 pulse", "4 pulses".
#[derive(Clone, Copy)]
pub struct Counted<'a>(pub u32, pub &'a str);

impl fmt::Display for Counted<'_> {
    fn fmt<W: fmt::Write>(&self, f: &mut fmt::Formatter<W>) -> fmt::Result {
        let Counted(count, what) = *self;
        if count == 1 {
            return write!(f, "1 {what}");
        }
        write!(f, "{count} {what}s")
    }
}
