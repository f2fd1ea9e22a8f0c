// Where two images differ: a line for each such row, and a last one that counts them.
ghost use Rattle.std.specs.Prelude.{◌≡◌, ◌⊎◌};

use console::ended::End;
use row::coding::flipped;
use row::writing::pulses;
use screen::shown::{Bits, Counted, Row};
use screen::{say, say_line};
use std::fmt;
use wording::ecc;

// The rows that differ; of B the bits that it lacks and has more, and the rows with such bits.
#[derive(Clone, Copy, Default)]
struct Found {
    rows: u32,
    lacking: u32,
    lacking_rows: u32,
    more: u32,
    more_rows: u32,
}

impl Found {
    // One row more. The pulses that burn one row over the other are the bits that the other lacks.
    fn add(&mut self, a: u32, b: u32) {
        let lacking = pulses(b, a);
        let more = pulses(a, b);
        self.rows = self.rows.saturating_add(1);
        self.lacking = self.lacking.saturating_add(lacking);
        self.lacking_rows = self.lacking_rows.saturating_add(u32::from(0 < lacking));
        self.more = self.more.saturating_add(more);
        self.more_rows = self.more_rows.saturating_add(u32::from(0 < more));
    }
}

fn titles(rt: &HostRuntime) {
    say_line!(rt;
        "{:<7}{:<10}{:<24}{:<10}{:<24}{:<10}{}",
        "row", "A", "as ECC", "B", "as ECC", "B lacks", "B has more"
    );
}

// Bits, or a dash where there are none, in a column of their own.
#[derive(Clone, Copy)]
struct SomeBits(u32);

impl fmt::Display for SomeBits {
    fn fmt<W: fmt::Write>(&self, f: &mut fmt::Formatter<W>) -> fmt::Result {
        match self.0 {
            0 => f.pad("-"),
            bits => write!(f, "{}", Bits(bits)),
        }
    }
}

// A row that differs, with what ECC reads of it, and the bits that B lacks and those that it has more.
fn row_line(rt: &HostRuntime, row: u32, a: u32, b: u32) {
    let lacking = SomeBits(a & flipped(b));
    let more = SomeBits(b & flipped(a));
    say!(rt; "{}  ", Row(row));
    say!(rt; "{}  {}", Bits(a), ecc::Column(row, a));
    say!(rt; "{}  {}", Bits(b), ecc::Column(row, b));
    say_line!(rt; "{lacking:<8}  {more}");
}

fn lines(rt: &HostRuntime, a: &[u32; 4096], b: &[u32; 4096]) -> Found {
    let mut found = Found::default();
    for (row, (of_a, of_b)) in a.iter().zip(b.iter()).enumerate() {
        if of_a != of_b {
            if found.rows == 0 {
                titles(rt);
            }
            row_line(rt, row as u32, *of_a, *of_b);
            found.add(*of_a, *of_b);
        }
    }
    found
}

// "no bit more", or "2 bits more in 1 row"
#[derive(Clone, Copy)]
struct BitsInRows {
    bits: u32,
    more: &'static str,
    rows: u32,
}

impl fmt::Display for BitsInRows {
    fn fmt<W: fmt::Write>(&self, f: &mut fmt::Formatter<W>) -> fmt::Result {
        let BitsInRows { bits, more, rows } = *self;
        if bits == 0 {
            return write!(f, "no bit{more}");
        }
        write!(
            f,
            "{}{more} in {}",
            Counted(bits, "bit"),
            Counted(rows, "row")
        )
    }
}

// What is to be made of bits of either kind, and how many rows differ.
fn last_lines(rt: &HostRuntime, found: Found) {
    if 0 < found.lacking {
        say_line!(rt; "A bit that B lacks can still be burnt.");
    }
    if 0 < found.more {
        say_line!(rt; "A bit that B has more is burnt for good.");
    }
    let differ = if found.rows == 1 { "differs" } else { "differ" };
    let lacking = BitsInRows {
        bits: found.lacking,
        more: "",
        rows: found.lacking_rows,
    };
    let more = BitsInRows {
        bits: found.more,
        more: " more",
        rows: found.more_rows,
    };
    say_line!(rt;
        "{} {differ}: B lacks {lacking} and has {more}",
        Counted(found.rows, "row")
    );
}

// The lines, and how it ended.
pub(crate) fn show(rt: &HostRuntime, a: &[u32; 4096], b: &[u32; 4096]) -> End
    ensures { (result ≡ End.Answered 0) ⊎ (result ≡ End.Different) }
{
    let found = lines(rt, a, b);
    if found.rows == 0 {
        say_line!(rt; "the same: no row differs");
        return End::Answered(0);
    }
    say_line!(rt; "");
    last_lines(rt, found);
    End::Different
}
