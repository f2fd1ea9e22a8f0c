// What a lock row locks: its page, and what a reset latches of its bits (document 01, "Locks"; request 2026-05).
ghost use Rattle.std.specs.Prelude.{◌≡◌};
ghost use Rattle.chip.specs.Pages.{owner};
ghost use Rattle.latch.specs.Locks.{level_of, secure_field, nonsecure_field, bootloader_field, write_key_field, read_key_field, no_key_field};

use chip::pages::Page;
use latch::locks::{level_of, voted_byte};
use std::fmt;

// What a reset latches of a low lock row. A key of 0 is none, as the row and the state have it.
#[derive(Clone, Copy)]
struct Low {
    writekey: u32,
    readkey: u32,
    nokey: bool,
}

// What a reset latches of a high lock row.
#[derive(Clone, Copy)]
struct High {
    secure: u8,
    nonsecure: u8,
    bootloader: u8,
}

fn low_of(row: u32) -> Low
    ensures { (result.writekey ≡ write_key_field row)
        × (result.readkey ≡ read_key_field row)
        × (result.nokey ≡ no_key_field row) }
{
    let byte = voted_byte(row);
    Low {
        writekey: byte % 8,
        readkey: byte / 8 % 8,
        nokey: byte / 64 % 2 == 1,
    }
}

fn high_of(row: u32) -> High
    ensures { (result.secure ≡ level_of (secure_field row))
        × (result.nonsecure ≡ level_of (nonsecure_field row))
        × (result.bootloader ≡ level_of (bootloader_field row)) }
{
    let byte = voted_byte(row);
    High {
        secure: level_of(byte % 4),
        nonsecure: level_of(byte / 4 % 4),
        bootloader: level_of(byte / 16 % 4),
    }
}

// A field that names a key: "write key 1", or "no write key".
#[derive(Clone, Copy)]
struct Key(&'static str, u32);

impl fmt::Display for Key {
    fn fmt<W: fmt::Write>(&self, f: &mut fmt::Formatter<W>) -> fmt::Result {
        match *self {
            Key(words, 0) => write!(f, "no {words}"),
            Key(words, index) => write!(f, "{words} {index}"),
        }
    }
}

// "write key 1, no read key, no-key state 0"
impl fmt::Display for Low {
    fn fmt<W: fmt::Write>(&self, f: &mut fmt::Formatter<W>) -> fmt::Result {
        let write = Key("write key", self.writekey);
        let read = Key("read key", self.readkey);
        write!(f, "{write}, {read}, no-key state {}", u8::from(self.nokey))
    }
}

// "Secure level 0, Non-secure level 1, bootloader level 0"
impl fmt::Display for High {
    fn fmt<W: fmt::Write>(&self, f: &mut fmt::Formatter<W>) -> fmt::Result {
        write!(
            f,
            "Secure level {}, Non-secure level {}, bootloader level {}",
            self.secure, self.nonsecure, self.bootloader
        )
    }
}

// Whether the three copies are one byte.
fn alike(bits: u32) -> bool {
    bits == bits % 256 * 0x010101
}

// What a reset latches of a lock row that holds these bits: the row, and the bits. Where the copies differ, some copy has a bit that the vote
// leaves out, or lacks one that it takes: a lock of one copy is none.
#[derive(Clone, Copy)]
pub struct Words(pub u32, pub u32);

impl fmt::Display for Words {
    fn fmt<W: fmt::Write>(&self, f: &mut fmt::Formatter<W>) -> fmt::Result {
        let Words(row, bits) = *self;
        if row % 2 == 0 {
            write!(f, "{}", low_of(bits))?;
        } else {
            write!(f, "{}", high_of(bits))?;
        }
        if alike(bits) {
            return Ok(());
        }
        write!(f, ", copies differ")
    }
}

// The page that a lock row locks.
pub fn page_of(row: u32) -> u32
    ensures { result ≡ owner row }
{
    u32::from(Page::owner(row).number)
}
