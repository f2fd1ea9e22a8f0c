// How one line on a text begins that is not what it must be: the number of its line, and the word. What is wrong with it comes after that.
use crate::file_errors::said;
use screen::say;
use std::fmt;
use typed::words::{line_at, word};

// A word as it is shown, or the beginning of one that is longer than any number has to be. No word that fits has a byte that is not to be seen,
// so each such byte is made visible.
#[derive(Clone, Copy)]
struct Shown<'a>(&'a [u8]);

impl fmt::Display for Shown<'_> {
    fn fmt<W: fmt::Write>(&self, f: &mut fmt::Formatter<W>) -> fmt::Result {
        for (i, code) in self.0.iter().enumerate() {
            if i == 10 {
                return write!(f, "...");
            }
            if code.is_ascii_graphic() {
                write!(f, "{}", *code as char)?;
            } else {
                write!(f, "\\x{code:02x}")?;
            }
        }
        Ok(())
    }
}

// "otp: 'card.txt': line 3: '0x0c0': ", of the line that begins at `start` and its n-th word, counted from 0. The crate that
// reads texts is not known here: so these come by themselves.
pub fn at(rt: &HostRuntime, place: usize, text: &[u8], number: u32, start: usize, n: u32) {
    let own = Shown(word(line_at(text, start), n));
    said(rt, place);
    say!(rt; "line {number}: '{own}': ");
}

// A number is the same in every text.
pub const NO_NUMBER: &str = "no number of 32 bits, in decimal or after 0x";
