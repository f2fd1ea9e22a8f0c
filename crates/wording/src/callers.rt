// The callers by their names (document 01, "What the library models"; request 2026-05). A caller is a number in every call, since C may bring any.
use chip::callers::{BOOTLOADER, NONSECURE, SECURE};
use std::fmt;

// "bootloader", as in "bootloader level 2".
#[derive(Clone, Copy)]
pub struct Name(pub u32);

impl fmt::Display for Name {
    fn fmt<W: fmt::Write>(&self, f: &mut fmt::Formatter<W>) -> fmt::Result {
        f.write_str(match self.0 {
            SECURE => "Secure",
            NONSECURE => "Non-secure",
            _ => "bootloader",
        })
    }
}

// ", by the bootloader"
#[derive(Clone, Copy)]
pub struct By(pub u32);

impl fmt::Display for By {
    fn fmt<W: fmt::Write>(&self, f: &mut fmt::Formatter<W>) -> fmt::Result {
        if self.0 == BOOTLOADER {
            return write!(f, ", by the {}", Name(self.0));
        }
        write!(f, ", by {}", Name(self.0))
    }
}
