// Whose row a row is: its page, the lock word or key that it belongs to, of a lock row whose key settings count, and who may use it
// (document 01, "Locks", "Keys", "Permission").
use crate::rights::{May, Rights};
use chip::pages::Page;
use screen::say_line;
use screen::shown::Rows;
use std::fmt;

// The page whose levels a row goes by and, of a row of a lock word or a key, which of its rows it is. A lock row belongs to the page that it
// locks. The rows of the keys go from 0xf48 to 0xf77, and those from 0xf79 to 0xf7e are their valid flags.
#[derive(Clone, Copy)]
struct Owner(u32);

impl fmt::Display for Owner {
    fn fmt<W: fmt::Write>(&self, f: &mut fmt::Formatter<W>) -> fmt::Result {
        let row = self.0;
        let page = Page::owner(row).number;
        match row {
            0xf48..=0xf77 => {
                let past = row - Page::FIRST_KEY_ROW;
                write!(f, "key {}, row {} of its 8", past / 8 + 1, past % 8)
            }
            0xf79..=0xf7e => { write!(f, "key {}, its valid flag", row - Page::PAST_KEY_ROWS) }
            _ if row < Page::FIRST_LOCK_ROW => write!(f, "page {page}"),
            _ if row % 2 == 0 => write!(f, "page {page}, the low row of its lock word"),
            _ => write!(f, "page {page}, the high row of its lock word"),
        }
    }
}

fn may_line(rt: &HostRuntime, caller: &str, may: May) {
    say_line!(rt; "{caller:<12}{may}");
}

// The lines of a row of the chip, and none of a row that it does not have. Of a lock row the key settings that count are not those of the page
// that it locks.
pub fn lines(rt: &HostRuntime, rights: Rights, row: u32) {
    if Page::LAST_ROW < row {
        return;
    }
    let page = row / Page::ROWS;
    let first = page * Page::ROWS;
    say_line!(rt; "{:<12}{page}, rows {}", "page", Rows(first, first + 63));
    say_line!(rt; "{:<12}{}", "owner", Owner(row));
    if Page::FIRST_LOCK_ROW <= row {
        let keys = Page::key_page(row).number;
        say_line!(rt;
            "{:<12}the key settings of page {keys} count (erratum E28)",
            "keys"
        );
    }
    may_line(rt, "Secure", rights.secure);
    may_line(rt, "Non-secure", rights.nonsecure);
    may_line(rt, "Bootloader", rights.bootloader);
}
