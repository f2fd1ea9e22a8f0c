// What the screen of the pages says of one page, on a line of its own (document 01, "Locks", "Keys", "Permission").
use chip::pages::Page;
use chip::state::{State, counted_index, counted_level, counted_no_key};
use permit::permission::row_key_level;
use std::fmt;
use wording::burnt::Bar;
use wording::rights::{May, rights_of};

// What a caller may do with the rows of a page.
#[derive(Clone, Copy, Debug, PartialEq, Eq)]
enum Use {
    // The same with each.
    Alike(May),
    // Read, and write as the levels of each row's own page allow.
    ByOwnPage,
}

impl fmt::Display for Use {
    fn fmt<W: fmt::Write>(&self, f: &mut fmt::Formatter<W>) -> fmt::Result {
        f.write_str(match self {
            Use::Alike(May::Nothing) => "-/-",
            Use::Alike(May::Read) => "r/-",
            Use::Alike(May::ReadAndWrite) => "r/w",
            Use::ByOwnPage => "r/*",
        })
    }
}

// What each caller may do with the rows of a page.
#[derive(Clone, Copy, Debug, PartialEq, Eq)]
struct Uses {
    secure: Use,
    nonsecure: Use,
    bootloader: Use,
}

// The lock rows, from page 62 on, go by the levels of the pages that they lock, and all of one page by one key level: where it is not 0, none
// of them is written.
fn uses_of(state: State, page: Page) -> Uses {
    let first = page.first_row();
    if page.number < 62 {
        let rights = rights_of(state, first);
        return Uses {
            secure: Use::Alike(rights.secure),
            nonsecure: Use::Alike(rights.nonsecure),
            bootloader: Use::Alike(rights.bootloader),
        };
    }
    let each = if row_key_level(state, first) == 0 {
        Use::ByOwnPage
    } else {
        Use::Alike(May::Read)
    };
    Uses {
        secure: each,
        nonsecure: each,
        bootloader: each,
    }
}

// A key index, or a dash where none is registered, which is 0 in the state.
#[derive(Clone, Copy, Debug, PartialEq, Eq)]
struct Index(u32);

impl fmt::Display for Index {
    fn fmt<W: fmt::Write>(&self, f: &mut fmt::Formatter<W>) -> fmt::Result {
        match self.0 {
            0 => write!(f, "{:<6}", "-"),
            index => write!(f, "{index:<6}"),
        }
    }
}

// What the screen says of a page.
#[derive(Clone, Copy, Debug, PartialEq, Eq)]
pub(crate) struct Line {
    secure: u32,
    nonsecure: u32,
    bootloader: u32,
    writekey: Index,
    readkey: Index,
    nokey: bool,
    burnt: u32,
    uses: Uses,
}

// The titles of the lines, behind which stand the number and the rows of a page.
pub(crate) const TITLES: &str =
    "                    level     key index   no-key                   may
 page  rows         S  N  B   write read  state  burnt  of 1536    S    N    B";

impl Line {
    pub(crate) fn of(state: State, page: Page) -> Line {
        let burnt = state.tallies.get(page.number as usize);
        Line {
            secure: counted_level(state.secure, page),
            nonsecure: counted_level(state.nonsecure, page),
            bootloader: counted_level(state.bootloader, page),
            writekey: Index(counted_index(state.writekey, page)),
            readkey: Index(counted_index(state.readkey, page)),
            nokey: counted_no_key(state.nokey, page),
            burnt: burnt.map_or(0, |tally| u32::from(*tally)),
            uses: uses_of(state, page),
        }
    }
}

impl fmt::Display for Line {
    fn fmt<W: fmt::Write>(&self, f: &mut fmt::Formatter<W>) -> fmt::Result {
        let Line {
            secure,
            nonsecure,
            bootloader,
            writekey,
            readkey,
            nokey,
            burnt,
            uses,
        } = *self;
        let no_key = u32::from(nokey);
        let bar = Bar(burnt);
        write!(
            f,
            "{secure:<3}{nonsecure:<3}{bootloader:<4}{writekey}{readkey}{no_key}"
        )?;
        write!(
            f,
            "{burnt:>11}  {bar}   {}  {}  {}",
            uses.secure, uses.nonsecure, uses.bootloader
        )
    }
}
