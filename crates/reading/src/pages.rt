// `otp pages`: the 64 pages on one screen of 80 columns, the sum of the bits burnt, and the valid keys.
ghost use Rattle.std.specs.Prelude.{◌≡◌, ◌<◌, IfOk};

use crate::page_line::{Line, TITLES};
use board::begin::{begin, finish};
use chip::pages::Page;
use chip::state::{Key, State};
use console::ended::{End, Stop};
use console::takes::{Role, Takes};
use console::usage::asked;
use permit::keys::matches;
use screen::shown::Rows;
use screen::{say, say_line};
use std::fmt;
use wording::burnt;

// Some pages, in the column of the pages: "14-60".
#[derive(Clone, Copy)]
struct Pages {
    from: u32,
    until: u32,
}

impl fmt::Display for Pages {
    fn fmt<W: fmt::Write>(&self, f: &mut fmt::Formatter<W>) -> fmt::Result {
        let Pages { from, until } = *self;
        if from == until {
            write!(f, "{from:>5}")
        } else if until < 10 {
            write!(f, "{from:>3}-{until}")
        } else {
            write!(f, "{from:>2}-{until}")
        }
    }
}

// The line that was written last, and the pages after it that are the same.
#[derive(Clone, Copy)]
struct Folded {
    line: Line,
    page: u32,
    until: u32,
}

impl Folded {
    // A page on a line of its own, which none is folded into yet.
    fn written(rt: &HostRuntime, page: u32, line: Line) -> Folded
        requires { page < 64 }
    {
        let first = page * Page::ROWS;
        say_line!(rt; "{page:>5}  {}  {line}", Rows(first, first + 63));
        Folded {
            line,
            page,
            until: page,
        }
    }

    // "14-60  as page 13"
    fn last_line(&self, rt: &HostRuntime) {
        let Folded {
            line: _,
            page,
            until,
        } = *self;
        if until <= page {
            return;
        }
        let pages = Pages {
            from: page + 1,
            until,
        };
        say_line!(rt; "{pages}  as page {page}");
    }
}

fn line_of(state: State, page: u32) -> Line
    requires { page < 64 }
{
    Line::of(state, Page { number: page as u8 })
}

// A page is folded into the one before it where the two say the same.
fn lines(rt: &HostRuntime, state: State) {
    let mut folded = Folded::written(rt, 0, line_of(state, 0));
    for page in 1..64 {
        let line = line_of(state, page);
        if line == folded.line {
            folded.until = page;
        } else {
            folded.last_line(rt);
            folded = Folded::written(rt, page, line);
        }
    }
    folded.last_line(rt);
}

// A valid key: its rows answer nobody.
fn key_line(rt: &HostRuntime, state: State, key: Key, at: u32)
    requires { at < 6 }
{
    let first = Page::FIRST_KEY_ROW + 8 * at;
    let number = at + 1;
    say!(rt;
        "Key {number}, rows {}, is valid: it answers nobody.",
        Rows(first, first + 7)
    );
    if !key.whole {
        say!(rt; " It is damaged: none matches it.");
    }
    if matches(state, number) {
        say!(rt; " It is the key entered.");
    }
    say_line!(rt; "");
}

fn key_lines(rt: &HostRuntime, state: State) {
    // By its place, which is its number.
    for at in 0..6 {
        let key = state.keys[at];
        if key.valid {
            key_line(rt, state, key, at as u32);
        }
    }
}

const NOTES: &str = "\
Level 0 reads and writes, 1 reads, 2 does neither. S is Secure, N Non-secure,
B the bootloader. The level of S counts for B too, and for N where it writes.
In a bar # is 192 bits burnt, + fewer, . none: only a full page is ########.
* A lock row is always read. Writing it goes by the levels of the page it locks,
  and by the keys of page 62 (lock words 0 to 31) or 63 (32 to 63): erratum E28.";

fn show(rt: &HostRuntime, state: State) {
    say_line!(rt; "{TITLES}");
    lines(rt, state);
    say_line!(rt; "");
    burnt::sum_line(rt, state.tallies);
    say_line!(rt; "\n{NOTES}");
    key_lines(rt, state);
}

pub fn run(rt: &HostRuntime) -> Result<End, Stop>
    ensures { IfOk result (λ end. end ≡ End.Answered 0) }
{
    let words = asked(rt, Takes::on_image(Role::Other, 1, 1))?;
    let mut rows = [0u32; 4096];
    let state = begin(rt, words, &mut rows)?;
    show(rt, state);
    finish(rt, words, state, 0)
}
