// How the lines of the table are grouped, and how a share of many is written.
use screen::say_line;
pub use screen::table::Table;
use std::fmt;

// The title of a group of lines, and below it the titles of its columns.
pub fn headings(table: &Table, title: &str, columns: &str) {
    say_line!(table.rt; "\n{title}\n{columns}");
}

// "7 of 22 repaired"
#[derive(Clone, Copy)]
pub struct Share<'a>(pub u32, pub u32, pub &'a str);

impl fmt::Display for Share<'_> {
    fn fmt<W: fmt::Write>(&self, f: &mut fmt::Formatter<W>) -> fmt::Result {
        let Share(held, of, what) = *self;
        write!(f, "{held} of {of} {what}")
    }
}
