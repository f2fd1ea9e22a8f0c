// Why no pass is made: the number, its words and, of a list out of place, the row and its line in the text that the list is from.
use crate::lists::{first, first_out};
use crate::pass::Pass;
use chip::pages::Page;
use console::options::Words;
use console::word;
use screen::shown::Row;
use screen::{say, say_line};
use std::fmt;
use text::lists::read;
use wording::refusals::{ListNumbered, OfRow};
use wording::row_names;

// What is wrong with the row at a place: ": not above the row before it, row 0x0c1 after row 0x0c1", or ": from 0xf40 up, row 0xf87 PAGE3_LOCK1".
#[derive(Clone, Copy)]
struct OutOfPlace<'a> {
    list: &'a [u32],
    place: usize,
}

impl fmt::Display for OutOfPlace<'_> {
    fn fmt<W: fmt::Write>(&self, f: &mut fmt::Formatter<W>) -> fmt::Result {
        let Some(row) = self.list.get(self.place).copied() else {
            return Ok(());
        };
        if Page::FIRST_KEPT_ROW <= row {
            return write!(
                f,
                ": from 0xf40 up{}{}",
                OfRow(row),
                row_names::After(1, row)
            );
        }
        match first(self.list, self.place).last() {
            Some(before) => {
                let before = Row(*before);
                write!(
                    f,
                    ": not above the row before it{} after row {before}",
                    OfRow(row)
                )
            }
            None => Ok(()),
        }
    }
}

// "   it is line 3 of rows.txt", where the list is from a text: that is read again, as far as the row. Its rows are not wanted, and only the first
// is kept.
fn text_line(rt: &HostRuntime, words: Words, text: &[u8], place: usize) {
    let Some(from) = words.rows else {
        return;
    };
    if 4096 < place {
        return;
    }
    let mut kept = [0u32; 1];
    let reading = read(text, &mut kept, place as u32 + 1).unwrap_or_else(|wrong| wrong.reading);
    say!(rt; "   it is line {} of ", reading.line);
    word::print(rt, from);
    say_line!(rt; "");
}

pub(crate) fn lines(rt: &HostRuntime, words: Words, pass: &Pass<'_>, number: u32) {
    if number == 11 {
        let list = pass.list;
        let place = first_out(list);
        say_line!(rt; "{}{}", ListNumbered(number), OutOfPlace { list, place });
        text_line(rt, words, pass.text, place);
    } else {
        say_line!(rt; "{}", ListNumbered(number));
    }
    say_line!(rt; "no row changes");
}
