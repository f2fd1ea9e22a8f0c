// The scenes of the input, line by line. Each case stands on one line with literal numbers, so that
// a person can hold it to document 01, and one case more needs no proof. The head of the input says
// how a line is written.
use crate::board::Board;
use crate::columns::left;
use crate::names::named;
use crate::said::read_line;
use screen::say_line;

// A text up to the first of a byte, and from there on.
fn cut(text: &[u8], byte: u8) -> (&[u8], &[u8]) {
    let end = text
        .iter()
        .position(|own| *own == byte)
        .unwrap_or(text.len());
    text.split_at(end)
}

// The head of a line, at most so long, and the rest.
fn headed(line: &[u8], length: usize) -> (&[u8], &[u8]) {
    line.split_at(line.len().min(length))
}

impl Board<'_> {
    // A call's name fills the first nine places of a line. What is special stands after the bar.
    fn tried(&mut self, line: &[u8]) {
        let (head, rest) = headed(line, 9);
        let (numbers, end) = cut(rest, b'|');
        let (_, special) = cut(end, b' ');
        left(self.table.rt, head, 9);
        left(self.table.rt, special, 36);
        self.call(named(head), read_line(numbers));
    }

    // What is left of a line that prepares, past its two blanks. A name fills seven places.
    fn made_ready(&mut self, line: &[u8]) {
        let (head, numbers) = headed(line, 7);
        self.prepare(named(head), read_line(numbers));
    }

    // The title of a group of lines, and below it the titles of its columns.
    fn headings(&self, title: &[u8]) {
        say_line!(self.table.rt; "");
        left(self.table.rt, title, 0);
        say_line!(self.table.rt;
            "\ncall      what is special                    must be              is                   left"
        );
    }

    // What a line is for is told by its first byte. A scene begins on a blank chip, and a part of one
    // goes on with what there is.
    fn played(&mut self, line: &[u8]) {
        match line {
            [] | [_] | [b'/', ..] => {}
            [b'#', _, title @ ..] => {
                self.headings(title);
                self.clear();
            }
            [b'=', _, title @ ..] => self.headings(title),
            [b' ', _, rest @ ..] => self.made_ready(rest),
            _ => self.tried(line),
        }
    }

    pub fn play(&mut self, text: &[u8]) {
        for line in text.split(|byte| *byte == b'\n') {
            self.played(line);
        }
    }
}
