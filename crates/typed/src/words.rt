// A text as lines and words: a line ends at its comment, which begins with '#', and blanks part its words.
ghost use Rattle.std.specs.Prelude.{◌≡◌, ◌≤◌, drop, eqb, length};
ghost use Rattle.typed.specs.Words as spec;

// Where a word begins in its line, and where it is past.
#[derive(Clone, Copy)]
pub struct Span {
    pub from: usize,
    pub to: usize,
}

// A line of a text from another system ends with a carriage return too.
fn is_blank(byte: u8) -> bool
    ensures { result ≡ spec.is_blank byte }
{
    matches!(byte, b' ' | b'\t' | b'\r')
}

// What stands before the first such byte of a text, and all of it where there is none.
fn before(text: &[u8], byte: u8) -> &[u8]
    ensures { result.now ≡ spec.up_to (λ own. eqb own byte) text.now }
{
    let end = text.iter().position(|own| *own == byte);
    &text[..end.unwrap_or(text.len())]
}

// The first word of a text that begins with one.
fn first_word(text: &[u8]) -> &[u8]
    ensures value { result.now ≡ spec.up_to spec.is_blank text.now }
    ensures upper_bound { length result.now ≤ length text.now }
{
    let end = text.iter().position(|own| is_blank(*own));
    &text[..end.unwrap_or(text.len())]
}

// A text without the blanks that it begins with.
fn past_blanks(text: &[u8]) -> &[u8]
    ensures { result.now ≡ drop (length (spec.up_to spec.is_written text.now)) text.now }
{
    let start = text.iter().position(|own| !is_blank(*own));
    &text[start.unwrap_or(text.len())..]
}

// A part of a text, and nothing where the text has no such part.
pub fn part(text: &[u8], from: usize, to: usize) -> &[u8]
    ensures { result.now ≡ spec.part_of text.now from to }
{
    text.get(from..to).unwrap_or(&[])
}

// What the line that begins at a place says.
pub fn line_at(text: &[u8], start: usize) -> &[u8]
    ensures { result.now ≡ spec.line_at text.now start }
{
    let line = before(part(text, start, text.len()), b'\n');
    before(line, b'#')
}

// Where the next line begins, which is the end of the text after the last.
pub fn next_line(text: &[u8], start: usize) -> usize
    ensures { result ≡ spec.next_line text.now start }
{
    let line = before(part(text, start, text.len()), b'\n');
    (start.min(text.len()) + line.len() + 1).min(text.len())
}

// Where a word of a line stands, counted from 0. One that is not there is empty, past the last.
pub fn word_at(line: &[u8], n: u32) -> Span
    ensures { result ≡ spec.word_at line.now n }
{
    let mut rest = past_blanks(line);
    for _ in 0..n {
        rest = past_blanks(&rest[first_word(rest).len()..]);
    }
    let from = line.len() - rest.len();
    let to = from + first_word(rest).len();
    Span { from, to }
}

// A word of a line, counted from 0. It is empty where there is none.
pub fn word(line: &[u8], n: u32) -> &[u8]
    ensures { result.now ≡ spec.word_of line.now n }
{
    let span = word_at(line, n);
    part(line, span.from, span.to)
}
