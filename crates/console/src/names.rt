// Which of its words a command reads and which it writes, for the script ./otp, which guards the files. A word is named by its place among
// those that the script was given, so that no name is ever spelled. What a command reads and no word names is standard input, at place 0.
use crate::options::Words;
use crate::takes::{Role, Takes};
use screen::say_line;

// "reads 2 an image". Before the words that the script was given stands the program's name.
fn line(rt: &HostRuntime, role: Role, place: Option<usize>) {
    let own = place.unwrap_or(0).saturating_sub(1);
    match role {
        Role::Image => say_line!(rt; "reads {own} an image"),
        Role::Job => say_line!(rt; "reads {own} a job"),
        Role::Text => say_line!(rt; "reads {own} a text"),
        Role::Written => say_line!(rt; "writes {own}"),
        Role::Other => {}
    }
}

pub(crate) fn lines(rt: &HostRuntime, words: Words, takes: Takes) {
    line(rt, takes.first, words.first);
    line(rt, takes.second, words.second);
    line(rt, takes.third, words.third);
    if words.rows.is_some() {
        line(rt, Role::Text, words.rows);
    }
    if words.save.is_some() {
        line(rt, Role::Written, words.save);
    }
    if words.replace.is_some() {
        say_line!(rt; "replaces");
    }
}
