// Why no job is made of two images: the number, its words, the first row that stands in the way, its bits, and how many rows do.
use crate::found::{Found, Why, find};
use board::reset_refusals::entry_lines;
use chip::slices::row_at;
use latch::resetting::all_in_range;
use row::coding::flipped;
use screen::shown::{Bits, Counted};
use screen::{say, say_line};
use wording::refusals::{Numbered, OfRow};
use wording::row_names::After;

// "3: an entry that this call uses is above 16,777,215: the wanted image, row 0x005", and what that says of the image.
fn too_large(rt: &HostRuntime, present: &[u32], wanted: &[u32]) {
    let number = Numbered(3);
    if all_in_range(present) {
        say!(rt; "{number}: the wanted image");
        entry_lines(rt, wanted);
        return;
    }
    say!(rt; "{number}: the present image");
    entry_lines(rt, present);
}

// ", row 0xf87 PAGE3_LOCK1", and below it "   it holds 0x060140, and 0x060040 is wanted".
fn both(rt: &HostRuntime, row: u32, present: u32, wanted: u32) {
    say_line!(rt; "{}{}", OfRow(row), After(1, row));
    say!(rt;
        "   it holds {}, and {} is wanted",
        Bits(present),
        Bits(wanted)
    );
}

fn lost(rt: &HostRuntime, first: Found, present: u32, wanted: u32) {
    say!(rt; "{}", Numbered(13));
    both(rt, first.row, present, wanted);
    say_line!(rt; ": {} would be lost", Bits(present & flipped(wanted)));
    say_line!(rt; "   {} would lose bits", Counted(first.rows, "row"));
}

fn kept(rt: &HostRuntime, first: Found, present: u32, wanted: u32) {
    say!(rt; "{}: from 0xf40 up", Numbered(11));
    both(rt, first.row, present, wanted);
    let verb = if first.rows == 1 { "differs" } else { "differ" };
    say_line!(rt; "\n   {} from 0xf40 up {verb}", Counted(first.rows, "row"));
}

// "14: more than 512 rows differ: 513 do"
fn many(rt: &HostRuntime, rows: u32) {
    say_line!(rt; "{}: {rows} do", Numbered(14));
}

// An answer has its number alone (the C interface), so the cases go by that.
fn reason(rt: &HostRuntime, number: u32, present: &[u32], wanted: &[u32]) {
    let why = match number {
        3 => return too_large(rt, present, wanted),
        13 => Why::Lost,
        11 => Why::Kept,
        _ => Why::Changed,
    };
    let first = find(why, present, wanted);
    let own = row_at(present, first.row);
    let other = row_at(wanted, first.row);
    match why {
        Why::Lost => lost(rt, first, own, other),
        Why::Kept => kept(rt, first, own, other),
        Why::Changed => many(rt, first.rows),
    }
}

pub(crate) fn lines(rt: &HostRuntime, number: u32, present: &[u32], wanted: &[u32]) {
    reason(rt, number, present, wanted);
    say_line!(rt; "no job is written");
}
