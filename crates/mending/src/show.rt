// The screen of repair: a line for each listed row that is not clean, what each page gains, and how many rows there are of each kind.
use crate::finds::{found_by, kind_of};
use crate::pass::Pass;
use answer::answers::Condition;
use chip::callers::SECURE;
use chip::slices::row_at;
use chip::state::Outcome;
use decode::reading::read_row;
use repair::finding::Found;
use screen::shown::{Bits, Counted, Row, Value};
use screen::{say, say_line};
use std::fmt;
use wording::counts::Count;
use wording::levels::{Levels, levels_of};
use wording::{burnt, refusals, row_names};

// Why a row that decodes, and is neither clean nor mended, is worn, by the bits that it holds: its condition says so.
#[derive(Clone, Copy)]
struct WornBy(u32);

impl fmt::Display for WornBy {
    fn fmt<W: fmt::Write>(&self, f: &mut fmt::Formatter<W>) -> fmt::Result {
        match read_row(self.0).condition {
            Condition::Repaired(bit) => write!(f, "a 1 too many, bit {bit}"),
            _ => f.write_str("flag bits disagree"),
        }
    }
}

// A row that is not clean, what was found of it, what it held and what it is left with, and the levels of its page, which a write needs both at 0:
// "0x0c1  0x2a0044 -> 0x2a004c  mended: bit 3 burnt, reads 0x004c", and the row's name.
#[derive(Clone, Copy)]
struct Listed {
    row: u32,
    found: Found,
    held: u32,
    left: u32,
    levels: Levels,
}

impl fmt::Display for Listed {
    fn fmt<W: fmt::Write>(&self, f: &mut fmt::Formatter<W>) -> fmt::Result {
        let Listed {
            row,
            found,
            held,
            left,
            levels,
        } = *self;
        write!(f, "{}  {}", Row(row), Bits(held))?;
        match found {
            Found::Mended(bit) => {
                let value = Value(read_row(left).value);
                write!(
                    f,
                    " -> {}  mended: bit {bit} burnt, reads {value}",
                    Bits(left)
                )?;
            }
            Found::Worn => write!(f, "{:14}worn but not mendable: {}", "", WornBy(held))?,
            Found::Damaged => write!(f, "{:14}damaged: {}", "", refusals::Words(8))?,
            _ => {
                let Levels {
                    own: _,
                    secure,
                    key,
                } = levels;
                write!(
                    f,
                    "{:14}not permitted: Secure level {secure}, key level {key}",
                    ""
                )?;
            }
        }
        write!(f, "{}", row_names::After(2, row))
    }
}

// A line for each row that is not clean, with the titles before the first. How many there are of each kind.
fn lines(rt: &HostRuntime, pass: &Pass<'_>, after: &[u32], report: &[u32]) -> Count {
    let before = pass.before;
    let mut count = Count::default();
    for (row, entry) in pass.list.iter().zip(report.iter()) {
        let row = *row;
        let found = found_by(*entry);
        if !matches!(found, Found::Clean) {
            if count.not_clean() == 0 {
                say_line!(rt;
                    "{:<7}{:<12}{:<10}{}",
                    "row", "old", "new", "what was found"
                );
            }
            let held = row_at(before, row);
            let left = row_at(after, row);
            let levels = levels_of(pass.state, SECURE, row);
            say_line!(rt;
                "{}",
                Listed {
                    row,
                    found,
                    held,
                    left,
                    levels
                }
            );
        }
        count.add(kind_of(found));
    }
    count
}

// "7 rows looked at, 2 clean, 2 mended, 1 worn, 2 damaged, 0 not permitted, 2 pulses"
fn last_line(rt: &HostRuntime, count: Count, pulses: u32) {
    let Count {
        clean,
        repaired,
        worn,
        damaged,
        not_permitted,
    } = count;
    say!(rt;
        "{} looked at, {clean} clean, {repaired} mended, ",
        Counted(count.all(), "row")
    );
    say!(rt; "{worn} worn, {damaged} damaged, {not_permitted} not permitted, ");
    say_line!(rt; "{}", Counted(pulses, "pulse"));
}

// The rows, then what they come to: those after the pass, the report that it left, and what came of it.
pub(crate) fn rows(
    rt: &HostRuntime,
    pass: &Pass<'_>,
    after: &[u32],
    report: &[u32],
    outcome: Outcome,
) {
    say_line!(rt; "{}\n", refusals::Numbered(0));
    let count = lines(rt, pass, after, report);
    if 0 < count.not_clean() {
        say_line!(rt; "");
    }
    let left = outcome.state;
    burnt::gain_lines(rt, pass.state.tallies, left.tallies);
    if count.repaired == 0 {
        say_line!(rt; "nothing to mend: no row changes");
    }
    last_line(rt, count, outcome.answer.pulses);
}
