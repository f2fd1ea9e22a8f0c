// The screen of a dump: a line for each row, and how many of them hold bits.
use board::range::Range;
use chip::slices::row_at;
use chip::state::State;
use screen::shown::{Bits, Row};
use screen::{say, say_line};
use wording::rights::{May, Rights, rights_of};
use wording::{ecc, row_names};

// Who may read the row. Where Secure may not, Non-secure may, if only the Secure level forbids it. The bootloader runs as Secure, and may not.
fn readers(rights: Rights) -> &'static str {
    let secure = rights.secure != May::Nothing;
    let nonsecure = rights.nonsecure != May::Nothing;
    let bootloader = rights.bootloader != May::Nothing;
    match (secure, nonsecure, bootloader) {
        (true, true, true) => "all three",
        (true, true, false) => "S and N",
        (true, false, true) => "S and B",
        (true, false, false) => "Secure",
        (false, true, _) => "Non-secure",
        (false, false, _) => "nobody",
    }
}

// "0x0c0  0x230001  0x0001 clean            all three", and the row's name
fn line(rt: &HostRuntime, rights: Rights, row: u32, bits: u32) {
    let readers = readers(rights);
    let name = row_names::After(12usize.saturating_sub(readers.len()), row);
    say!(rt; "{}  {}  ", Row(row), Bits(bits));
    say_line!(rt; "{}{readers}{name}", ecc::Column(row, bits));
}

// A line for each row of the range; where only those that hold bits are asked for, a blank one has none. How many hold bits.
fn lines(rt: &HostRuntime, rows: &[u32], state: State, range: Range) -> u32 {
    let mut held = 0u32;
    // By its number, which is shown; `row_at` says what stands past the end too.
    for row in range.first..range.past {
        let bits = row_at(rows, row);
        if bits != 0 || !range.held {
            line(rt, rights_of(state, row), row, bits);
        }
        held = held.saturating_add(u32::from(bits != 0));
    }
    held
}

// The last line is "2 of 64 rows hold bits". What goes in goes to one function more: a struct of it is no plainer.
pub(crate) fn show(rt: &HostRuntime, rows: &[u32], state: State, range: Range) {
    say_line!(rt;
        "{:<7}{:<10}{:<24}{:<12}{}",
        "row", "bits", "as ECC", "read by", "name"
    );
    let held = lines(rt, rows, state, range);
    let of = range.past.saturating_sub(range.first);
    let hold = if of == 1 { "row holds" } else { "rows hold" };
    say_line!(rt; "\n{held} of {of} {hold} bits");
}
