// The screen of wear: a line for each row that Secure's ECC read repairs, finds flag worn or cannot decode, and how many there are of each.
use access::reads::read_ecc;
use answer::answers::{Answer, Condition};
use board::range::Range;
use chip::callers::SECURE;
use chip::slices::row_at;
use chip::state::State;
use screen::shown::{Bits, Counted, Row, Value};
use screen::{say, say_line};
use wording::counts::{Count, Kind};
use wording::{condition, refusals};

// What a read says of its row. It is no `From`: neither type is of this crate. One that is flag worn and repaired counts as flag worn. After a reset the only refusals besides 8 are 5, 6 and 7.
fn kind_of(answer: Answer) -> Kind {
    match (answer.number, answer.condition) {
        (0, Condition::Clean) => Kind::Clean,
        (0, Condition::Repaired(_)) => Kind::Repaired,
        (0, _) => Kind::Worn,
        (8, _) => Kind::Damaged,
        _ => Kind::NotPermitted,
    }
}

// "0x0c1  0x2a0044  0x004c  repaired bit 3, plain", or "0x0c3  0x000003  -       damaged: no value has a code within one bit", where there is wear
// to see.
fn line(rt: &HostRuntime, row: u32, bits: u32, answer: Answer) {
    let row = Row(row);
    let bits = Bits(bits);
    match kind_of(answer) {
        Kind::Clean | Kind::NotPermitted => {}
        Kind::Repaired | Kind::Worn => {
            let value = Value(answer.value);
            say_line!(rt; "{row}  {bits}  {value}  {}", condition::Words(answer));
        }
        Kind::Damaged => {
            let words = refusals::Words(answer.number);
            say_line!(rt; "{row}  {bits}  {:<8}damaged: {words}", "-");
        }
    }
}

fn lines(rt: &HostRuntime, rows: &[u32], state: State, range: Range) -> Count {
    let mut count = Count::default();
    // By its number, which is shown; `row_at` says what stands past the end too.
    for row in range.first..range.past {
        let bits = row_at(rows, row);
        if bits != 0 || !range.held {
            let answer = read_ecc(rows, state, SECURE, row);
            line(rt, row, bits, answer);
            count.add(kind_of(answer));
        }
    }
    count
}

// The last line is "12 rows read, 7 clean, 2 repaired, 2 flag worn, 1 damaged, 0 not permitted".
pub(crate) fn show(rt: &HostRuntime, rows: &[u32], state: State, range: Range) {
    say_line!(rt;
        "{:<7}{:<10}{:<8}{}",
        "row", "bits", "value", "what is worn"
    );
    let count = lines(rt, rows, state, range);
    let Count {
        clean,
        repaired,
        worn,
        damaged,
        not_permitted,
    } = count;
    say!(rt;
        "\n{} read, {clean} clean, {repaired} repaired, ",
        Counted(count.all(), "row")
    );
    say_line!(rt; "{worn} flag worn, {damaged} damaged, {not_permitted} not permitted");
}
