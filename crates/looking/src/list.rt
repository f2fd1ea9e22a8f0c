// `otp list`: the entries of a job as the text that `otp write` takes, with both rows of an ECC value behind it and, of a lock row, what it
// locks; or why it has none.
ghost use Rattle.std.specs.Prelude.{ℕ, ◌≡◌, IfOk, List};
ghost use Rattle.form.specs.Faults.{fault_number as number_of_fault, fault_of as fault_in};

use board::lock_rows;
use chip::pages::Page;
use console::ended::{End, Stop};
use console::files::load_job;
use console::saving::Entries;
use console::takes::{Role, Takes};
use console::usage::{asked, needed};
use form::entries::{Entry, count_of, version_of};
use form::faults::{fault_number, fault_of};
use reader::handing::Found;
use reader::readers::{FIRST_ENTRY, next_entry};
use row::coding::{inverted, plain};
use screen::shown::{Bits, Row, Value};
use screen::{say, say_line};
use wording::job_refusals;

// "0x0c0 ecc 320       # 0x0140, plain 0x050140, inverted 0xfafebf", or "0xf87 raw 0x010101 # page 3: Secure level 1, Non-secure level 0, bootloader
// level 0": what is locked where the row was blank.
fn entry_line(rt: &HostRuntime, entry: Entry) {
    let Entry { row, kind, value } = entry;
    // By its number: that is what stands in a job's bytes.
    if kind == 0 {
        let value = (value % 65536) as u16;
        say!(rt;
            "{} ecc {value:<8}# {}, ",
            Row(row),
            Value(u32::from(value))
        );
        say_line!(rt;
            "plain {}, inverted {}",
            Bits(plain(value)),
            Bits(inverted(value))
        );
        return;
    }
    say!(rt; "{} raw {}", Row(row), Bits(value));
    if Page::FIRST_LOCK_ROW <= row {
        let page = lock_rows::page_of(row);
        say!(rt; " # page {page}: {}", lock_rows::Words(row, value));
    }
    say_line!(rt; "");
}

// The reader hands over one entry at a time, to the end of the bytes.
fn lines(rt: &HostRuntime, job: &[u8]) {
    let mut at = FIRST_ENTRY;
    loop {
        let handed = next_entry(job, at);
        let found = handed.found;
        let Found::Entry(entry) = found else {
            return;
        };
        entry_line(rt, entry);
        at = handed.at;
    }
}

// A text without the first line gives a job of version 1.
fn text(rt: &HostRuntime, job: &[u8]) {
    if version_of(job) == 2 {
        say_line!(rt; "version 2");
    }
    lines(rt, job);
    say_line!(rt; "# {}", Entries(count_of(job)));
}

fn of_job(rt: &HostRuntime, job: &[u8]) -> Result<End, Stop>
    ensures { IfOk result (λ end. end ≡ End.Answered (number_of_fault (fault_in job.now))) }
{
    let number = fault_number(fault_of(job));
    if number != 0 {
        job_refusals::headline(rt, job, number, 0);
        return Ok(End::Answered(number));
    }
    text(rt, job);
    Ok(End::Answered(0))
}

pub fn run(rt: &HostRuntime) -> Result<End, Stop>
    ensures { IfOk result (λ end. (job : List ℕ) × (end ≡ End.Answered (number_of_fault (fault_in job)))) }
{
    let words = asked(rt, Takes::words(Role::Job, Role::Other, 1, 1))?;
    let mut bytes = [0u8; 3080];
    of_job(rt, load_job(rt, needed(rt, words.first)?, &mut bytes)?)
}
