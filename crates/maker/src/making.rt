// The call that makes a job of two images (request 2026-04).
ghost use Rattle.std.specs.Prelude.{◌≡◌, ◌+◌, ◌≤◌, ◌<◌, length};
ghost use Rattle.answer.specs.Refusals.{number_of};
ghost use Rattle.form.specs.Writing.{with_entries};
ghost use Rattle.maker.specs.Comparing.{judged_by};
ghost use Rattle.maker.specs.Images.{change_at, changes};
ghost use Rattle.maker.specs.Making as spec;

use crate::comparing::{Compared, all_compared};
use answer::answers::{Answer, told};
use answer::refusals::Refusal;
use chip::pages::Page;
use form::entries::Entry;
use form::faults::MOST_ENTRIES;
use form::writing::{put_entry, put_head};

// Whether two whole images that show this have a job, in an output of so many bytes.
fn check_making(shown: Compared, room: usize) -> Result<(), Refusal>
    ensures { number_of result ≡ judged_by shown room }
{
    if shown.large {
        return Err(Refusal::TooLarge);
    }
    if shown.lost {
        return Err(Refusal::BitLost);
    }
    if shown.kept {
        return Err(Refusal::OutOfPlace);
    }
    if MOST_ENTRIES < shown.changes {
        return Err(Refusal::TooMany);
    }
    if room < 7 + 6 * (shown.changes as usize) {
        return Err(Refusal::NoRoom);
    }
    Ok(())
}

// Puts the entry of a row that is to change, and none for any other. How many entries there then are.
#[tactic(auto, using(crate::proofs::Changing::one_change, crate::proofs::Changing::no_change), unfolding(form::specs::Writing::with_entries))]
fn put_change(out: &mut [u8], count: u32, row: u32, present: u32, wanted: u32) -> u32
    requires count_bound { count ≤ 4096 }
    requires row_bound { row < 0xf40 }
    ensures { (result ≡ count + length (change_at row present wanted))
        × (out.new ≡ with_entries out.old count (change_at row present wanted)) }
{
    if present == wanted {
        return count;
    }
    put_entry(
        out,
        count,
        Entry {
            row,
            kind: 1,
            value: wanted,
        },
    );
    count + 1
}

// Puts an entry for each row that is to change.
fn put_changes(present: &[u32], wanted: &[u32], out: &mut [u8])
    requires present_len { length present.now ≡ 4096 }
    requires wanted_len { length wanted.now ≡ 4096 }
    ensures { out.new ≡ with_entries out.old 0 (changes present.now wanted.now) }
{
    let mut count = 0;
    for row in 0..Page::FIRST_KEPT_ROW {
        let at = row as usize;
        count = put_change(out, count, row, present[at], wanted[at]);
    }
}

// Makes the job that burns a present image into a wanted one. Its length is the value.
#[tactic(auto, using(crate::proofs::Made::no_present, crate::proofs::Made::no_wanted, crate::proofs::Made::both_whole, crate::proofs::Made::make_refused, crate::proofs::Made::make_done))]
pub fn make_job(present: &[u32], wanted: &[u32], out: &mut [u8]) -> Answer
    ensures { (result ≡ (spec.make_job present.now wanted.now out.old).answer)
        × (out.new ≡ (spec.make_job present.now wanted.now out.old).out) }
{
    if present.len() != Page::CHIP_ROWS || wanted.len() != Page::CHIP_ROWS {
        return Refusal::NotWhole.into();
    }
    let shown = all_compared(present, wanted);
    match check_making(shown, out.len()) {
        Ok(()) => {
            put_head(out, 1, shown.changes);
            put_changes(present, wanted, out);
            told(7 + 6 * shown.changes)
        }
        Err(refusal) => refusal.into(),
    }
}
