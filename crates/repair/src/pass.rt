// The repair pass over listed rows (request 2026-11).
ghost use Rattle.std.specs.Prelude.{◌≡◌, false, ◌≤◌, length, set};
ghost use Rattle.answer.specs.Refusals.{number_of};
ghost use Rattle.chip.specs.Slices.{row_at};
ghost use Rattle.chip.specs.Tallies.{◌gains◌, with_gain, with_gains};
ghost use Rattle.repair.specs.Finding.{found_of, left_by, pulses_by};
ghost use Rattle.chip.specs.declared.state.State.{State as Latched};
ghost use Rattle.repair.specs.Pass as spec;
ghost use Rattle.repair.specs.Permits.{writable_pages};

use crate::finding::{Found, found_of};
use crate::list::{out_of_order, some_too_large};
use crate::permits::{writable, writable_pages};
use answer::answers::spent;
use answer::refusals::Refusal;
use burn::burning::{beside, burn_row};
use chip::pages::Page;
use chip::slices::row_at;
use chip::state::{Outcome, State};
use row::writing::Burnt;

// Whether a pass over a list is refused, by the pages of a state and the length of a report.
fn check_repair(rows: &[u32], pages: &[bool], list: &[u32], report: &[u32]) -> Result<(), Refusal>
    ensures { (latched : Latched) → pages.now ≡ writable_pages latched
        → number_of result ≡ spec.repair_number rows.now latched list.now report.now }
{
    if rows.len() != Page::CHIP_ROWS {
        return Err(Refusal::NotWhole);
    }
    if out_of_order(list) {
        return Err(Refusal::OutOfPlace);
    }
    if report.len() < list.len() {
        return Err(Refusal::NoRoom);
    }
    if some_too_large(rows, pages, list) {
        return Err(Refusal::TooLarge);
    }
    Ok(())
}

// Looks at a row that Secure may or may not write, burns the bit that it lost, and counts it. The page of a row that gains none is named too.
#[tactic(auto, using(crate::proofs::Bits::found_low))]
fn repair_row(rows: &mut [u32], tallies: &mut [u16], row: u32, may: bool) -> Found
    ensures { let found = found_of may (row_at rows.old row) in
        (result ≡ found)
        × (rows.new ≡ set rows.old row (left_by found (row_at rows.old row)))
        × (tallies.new ≡ with_gain tallies.old (row gains pulses_by found)) }
{
    let held = row_at(rows, row);
    let found = found_of(may, held);
    let burnt = Burnt {
        row: found.left(held),
        pulses: found.pulses(),
    };
    burn_row(rows, tallies, row, burnt);
    found
}

// Repairs the listed rows in order, by the pages of a state, and puts the entry of each into the report. The pulses that it took.
fn all_repaired(
    rows: &mut [u32],
    tallies: &mut [u16],
    pages: &[bool],
    list: &[u32],
    report: &mut [u32],
) -> u32
    requires list_value { spec.out_of_order 0 list.now ≡ false }
    requires list_in_bounds { length list.now ≤ length report.old }
    ensures { (latched : Latched) → pages.now ≡ writable_pages latched
        → (let looks = spec.looks rows.old latched list.now in
        (result ≡ spec.mending_pulses looks)
        × (rows.new ≡ spec.mended_rows rows.old looks)
        × (tallies.new ≡ with_gains tallies.old (spec.mending_gains looks))
        × (report.new ≡ spec.report_from report.old 0 looks)) }
{
    let mut pulses: u32 = 0;
    for (i, row) in list.iter().enumerate() {
        let found = repair_row(rows, tallies, *row, writable(pages, *row));
        report[i] = found.report_entry();
        pulses += found.pulses();
    }
    pulses
}

// Burns the lost 1 of each listed row that can be mended, and reports what was found of each.
pub fn repair(rows: &mut [u32], state: State, list: &[u32], report: &mut [u32]) -> Outcome
    ensures { (result ≡ (spec.repair rows.old state list.now report.old).left.outcome)
        × (rows.new ≡ (spec.repair rows.old state list.now report.old).left.rows)
        × (report.new ≡ (spec.repair rows.old state list.now report.old).report) }
{
    let pages = writable_pages(state);
    if let Err(refusal) = check_repair(rows, &pages, list, report) {
        return Outcome {
            answer: refusal.into(),
            state,
        };
    }
    let mut tallies = state.tallies;
    let pulses = all_repaired(rows, &mut tallies, &pages, list, report);
    beside(spent(0, pulses), state, tallies)
}
