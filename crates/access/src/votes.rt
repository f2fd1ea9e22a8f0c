// Reading a vote (document 01, "Votes").
ghost use Rattle.std.specs.Prelude.{◌≡◌, ◌+◌, ◌≤◌, length};
ghost use Rattle.answer.specs.Refusals.{number_of};
ghost use Rattle.answer.specs.Rungs.{first_of};
ghost use Rattle.access.specs.Votes as spec;

use crate::judging::check_row;
use answer::answers::{Answer, told};
use answer::refusals::Refusal;
use chip::callers::LAST_CALLER;
use chip::pages::Page;
use chip::state::State;
use permit::permission::may_read;
use vote::voting::{Gathered, threshold, vote};

// Whether one of `count` rows, taken upward, is refused: the first that is answers for all.
#[tactic(auto, using(crate::proofs::Upward::upward_next, crate::proofs::Upward::upward_stops, crate::proofs::Upward::upward_end))]
fn check_group(rows: &[u32], state: State, caller: u32, row: u32, count: u32) -> Result<(), Refusal>
    requires { row + count ≤ 4096 }
    ensures { number_of result ≡ first_of (spec.group_rungs rows.now state caller row count) }
{
    for at in row..row + count {
        check_row(rows, state, may_read(state, caller, at), at)?;
    }
    Ok(())
}

// Whether a vote is refused.
fn check_vote(rows: &[u32], state: State, caller: u32, row: u32, count: u32) -> Result<(), Refusal>
    ensures { number_of result ≡ spec.read_vote_number rows.now state caller row count }
{
    if rows.len() != Page::CHIP_ROWS {
        return Err(Refusal::NotWhole);
    }
    if LAST_CALLER < caller {
        return Err(Refusal::NoSuchNumber);
    }
    if count != 3 && count != 8 {
        return Err(Refusal::NoSuchNumber);
    }
    if Page::CHIP_ROWS as u32 - count < row {
        return Err(Refusal::NoSuchRow);
    }
    if Page::FIRST_LOCK_ROW - count < row {
        return Err(Refusal::LockRow);
    }
    check_group(rows, state, caller, row, count)
}

// The rows of a group, gathered, with zeros behind them.
fn gathered(rows: &[u32], row: u32, count: u32) -> Gathered
    requires { (row + count ≤ length rows.now) × (count ≤ 8) }
    ensures { result ≡ spec.gathered rows.now row count }
{
    let first = row as usize;
    let n = count as usize;
    let mut group = [0; 8];
    for i in 0..n {
        group[i] = rows[first + i];
    }
    group
}

// Reads the vote of three or eight rows. All are taken before any bit is judged.
#[tactic(auto, using(answer::proofs::Numbered::not_done, crate::proofs::Passing::vote_passed), unfolding(crate::specs::Votes::read_vote))]
pub fn read_vote(rows: &[u32], state: State, caller: u32, row: u32, count: u32) -> Answer
    ensures { result ≡ spec.read_vote rows.now state caller row count }
{
    if let Err(refusal) = check_vote(rows, state, caller, row, count) {
        return refusal.into();
    }
    let group = gathered(rows, row, count);
    told(vote(group, count, threshold(count)))
}
