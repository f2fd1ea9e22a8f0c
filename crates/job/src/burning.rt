// Burning entries in order, up to a limit of pulses (document 01, "Jobs").
ghost use Rattle.std.specs.Prelude.{◌≡◌, ◌-◌};
ghost use Rattle.chip.specs.Tallies.{with_gains};
ghost use Rattle.form.specs.Entries.{entries_from};
ghost use Rattle.job.specs.Burning as spec;

use burn::burning::burn_row;
use chip::slices::row_at;
use chip::tallies::gain;
use form::entries::entry_at;
use judge::verdicts::entry_burnt;
use row::upward::burnt_upward;
use row::writing::Burnt;

// How far a rehearsal came: the pulses spent, and the leading entries whose bits all stand.
#[derive(Clone, Copy, Debug, PartialEq, Eq)]
pub struct Reached {
    pub pulses: u32,
    pub place: u32,
}

// Names the pages of the entries from `first` up to `count`, whose rows gain no bit: those after the one in which the pulses end.
fn name_rest(tallies: &mut [u16], job: &[u8], first: u32, count: u32)
    ensures { tallies.new ≡ with_gains tallies.old (spec.cut_gained 0 (entries_from job.now first (count - first))) }
{
    for i in first..count {
        gain(tallies, entry_at(job, i).row, 0);
    }
}

// The count stands beside the job, since this is promised of any first entries of it.
// Burns the first `count` entries in order until the pulses of the limit are spent, and counts the new bits of each.
pub fn rehearsed(
    rows: &mut [u32],
    tallies: &mut [u16],
    job: &[u8],
    count: u32,
    limit: u32,
) -> Reached
    ensures { let reached = spec.rehearsed rows.old limit (entries_from job.now 0 count) in
        (rows.new ≡ reached.rows) × (tallies.new ≡ with_gains tallies.old reached.gained)
        × (result.pulses ≡ reached.pulses) × (result.place ≡ reached.place) }
{
    let mut unspent = limit;
    for i in 0..count {
        let entry = entry_at(job, i);
        let row = entry.row;
        let old = row_at(rows, row);
        let burnt = entry_burnt(old, entry);
        if unspent < burnt.pulses {
            let cut = Burnt {
                row: burnt_upward(unspent, old, burnt.row),
                pulses: unspent,
            };
            burn_row(rows, tallies, row, cut);
            name_rest(tallies, job, i + 1, count);
            return Reached {
                pulses: limit,
                place: i,
            };
        }
        burn_row(rows, tallies, row, burnt);
        unspent -= burnt.pulses;
    }
    Reached {
        pulses: limit - unspent,
        place: count,
    }
}
