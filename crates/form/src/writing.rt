// Entries to job bytes (document 01, "Jobs"). Past a job's end nothing is kept, so that no caller needs to ask first;
// of a number that is wider than its place the low bits are kept.
ghost use Rattle.std.specs.Prelude.{◌≡◌, ◌+◌, ◌%◌, ◌^◌, ◌<◌, set};
ghost use Rattle.form.specs.Writing as spec;

use crate::entries::Entry;

// Puts a number's low byte. By `get_mut` the proof does not close: of None its contract leaves the bytes open.
fn put(job: &mut [u8], at: usize, number: u32)
    ensures { job.new ≡ set job.old at (number % 256) }
{
    if at < job.len() {
        job[at] = (number % 256) as u8;
    }
}

// Puts a number of 16 bits. The bytes, a place and a number go in each by itself, as `with_bytes` has them.
#[tactic(auto, unfolding(crate::specs::Writing::with_bytes))]
fn put_two(job: &mut [u8], at: usize, number: u32)
    requires { at + 2 < 2 ^ 40 }
    ensures { job.new ≡ spec.with_bytes job.old at (spec.two_bytes number) }
{
    put(job, at, number);
    put(job, at + 1, number / 256);
}

// Puts a number of 24 bits.
#[tactic(auto, unfolding(crate::specs::Writing::with_bytes))]
fn put_three(job: &mut [u8], at: usize, number: u32)
    requires { at + 3 < 2 ^ 40 }
    ensures { job.new ≡ spec.with_bytes job.old at (spec.three_bytes number) }
{
    put_two(job, at, number);
    put(job, at + 2, number / 65536);
}

// Puts the mark, the version and the count of a job. The mark has three bytes: a loop over them is no plainer.
#[tactic(auto, unfolding(crate::specs::Writing::with_bytes))]
pub fn put_head(job: &mut [u8], version: u32, count: u32)
    ensures { job.new ≡ spec.with_head job.old version count }
{
    put(job, 0, 0x4f);
    put(job, 1, 0x54);
    put(job, 2, 0x4a);
    put_two(job, 3, version);
    put_two(job, 5, count);
}

// Puts the i-th entry of a job.
#[tactic(auto, unfolding(crate::specs::Writing::with_bytes))]
pub fn put_entry(job: &mut [u8], i: u32, entry: Entry)
    ensures { job.new ≡ spec.with_entry job.old i entry }
{
    let at = 7 + 6 * (i as usize);
    put_two(job, at, entry.row);
    put(job, at + 2, entry.kind);
    put_three(job, at + 3, entry.value);
}
