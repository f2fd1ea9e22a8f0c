// The list that the crew asks for: the rows of a range, the first of some rows, and the first row that is out of place (request 2026-11).
ghost use Rattle.std.specs.Prelude.{◌≡◌, ◌-◌, ◌≤◌, take};
ghost use Rattle.mending.specs.Lists as spec;

use chip::slices::put;
use repair::list::out_of_order;

// The first so many rows of a list, or all of it where it has fewer.
pub(crate) fn first(list: &[u32], count: usize) -> &[u32]
    ensures { result.now ≡ take count list.now }
{
    if list.len() < count {
        return list;
    }
    &list[0..count]
}

// Puts the rows from one on into a list, as far as the one before another.
pub(crate) fn put_range(list: &mut [u32], from: u32, past: u32)
    requires { from ≤ past }
    ensures { list.new ≡ spec.with_range list.old from (past - from) }
{
    let count = past - from;
    // By its place: of a slice that is lent item by item a proof knows the length alone.
    for i in 0..count {
        put(list, i, from + i);
    }
}

// The place of the first row that has a list refused with 11, found by the test of the pass itself. 0 where there is none, of which `FirstOut` says
// nothing.
pub(crate) fn first_out(list: &[u32]) -> usize
    ensures { spec.FirstOut list.now result }
{
    // By its place, which is what is looked for.
    for place in 0..list.len() {
        if out_of_order(first(list, place + 1)) {
            return place;
        }
    }
    0
}
