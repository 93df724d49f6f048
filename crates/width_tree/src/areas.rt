//! The least areas, in wires times cycles, that modules take within the intervals of their widths, and their sum.
ghost use Rattle.std.specs.Prelude.{◌≡◌, ◌+◌, ◌*◌, ◌^◌, ◌<◌, ◌≤◌, length, slice_index, slice_set, sum};
ghost use Rattle.width_tree.specs.Tables.{place_of_time};
ghost use Rattle.width_tree.specs.Findings.{area_by};

use crate::intervals::Interval;
use crate::tables::tam_time;

/// What a case gives the check: the widths that the bus of each module may have, by the module's place, the least area
/// that the module takes within them, and the sum of these areas.
#[derive(Drop)]
pub struct Widths {
    pub intervals: Vec<Interval>,
    pub areas: Vec<u128>,
    pub total: u128,
}

/// The area that a module takes on a width.
fn area_on(times: &[u64], place: usize, width: u64) -> u128
    requires some { 1 ≤ width }
    requires few { width ≤ 256 }
    requires room { place * 256 + 256 ≤ length times.now }
    ensures { result ≡ width * slice_index times.now (place_of_time place width) }
{
    u128::from(width) * u128::from(tam_time(times, place, width))
}

/// The least area that the module at a place takes within an interval.
pub fn least_area(times: &[u64], place: usize, interval: Interval) -> u128
    requires some { 1 ≤ interval.low }
    requires order { interval.low ≤ interval.high }
    requires few { interval.high ≤ 256 }
    requires room { place * 256 + 256 ≤ length times.now }
    ensures { result ≡ area_by times.now interval place }
{
    let low = interval.low;
    let mut least = area_on(times, place, low);
    for width in low + 1..interval.high + 1 {
        least = least.min(area_on(times, place, width));
    }
    least
}

/// Gives a module another interval, with the least area there.
pub fn put_interval(widths: &mut Widths, place: usize, interval: Interval, area: u128)
    requires place { place < length widths.old.intervals.items }
    requires areas { length widths.old.areas.items ≡ length widths.old.intervals.items }
    requires total { widths.old.total ≡ sum widths.old.areas.items }
    requires fits { widths.old.total + area < 2 ^ 128 }
    ensures intervals { widths.new.intervals.items
        ≡ slice_set widths.old.intervals.items place interval }
    ensures areas { widths.new.areas.items ≡ slice_set widths.old.areas.items place area }
    ensures total { widths.new.total ≡ sum widths.new.areas.items }
{
    widths.total -= widths.areas[place];
    widths.total += area;
    widths.intervals[place] = interval;
    widths.areas[place] = area;
}
