//! What one live test drives and compares, a stretch of Shifts at a time: as many as lie between two other operations, at
//! most 64. In the Shifts before a capture a chain is driven with its stimulus, the cell farthest from wire in first, and in
//! those behind it shows its response, the last cell first.
ghost use Rattle.std.specs.Prelude.{◌≡◌, ℕ, ◌+◌, ◌-◌, ◌*◌, ◌^◌, ◌<◌, ◌≤◌, true, Some, None, List, length};
ghost use Rattle.plan_model.specs.Moments.{IsMoment};
ghost use Rattle.plan_model.specs.Plans.{PlannedTest};
ghost use Rattle.plan_model.specs.Runs.{Content};
ghost use Rattle.plan_model.specs.declared.moments.NearCapture.{NearCapture};
ghost use Rattle.plan_model.specs.declared.moments.Moment.TheVariants as moment;
ghost use Rattle.vector_lines.specs.Lanes.{IsFilled, AreLanes, AreSomeLanes};
ghost use Rattle.vector_lines.specs.Wires.{AreOnWires};
ghost use Rattle.vector_lines.specs.Marks.{IsKey, Marks};
ghost use Rattle.vector_lines.specs.Vectors.{AreChainsPut, ArePlayed, AreShifts, HasLane, HasSomeLane, IsDriven, IsKeptElsewhere, IsLineOf, IsPlayed, IsRead};

use crate::contents::Contents;
use crate::lane::Lane;
use crate::lines::{Place, put_blanks};
use crate::path::Path;
use plan_model::{Moment, NearCapture, Phases};

/// The most Shifts of a stretch, the bits of a word.
const MOST: u64 = 64;

/// `count` Shifts, one a cycle, and the captures ahead of the first one and behind it.
#[derive(Clone, Copy, Drop)]
struct Stretch {
    ahead: Option<NearCapture>,
    behind: Option<NearCapture>,
    count: usize,
}

/// How many Shifts there are from one on behind the last capture, at least itself.
fn shifts_to_end(phases: &Phases, behind: Option<NearCapture>) -> u64
    ensures some { 1 ≤ result }
    ensures shifts { (n : ℕ) → IsMoment phases.now n (moment.Shift None behind) →
        AreShifts phases.now n None behind result }
{
    match behind {
        Some(near) => {
            if near.shifts < phases.so {
                phases.so - near.shifts
            } else {
                1
            }
        }
        None => 1,
    }
}

/// How many Shifts there are from one on up to the next capture, at least itself.
fn shifts_to_come(phases: &Phases, ahead: Option<NearCapture>, behind: Option<NearCapture>) -> u64
    ensures some { 1 ≤ result }
    ensures back { (t : NearCapture) → ahead ≡ Some t → result ≤ t.shifts + 1 }
    ensures shifts { (n : ℕ) → IsMoment phases.now n (moment.Shift ahead behind) →
        AreShifts phases.now n ahead behind result }
{
    match ahead {
        Some(near) => near.shifts.saturating_add(1),
        None => shifts_to_end(phases, behind),
    }
}

/// How many of `count` Shifts come before the first bit of a chain that loads `loads` cells, where `shifts` Shifts lie between the first
/// of them and a capture.
fn idle_shifts(shifts: usize, loads: usize, count: usize) -> usize
    ensures few { result ≤ count }
    ensures idle { (i : ℕ) → i < result → loads + i ≤ shifts }
    ensures rest { result < count → shifts < loads + result }
{
    if shifts < loads {
        0
    } else {
        (shifts - loads).saturating_add(1).min(count)
    }
}

/// Writes the bits that a chain loads in a stretch into a column, one a line. The first Shifts of a chain that is shorter than others
/// carry 0, which stands there already.
fn put_load<C: Contents>(
    text: &mut [u8],
    at: Place,
    path: &Path,
    contents: &C,
    key: u64,
    stretch: Stretch,
)
    requires narrow { at.wires ≤ 256 }
    requires key { IsKey (C.keys contents.now) key }
    requires few { stretch.count ≤ 64 }
    requires back { (t : NearCapture) → stretch.ahead ≡ Some t → stretch.count ≤ t.shifts + 1 }
    requires column { at.column < 2 * at.wires + 2 }
    requires rows { (at.row + stretch.count) * (2 * at.wires + 2) ≤ length text.old }
    ensures long { length text.new ≡ length text.old }
    ensures driven { IsDriven (C.drive contents.now key) path.now at.wires at.row stretch.count
        at.column stretch.ahead text.old text.new }
    ensures others { IsKeptElsewhere at.wires at.row stretch.count at.column text.old text.new }
{
    match stretch.ahead {
        Some(near) => {
            let loads = path.loads.len();
            let shifts = near.shifts as usize;
            let idle = idle_shifts(shifts, loads, stretch.count);
            if idle >= stretch.count {
                return;
            }
            let bits = contents.stimulus(key, near.pattern);
            let below = Place {
                row: at.row + idle,
                ..at
            };
            path.loads
                .put_back(&bits, shifts - idle, stretch.count - idle, text, below);
        }
        None => {}
    }
}

/// Writes the marks of what is read of a chain in a stretch into a column, one a line.
fn put_answer<C: Contents>(
    text: &mut [u8],
    at: Place,
    path: &Path,
    contents: &C,
    key: u64,
    stretch: Stretch,
)
    requires narrow { at.wires ≤ 256 }
    requires key { IsKey (C.keys contents.now) key }
    requires some { 1 ≤ stretch.count }
    requires few { stretch.count ≤ 64 }
    requires column { at.column < 2 * at.wires + 2 }
    requires rows { (at.row + stretch.count) * (2 * at.wires + 2) ≤ length text.old }
    ensures long { length text.new ≡ length text.old }
    ensures read { IsRead (C.mark contents.now key) path.now at.wires at.row stretch.count at.column
        stretch.behind text.old text.new }
    ensures others { IsKeptElsewhere at.wires at.row stretch.count at.column text.old text.new }
{
    match stretch.behind {
        Some(near) => {
            let answers = path.answers.len();
            let shifts = near.shifts as usize;
            if shifts >= answers {
                return;
            }
            let left = answers - shifts;
            let bits = contents.response(key, near.pattern);
            let count = stretch.count.min(left);
            path.answers.put_back(&bits, left - 1, count, text, at);
        }
        None => {}
    }
}

/// Writes what the chains of a test drive and compare in a stretch, from a row on.
fn put_chains<C: Contents>(
    text: &mut [u8],
    wires: usize,
    row: usize,
    lane: &Lane,
    contents: &C,
    stretch: Stretch,
)
    requires narrow { wires ≤ 256 }
    requires key { IsKey (C.keys contents.now) lane.now.key }
    requires some { 1 ≤ stretch.count }
    requires few { stretch.count ≤ 64 }
    requires back { (t : NearCapture) → stretch.ahead ≡ Some t → stretch.count ≤ t.shifts + 1 }
    requires columns { lane.now.first_wire + length lane.now.paths.items ≤ wires }
    requires rows { (row + stretch.count) * (2 * wires + 2) ≤ length text.old }
    ensures { AreChainsPut (C.drive contents.now lane.now.key) (C.mark contents.now lane.now.key)
        lane.now.paths.items (length lane.now.paths.items) wires row stretch.count
        lane.now.first_wire stretch.ahead stretch.behind text.old text.new }
{
    for chain in 0..lane.paths.len() {
        let path = &lane.paths[chain];
        let wire = lane.first_wire + chain;
        let drive = Place {
            wires,
            row,
            column: wire,
        };
        let mark = Place {
            wires,
            row,
            column: wires + 1 + wire,
        };
        put_load(text, drive, path, contents, lane.key, stretch);
        put_answer(text, mark, path, contents, lane.key, stretch);
    }
}

/// Writes what a test drives and compares in a stretch that begins with a cycle, or in that cycle where it is no Shift.
/// Answers how many cycles these are, at least one and at most `most`.
fn put_stretch<C: Contents>(
    text: &mut [u8],
    wires: usize,
    row: usize,
    lane: &Lane,
    contents: &C,
    cycle: u64,
    most: u64,
) -> u64
    requires narrow { wires ≤ 256 }
    requires lane { HasSomeLane (C.keys contents.now) wires lane.now }
    requires tam { lane.now.tam ≡ true }
    requires begun { lane.now.start ≤ cycle }
    requires left { 1 ≤ most }
    requires ends { cycle + most ≤ lane.now.end }
    requires rows { (row + most) * (2 * wires + 2) ≤ length text.old }
    ensures some { 1 ≤ result }
    ensures few { result ≤ most }
    ensures played { (content : Content) (marks : Marks) (tests : List PlannedTest) (i : ℕ)
        (t : PlannedTest) →
        HasLane (IsFilled (C.drive contents.now) (C.mark contents.now) content marks) tests wires i
        t lane.now →
        ArePlayed content marks t wires cycle (cycle + result) row text.old text.new }
{
    match lane.phases.at(cycle - lane.start) {
        Moment::Shift { ahead, behind } => {
            let to_come = shifts_to_come(&lane.phases, ahead, behind);
            let count = to_come.min(most).min(MOST);
            let stretch = Stretch {
                ahead,
                behind,
                count: count as usize,
            };
            put_chains(text, wires, row, lane, contents, stretch);
            count
        }
        Moment::Setup => 1,
        Moment::Capture { .. } => 1,
    }
}

/// Writes what a test drives and compares in `count` cycles from one on, each into a line of its own. In a blank line of a
/// cycle its bits then stand on the wires of its bus.
fn put_test<C: Contents>(
    text: &mut [u8],
    wires: usize,
    lane: &Lane,
    contents: &C,
    from: u64,
    count: u64,
)
    requires narrow { wires ≤ 256 }
    requires lane { HasSomeLane (C.keys contents.now) wires lane.now }
    requires fits { from + count < 2 ^ 64 }
    requires rows { count * (2 * wires + 2) ≤ length text.old }
    ensures long { length text.new ≡ length text.old }
    ensures played { (content : Content) (marks : Marks) (tests : List PlannedTest) (i : ℕ)
        (t : PlannedTest) →
        HasLane (IsFilled (C.drive contents.now) (C.mark contents.now) content marks) tests wires i
        t lane.now → (r : ℕ) → r < count →
        IsPlayed content marks t wires (from + r) r text.old text.new }
{
    if !lane.tam {
        return;
    }
    let end = lane.end.min(from + count);
    let mut cycle = lane.start.max(from);
    while cycle < end {
        let row = (cycle - from) as usize;
        cycle += put_stretch(text, wires, row, lane, contents, cycle, end - cycle);
    }
}

/// Writes the lines of `count` cycles from one on: first blank ones, and then test by test what is driven and compared.
pub fn put_tests<C: Contents>(
    text: &mut [u8],
    wires: usize,
    lanes: &[Lane],
    contents: &C,
    from: u64,
    count: u64,
)
    requires narrow { wires ≤ 256 }
    requires lanes { AreSomeLanes (C.keys contents.now) lanes.now wires }
    requires fits { from + count < 2 ^ 64 }
    requires rows { count * (2 * wires + 2) ≤ length text.old }
    ensures long { length text.new ≡ length text.old }
    ensures lines { (content : Content) (marks : Marks) (tests : List PlannedTest) →
        AreLanes (IsFilled (C.drive contents.now) (C.mark contents.now) content marks) tests
        lanes.now → AreOnWires tests wires → (r : ℕ) → r < count →
        IsLineOf content marks tests wires (from + r) r text.new }
{
    put_blanks(text, wires, count as usize);
    for place in 0..lanes.len() {
        put_test(text, wires, &lanes[place], contents, from, count);
    }
}
