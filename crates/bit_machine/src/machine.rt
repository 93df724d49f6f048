//! All live tests of a chip, and which of them each wire belongs to.
ghost use Rattle.std.specs.Prelude.{◌≡◌, ◌≢◌, ℕ, ◌+◌, ◌^◌, ◌<◌, ◌≤◌, ◌⊎◌, List, Some, None, length, get_or, slice_get, slice_index_or, true, false, IfSome, IfNone};
ghost use Rattle.plan_model.specs.Plans.{PlannedTest};
ghost use Rattle.plan_model.specs.Runs.{Content, carried, shown, step};
ghost use Rattle.bit_machine.specs.Chips.{captures_at, right_loads_at};
ghost use Rattle.bit_machine.specs.Lanes.{lane_on, IsBusy, IsSteppable};
ghost use Rattle.bit_machine.specs.declared.stepped.SteppedLane.{SteppedLane};
ghost use Rattle.bit_machine.specs.Machines.{lanes_state, FitLanes, AreStepped, AreUsers, AreNow, AreNowBelow, AreSomeStepped, AreSomeUsers, IsStood, IsUnchanged, IsLaneUnchanged, IsMachine, IsSomeMachine, HasWire, HasNoUser, IsWireStep, IsWireCapture, IsMark, one_capture, one_right};
ghost use Rattle.vector_lines.specs.Wires.{AreOnWires};

use crate::stepped::SteppedLane;
use vector_lines::Lane;

/// The live tests of a chip under test, in the order of the chip, and for each wire the place of the test that uses it.
#[derive(Drop)]
pub struct Machine {
    pub lanes: Vec<SteppedLane>,
    pub users: Vec<Option<usize>>,
    /// The cycle that is next, and the next one at which a test begins or has ended.
    pub cycle: u64,
    pub change: u64,
}

/// Counts a capture, and whether it found its stimulus.
fn count_capture(counts: (u64, u64), found: Option<bool>) -> (u64, u64)
    requires few { counts.1 ≤ counts.0 }
    requires fit { counts.0 < 2 ^ 63 }
    ensures captures { result.0 ≡ counts.0 + one_capture found }
    ensures right { result.1 ≡ counts.1 + one_right found }
    ensures few { result.1 ≤ result.0 }
    ensures one { result.0 ≤ counts.0 + 1 }
{
    match found {
        Some(true) => (counts.0 + 1, counts.1 + 1),
        Some(false) => (counts.0 + 1, counts.1),
        None => counts,
    }
}

/// Gives the wires of a test that is active to it.
fn give_wires(users: &mut [Option<usize>], lane: &Lane, place: usize)
    requires { lane.now.first_wire + lane.now.width ≤ length users.old }
    ensures long { length users.new ≡ length users.old }
    ensures given { (w : ℕ) → lane.now.first_wire ≤ w → w < lane.now.first_wire + lane.now.width →
        slice_get users.new w ≡ Some (Some place) }
    ensures others { (w : ℕ) →
        (w < lane.now.first_wire) ⊎ (lane.now.first_wire + lane.now.width ≤ w) →
        slice_get users.new w ≡ slice_get users.old w }
{
    for wire in lane.first_wire..lane.first_wire + lane.width {
        users[wire] = Some(place);
    }
}

/// Gives the wires to nobody.
fn clear_users(users: &mut [Option<usize>])
    ensures long { length users.new ≡ length users.old }
    ensures none { (w i : ℕ) → slice_get users.new w ≡ Some (Some i) → ⊥ }
{
    for wire in 0..users.len() {
        users[wire] = None;
    }
}

/// A cycle, where it comes after this one and before the change; else the change.
fn earlier(cycle: u64, event: u64, change: u64) -> u64
    ensures most { result ≤ change }
    ensures event { IsUnchanged cycle result event }
{
    if cycle < event {
        change.min(event)
    } else {
        change
    }
}

/// The next cycle after this one at which the test begins or has ended, where it comes before the change.
fn sooner(lane: &Lane, cycle: u64, change: u64) -> u64
    ensures most { result ≤ change }
    ensures lane { IsLaneUnchanged cycle result lane.now }
{
    earlier(cycle, lane.end, earlier(cycle, lane.start, change))
}

/// The next cycle after this one at which a test begins or has ended.
fn next_change(lanes: &[SteppedLane], cycle: u64) -> u64
    ensures { (i : ℕ) (l : SteppedLane) → slice_get lanes.now i ≡ Some l →
        IsLaneUnchanged cycle result l.lane }
{
    let mut change = u64::MAX;
    for stepped in lanes {
        change = sooner(&stepped.lane, cycle, change);
    }
    change
}

/// Whether a test is active at a cycle, on the wires of its bus.
fn is_on(lane: &Lane, cycle: u64) -> bool
    ensures { result ≡ lane_on lane.now cycle }
{
    lane.tam && (lane.start <= cycle && cycle < lane.end)
}

/// Gives the wires of a test to it, if it is active at a cycle.
fn give_active(users: &mut [Option<usize>], lane: &Lane, place: usize, cycle: u64)
    requires { lane.now.tam ≡ true → lane.now.first_wire + lane.now.width ≤ length users.old }
    ensures long { length users.new ≡ length users.old }
    ensures given { lane_on lane.now cycle ≡ true → (w : ℕ) → lane.now.first_wire ≤ w →
        w < lane.now.first_wire + lane.now.width → slice_get users.new w ≡ Some (Some place) }
    ensures others { lane_on lane.now cycle ≡ true → (w : ℕ) →
        (w < lane.now.first_wire) ⊎ (lane.now.first_wire + lane.now.width ≤ w) →
        slice_get users.new w ≡ slice_get users.old w }
    ensures off { lane_on lane.now cycle ≡ false → users.new ≡ users.old }
{
    if is_on(lane, cycle) {
        give_wires(users, lane, place);
    }
}

/// Which test each wire belongs to at a cycle.
fn assign_wires(users: &mut [Option<usize>], lanes: &[SteppedLane], cycle: u64)
    requires { FitLanes lanes.now (length users.old) }
    ensures long { length users.new ≡ length users.old }
    ensures users { (content : Content) (tests : List PlannedTest) →
        AreStepped content tests lanes.now → AreOnWires tests (length users.old) →
        AreUsers tests cycle users.new }
{
    clear_users(users);
    for place in 0..lanes.len() {
        give_active(users, &lanes[place].lane, place, cycle);
    }
}

/// The test of a place stands at a cycle, where a wire is the first one of its bus.
fn stand_at(lanes: &mut [SteppedLane], place: usize, wire: usize, cycle: u64)
    requires within { place < length lanes.old }
    requires ready { (l : SteppedLane) → slice_get lanes.old place ≡ Some l →
        IsSteppable l × IsBusy l.lane cycle }
    ensures long { length lanes.new ≡ length lanes.old }
    ensures others { (i : ℕ) → i ≢ place → slice_get lanes.new i ≡ slice_get lanes.old i }
    ensures own { (l : SteppedLane) → slice_get lanes.new place ≡ Some l →
        IsStood lanes.old place wire cycle l }
{
    if lanes[place].lane.first_wire != wire {
        return;
    }
    lanes[place].stand(cycle);
}

/// The test that uses a wire stands at a cycle, where the wire is the first one of its bus.
fn stand_wire(lanes: &mut [SteppedLane], users: &[Option<usize>], wire: usize, cycle: u64)
    requires some { AreSomeUsers lanes.old cycle users.now }
    requires wire { wire < length users.now }
    ensures long { length lanes.new ≡ length lanes.old }
    ensures some { AreSomeUsers lanes.new cycle users.now }
    ensures state { lanes_state lanes.new ≡ lanes_state lanes.old }
    ensures lanes { (content : Content) (tests : List PlannedTest) →
        AreStepped content tests lanes.old → AreStepped content tests lanes.new }
    ensures now { AreNowBelow lanes.old cycle wire → AreNowBelow lanes.new cycle (wire + 1) }
{
    match users[wire] {
        Some(place) => stand_at(lanes, place, wire, cycle),
        None => {}
    }
}

/// All tests that have wires stand at a cycle.
fn stand_all(lanes: &mut [SteppedLane], users: &[Option<usize>], cycle: u64)
    requires { AreSomeUsers lanes.old cycle users.now }
    ensures long { length lanes.new ≡ length lanes.old }
    ensures state { lanes_state lanes.new ≡ lanes_state lanes.old }
    ensures lanes { (content : Content) (tests : List PlannedTest) →
        AreStepped content tests lanes.old → AreStepped content tests lanes.new }
    ensures now { AreNow lanes.new cycle }
{
    for wire in 0..users.len() {
        stand_wire(lanes, users, wire, cycle);
    }
}

impl Machine {
    /// Stands before the first cycle.
    pub fn new(lanes: Vec<SteppedLane>, users: Vec<Option<usize>>) -> Machine
        requires { AreSomeStepped lanes.items (length users.items) }
        ensures cycle { result.cycle ≡ 0 }
        ensures state { lanes_state result.lanes.items ≡ lanes_state lanes.items }
        ensures long { length result.users.items ≡ length users.items }
        ensures machine { (content : Content) (tests : List PlannedTest) →
            AreStepped content tests lanes.items → AreOnWires tests (length users.items) →
            IsMachine content tests result }
    {
        let mut machine = Machine {
            lanes,
            users,
            cycle: 0,
            change: 0,
        };
        machine.stand(0);
        machine
    }

    /// Stands at a cycle.
    fn stand(&mut self, cycle: u64)
        requires { AreSomeStepped self.old.lanes.items (length self.old.users.items) }
        ensures cycle { self.new.cycle ≡ cycle }
        ensures state { lanes_state self.new.lanes.items ≡ lanes_state self.old.lanes.items }
        ensures long { length self.new.users.items ≡ length self.old.users.items }
        ensures machine { (content : Content) (tests : List PlannedTest) →
            AreStepped content tests self.old.lanes.items →
            AreOnWires tests (length self.old.users.items) → IsMachine content tests self.new }
    {
        self.cycle = cycle;
        self.change = next_change(&self.lanes, cycle);
        assign_wires(&mut self.users, &self.lanes, cycle);
        stand_all(&mut self.lanes, &self.users, cycle);
    }

    /// The test that uses a wire.
    fn user(&self, wire: usize) -> Option<&SteppedLane>
        requires machine { IsSomeMachine self.now }
        requires wire { wire < length self.now.users.items }
        ensures some { IfSome result (λ stepped. HasWire self.now wire stepped.now) }
        ensures none { IfNone result (HasNoUser self.now wire) }
    {
        match self.users[wire] {
            Some(place) => Some(&self.lanes[place]),
            None => None,
        }
    }

    /// The bit that a wire carries.
    pub fn wanted(&self, wire: usize) -> bool
        requires machine { IsSomeMachine self.now }
        requires wire { wire < length self.now.users.items }
        ensures { (content : Content) (tests : List PlannedTest) →
            IsMachine content tests self.now → result ≡ carried content tests self.now.cycle wire }
    {
        match self.user(wire) {
            Some(stepped) => stepped.wanted(wire - stepped.lane.first_wire),
            None => false,
        }
    }

    /// The bit that a wire shows.
    pub fn shown(&self, wire: usize) -> bool
        requires machine { IsSomeMachine self.now }
        requires wire { wire < length self.now.users.items }
        ensures { (content : Content) (tests : List PlannedTest) →
            IsMachine content tests self.now →
            result ≡ shown tests (lanes_state self.now.lanes.items) self.now.cycle wire }
    {
        match self.user(wire) {
            Some(stepped) => stepped.shown(wire - stepped.lane.first_wire),
            None => false,
        }
    }

    /// Whether a response bit is read on a wire.
    fn is_compared(&self, wire: usize) -> bool
        requires machine { IsSomeMachine self.now }
        requires wire { wire < length self.now.users.items }
        ensures { (content : Content) (tests : List PlannedTest) →
            IsMachine content tests self.now → IsMark tests self.now.cycle wire result }
    {
        match self.user(wire) {
            Some(stepped) => stepped.is_read(wire - stepped.lane.first_wire),
            None => false,
        }
    }

    /// Fills the bit that each wire carries.
    pub fn want(&self, drive: &mut [bool])
        requires machine { IsSomeMachine self.now }
        requires wires { length drive.old ≡ length self.now.users.items }
        ensures long { length drive.new ≡ length drive.old }
        ensures bits { (content : Content) (tests : List PlannedTest) →
            IsMachine content tests self.now → (w : ℕ) → w < length drive.new →
            (get_or drive.new w false) ≡ carried content tests self.now.cycle w }
    {
        for wire in 0..drive.len() {
            drive[wire] = self.wanted(wire);
        }
    }

    /// Fills the bit that each wire shows.
    pub fn show(&self, read: &mut [bool])
        requires machine { IsSomeMachine self.now }
        requires wires { length read.old ≡ length self.now.users.items }
        ensures long { length read.new ≡ length read.old }
        ensures bits { (content : Content) (tests : List PlannedTest) →
            IsMachine content tests self.now → (w : ℕ) → w < length read.new →
            (get_or read.new w false)
            ≡ shown tests (lanes_state self.now.lanes.items) self.now.cycle w }
    {
        for wire in 0..read.len() {
            read[wire] = self.shown(wire);
        }
    }

    /// Marks the wires on which a response bit is read.
    pub fn compare(&self, care: &mut [bool])
        requires machine { IsSomeMachine self.now }
        requires wires { length care.old ≡ length self.now.users.items }
        ensures long { length care.new ≡ length care.old }
        ensures bits { (content : Content) (tests : List PlannedTest) →
            IsMachine content tests self.now → (w : ℕ) → w < length care.new →
            IsMark tests self.now.cycle w (get_or care.new w false) }
    {
        for wire in 0..care.len() {
            care[wire] = self.is_compared(wire);
        }
    }

    /// Whether the test whose bus begins with a wire captures, and whether its whole stimulus stands in the cells.
    fn capture_of(&self, wire: usize) -> Option<bool>
        requires machine { IsSomeMachine self.now }
        requires wire { wire < length self.now.users.items }
        ensures { (content : Content) (tests : List PlannedTest) →
            IsMachine content tests self.now →
            IsWireCapture content tests self.now.cycle wire (lanes_state self.now.lanes.items)
            result }
    {
        match self.user(wire) {
            Some(stepped) => {
                if stepped.lane.first_wire == wire {
                    stepped.capture_of()
                } else {
                    None
                }
            }
            None => None,
        }
    }

    /// How many tests capture at this cycle, and how many of these find their whole stimulus.
    pub fn captures(&self) -> (u64, u64)
        requires machine { IsSomeMachine self.now }
        ensures captures { (content : Content) (tests : List PlannedTest) →
            IsMachine content tests self.now → result.0 ≡ captures_at tests self.now.cycle }
        ensures right { (content : Content) (tests : List PlannedTest) →
            IsMachine content tests self.now →
            result.1
            ≡ right_loads_at content tests self.now.cycle (lanes_state self.now.lanes.items) }
        ensures few { result.1 ≤ result.0 }
    {
        let mut counts = (0, 0);
        for wire in 0..self.users.len() {
            counts = count_capture(counts, self.capture_of(wire));
        }
        counts
    }

    /// One cycle of the chain on a wire.
    fn step_wire(&mut self, wire: usize, drive: bool)
        requires machine { IsSomeMachine self.old }
        requires wire { wire < length self.old.users.items }
        ensures cycle { self.new.cycle ≡ self.old.cycle }
        ensures change { self.new.change ≡ self.old.change }
        ensures users { self.new.users ≡ self.old.users }
        ensures machine { (content : Content) (tests : List PlannedTest) →
            IsMachine content tests self.old → IsMachine content tests self.new }
        ensures bits { (content : Content) (tests : List PlannedTest) →
            IsMachine content tests self.old →
            IsWireStep content tests self.old.cycle wire drive (lanes_state self.old.lanes.items)
            (lanes_state self.new.lanes.items) }
    {
        match self.users[wire] {
            Some(place) => {
                let stepped = &mut self.lanes[place];
                let chain = wire - stepped.lane.first_wire;
                stepped.step(chain, drive);
            }
            None => {}
        }
    }

    /// One cycle of all chains, with the bits on the wires.
    pub fn step(&mut self, drive: &[bool])
        requires machine { IsSomeMachine self.old }
        requires driven { length drive.now ≡ length self.old.users.items }
        ensures cycle { self.new.cycle ≡ self.old.cycle }
        ensures change { self.new.change ≡ self.old.change }
        ensures users { self.new.users ≡ self.old.users }
        ensures machine { (content : Content) (tests : List PlannedTest) →
            IsMachine content tests self.old → IsMachine content tests self.new }
        ensures state { (content : Content) (tests : List PlannedTest) →
            IsMachine content tests self.old →
            lanes_state self.new.lanes.items
            ≡ step content tests (λ w. slice_index_or drive.now w false) self.old.cycle
            (lanes_state self.old.lanes.items) }
    {
        for wire in 0..drive.len() {
            self.step_wire(wire, drive[wire]);
        }
    }

    /// Goes on to the next cycle.
    pub fn advance(&mut self)
        requires machine { IsSomeMachine self.old }
        requires fits { self.old.cycle + 1 < 2 ^ 64 }
        ensures cycle { self.new.cycle ≡ self.old.cycle + 1 }
        ensures state { lanes_state self.new.lanes.items ≡ lanes_state self.old.lanes.items }
        ensures long { length self.new.users.items ≡ length self.old.users.items }
        ensures machine { (content : Content) (tests : List PlannedTest) →
            IsMachine content tests self.old → IsMachine content tests self.new }
    {
        let next = self.cycle + 1;
        if next < self.change {
            self.cycle = next;
            stand_all(&mut self.lanes, &self.users, next);
        } else {
            self.stand(next);
        }
    }
}
