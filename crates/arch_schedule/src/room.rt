//! Room for schedules.
ghost use Rattle.std.specs.Prelude.{◌≡◌, ℕ, ◌<◌, length, replicate, None, IfOk};
ghost use Rattle.std.specs.List.{All};
ghost use Rattle.arch_schedule.specs.Rooms.{HasRoom};

use crate::sorting::{Keyed, sort_keyed, sorted_by, with_keys};
use outside::NoMemory;
use std::alloc::Global;

/// Room for what a schedule is made from, and for its starts.
#[derive(Drop)]
pub struct ScheduleRoom {
    /// For each test the slot of its bus.
    pub slots: Vec<Option<usize>>,
    /// For each test its cycles.
    pub cycles: Vec<u64>,
    /// For each test the cycles of the longest chain of precedences that it begins.
    pub chains: Vec<u64>,
    /// For each test its start.
    pub starts: Vec<u64>,
    /// The tests with what they are sorted by.
    pub keys: Vec<Keyed>,
    /// Another order of the tests.
    pub second: Vec<usize>,
}

/// A list of `count` zeros.
pub fn zeros(alloc: Global, count: usize) -> Result<Vec<u64>, NoMemory>
    ensures { IfOk result (λ v. v.items ≡ replicate count 0) }
{
    Ok(vec![in alloc; 0; count]?)
}

/// No slot for each of `count` tests.
fn no_slots(alloc: Global, count: usize) -> Result<Vec<Option<usize>>, NoMemory>
    ensures { IfOk result (λ v. v.items ≡ replicate count None) }
{
    Ok(vec![in alloc; None; count]?)
}

impl ScheduleRoom {
    /// Room for `tests` tests.
    pub fn new(alloc: Global, tests: usize) -> Result<ScheduleRoom, NoMemory>
        ensures { IfOk result (HasRoom tests) }
    {
        let slots = no_slots(alloc, tests)?;
        let cycles = zeros(alloc, tests)?;
        let chains = zeros(alloc, tests)?;
        let starts = zeros(alloc, tests)?;
        let keys = with_keys(alloc, &cycles)?;
        let second = sorted_by(alloc, &cycles)?;
        Ok(ScheduleRoom {
            slots,
            cycles,
            chains,
            starts,
            keys,
            second,
        })
    }

    /// Makes the other order that of the chains, the longest first.
    pub fn order_by_chains(&mut self)
        requires { (tests : ℕ) × HasRoom tests self.old }
        ensures room { (tests : ℕ) → HasRoom tests self.old → HasRoom tests self.new }
        ensures cycles { self.new.cycles ≡ self.old.cycles }
    {
        key_by_chains(&mut self.keys, &self.chains);
        sort_keyed(&mut self.keys);
        write_places(&mut self.second, &self.keys);
    }
}

/// Makes the keys of tests those of their chains: the longer, the less.
fn key_by_chains(keys: &mut [Keyed], chains: &[u64])
    requires { length chains.now ≡ length keys.old }
    ensures long { length keys.new ≡ length keys.old }
    ensures places { All (λ (k : Keyed). k.place < length chains.now) keys.new }
{
    for place in 0..keys.len() {
        let key = u64::MAX - chains[place];
        keys[place] = Keyed { key, place };
    }
}

/// Writes the places of sorted keys.
fn write_places(order: &mut [usize], keys: &[Keyed])
    requires { length keys.now ≡ length order.old }
    ensures long { length order.new ≡ length order.old }
    ensures places { (n : ℕ) → All (λ (k : Keyed). k.place < n) keys.now →
        All (λ place. place < n) order.new }
{
    for place in 0..order.len() {
        order[place] = keys[place].place;
    }
}
