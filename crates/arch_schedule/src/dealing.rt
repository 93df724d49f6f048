//! A change of buses: some modules are taken off their buses and dealt again.
ghost use Rattle.std.specs.Prelude.{◌≡◌, ◌<◌, ◌≤◌, length};
ghost use Rattle.std.specs.List.{All};
ghost use Rattle.arch_schedule.specs.Buses.{AreBuses, AreAlike, AreTimesOn};
ghost use Rattle.arch_schedule.specs.Dealing.{IsTaken};

use crate::draws::Draws;
use crate::{Buses, Times};

/// The most modules that are dealt again at once.
pub const DEALT_MOST: usize = 4;

/// A module that is dealt again.
#[derive(Clone, Copy, Drop)]
pub struct DealtModule {
    /// The module.
    pub module: usize,
    /// The slot that it was on.
    pub from: usize,
}

/// Whether a module is among those that are taken.
fn is_taken(taken: &[DealtModule], module: usize) -> bool {
    taken.iter().any(|one| one.module == module)
}

/// From a module on, round, the first one that isn't taken yet; the module itself where there is none.
fn next_free(taken: &[DealtModule], module: usize, modules: usize) -> usize
    requires { «module» < modules }
    ensures { result < modules }
{
    for next in module..modules {
        if !is_taken(taken, next) {
            return next;
        }
    }
    for next in 0..module {
        if !is_taken(taken, next) {
            return next;
        }
    }
    module
}

/// Takes a module off its bus.
fn take_off(times: &Times, buses: &mut Buses, module: usize) -> DealtModule
    requires buses { AreBuses buses.old }
    requires times { AreTimesOn buses.old times.now }
    requires there { «module» < length buses.old.slots.items }
    ensures buses { AreBuses buses.new }
    ensures alike { AreAlike buses.old buses.new }
    ensures taken { IsTaken (length buses.new.widths.items) (length buses.new.slots.items) result }
{
    let from = buses.slot_of(module);
    let width = buses.width_of(from);
    let load = buses.loads[from].saturating_sub(times.on(module, width));
    buses.set_load(from, load);
    DealtModule { module, from }
}

/// Takes `count` modules off their buses, the first one and others that are drawn.
fn take_all(
    times: &Times,
    buses: &mut Buses,
    taken: &mut Vec<DealtModule>,
    count: usize,
    first: usize,
    draws: &mut Draws,
)
    requires buses { AreBuses buses.old }
    requires times { AreTimesOn buses.old times.now }
    requires first { first < length buses.old.slots.items }
    requires count { count ≤ length taken.old.items }
    requires taken { All (IsTaken (length buses.old.widths.items) (length buses.old.slots.items))
        taken.old.items }
    ensures buses { AreBuses buses.new }
    ensures alike { AreAlike buses.old buses.new }
    ensures long { length taken.new.items ≡ length taken.old.items }
    ensures taken { All (IsTaken (length buses.new.widths.items) (length buses.new.slots.items))
        taken.new.items }
{
    let modules = buses.slots.len();
    let mut any = first;
    for place in 0..count {
        let module = next_free(&taken[..place], any, modules);
        taken[place] = take_off(times, buses, module);
        any = draws.below(modules);
    }
}

/// A slot with wires for a module: the first one, or a later one in its place where that would end earlier, three times in
/// four.
fn chosen_slot(times: &Times, buses: &Buses, module: usize, draws: &mut Draws) -> usize
    requires buses { AreBuses buses.now }
    requires times { AreTimesOn buses.now times.now }
    requires there { «module» < length buses.now.slots.items }
    ensures { result < length buses.now.widths.items }
{
    let mut chosen = buses.slot_of(module);
    let mut least = u64::MAX;
    for slot in 0..buses.widths.len() {
        if buses.widths[slot] > 0 {
            let end = buses.end_with(times, module, slot);
            if end < least && (least == u64::MAX || draws.often()) {
                chosen = slot;
                least = end;
            }
        }
    }
    chosen
}

/// Deals a module that was taken off. Whether it is on another bus than before.
fn deal_again(times: &Times, buses: &mut Buses, one: DealtModule, draws: &mut Draws) -> bool
    requires buses { AreBuses buses.old }
    requires times { AreTimesOn buses.old times.now }
    requires taken { IsTaken (length buses.old.widths.items) (length buses.old.slots.items) one }
    ensures buses { AreBuses buses.new }
    ensures alike { AreAlike buses.old buses.new }
{
    let slot = chosen_slot(times, buses, one.module, draws);
    let end = buses.end_with(times, one.module, slot);
    buses.put(one.module, slot);
    buses.set_load(slot, end);
    slot != one.from
}

/// Deals the first `count` modules that were taken off. Whether any is on another bus than before.
fn deal_all(
    times: &Times,
    buses: &mut Buses,
    taken: &[DealtModule],
    count: usize,
    draws: &mut Draws,
) -> bool
    requires buses { AreBuses buses.old }
    requires times { AreTimesOn buses.old times.now }
    requires count { count ≤ length taken.now }
    requires taken { All (IsTaken (length buses.old.widths.items) (length buses.old.slots.items))
        taken.now }
    ensures buses { AreBuses buses.new }
    ensures alike { AreAlike buses.old buses.new }
{
    let mut changed = false;
    for place in 0..count {
        if deal_again(times, buses, taken[place], draws) {
            changed = true;
        }
    }
    changed
}

/// Hands the wires of slots that are left without modules on to the slot of the greatest load.
fn release_left(times: &Times, buses: &mut Buses, taken: &[DealtModule], count: usize)
    requires buses { AreBuses buses.old }
    requires times { AreTimesOn buses.old times.now }
    requires count { count ≤ length taken.now }
    requires taken { All (IsTaken (length buses.old.widths.items) (length buses.old.slots.items))
        taken.now }
    ensures buses { AreBuses buses.new }
    ensures alike { AreAlike buses.old buses.new }
{
    for place in 0..count {
        if let Some(fullest) = buses.fullest() {
            buses.release(times, taken[place].from, fullest);
        }
    }
}

/// Takes two to four modules, of which one is given, off their buses, and puts each in turn on a bus that ends early with it.
/// Whether anything changed.
pub(crate) fn deal_modules(
    times: &Times,
    buses: &mut Buses,
    taken: &mut Vec<DealtModule>,
    first: usize,
    draws: &mut Draws,
) -> bool
    requires buses { AreBuses buses.old }
    requires times { AreTimesOn buses.old times.now }
    requires first { first < length buses.old.slots.items }
    requires taken { All (IsTaken (length buses.old.widths.items) (length buses.old.slots.items))
        taken.old.items }
    ensures buses { AreBuses buses.new }
    ensures alike { AreAlike buses.old buses.new }
    ensures taken { All (IsTaken (length buses.old.widths.items) (length buses.old.slots.items))
        taken.new.items }
{
    let count = (2 + draws.below(DEALT_MOST - 1)).min(taken.len());
    take_all(times, buses, taken, count, first, draws);
    if !deal_all(times, buses, taken, count, draws) {
        return false;
    }
    release_left(times, buses, taken, count);
    true
}
