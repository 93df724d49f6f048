//! Wires go from buses with time to spare to buses that take too long.
ghost use Rattle.std.specs.Prelude.{◌≡◌, ◌<◌, length, IfSome};
ghost use Rattle.arch_schedule.specs.Buses.{AreBuses, AreAlike, AreTimesOn};

use crate::{Buses, Times};

/// The load that a slot would have on one wire less; the greatest number where it has no wire to give.
fn load_on_less(times: &Times, buses: &Buses, slot: usize) -> u64
    requires buses { AreBuses buses.now }
    requires times { AreTimesOn buses.now times.now }
    requires slot { slot < length buses.now.widths.items }
{
    let width = buses.width_of(slot);
    if width < 2 {
        return u64::MAX;
    }
    buses.load_on(times, slot, width - 1)
}

/// What a slot begins with for the sum of its modules' cycles on one wire less: the greatest number, where it has no wire to give.
fn first_less(width: u64) -> u64 {
    if width < 2 { u64::MAX } else { 0 }
}

/// The cycles of a module on one wire less than its bus has.
fn cycles_on_less(times: &Times, buses: &Buses, module: usize) -> u64
    requires buses { AreBuses buses.now }
    requires times { AreTimesOn buses.now times.now }
    requires there { «module» < length buses.now.slots.items }
{
    let width = buses.width_of(buses.slot_of(module));
    times.on(module, width.saturating_sub(1))
}

/// Sets all loads on one wire less.
fn fill_less(times: &Times, buses: &Buses, less: &mut Vec<u64>)
    requires buses { AreBuses buses.now }
    requires times { AreTimesOn buses.now times.now }
    requires less { length less.old.items ≡ length buses.now.widths.items }
    ensures { length less.new.items ≡ length less.old.items }
{
    for slot in 0..less.len() {
        less[slot] = first_less(buses.widths[slot]);
    }
    for module in 0..buses.slots.len() {
        let slot = buses.slot_of(module);
        let sum = less[slot].saturating_add(cycles_on_less(times, buses, module));
        less[slot] = sum;
    }
}

/// Of all slots but `but`, the one whose load on one wire less is least, where that is at most `cap` cycles.
fn giver(less: &[u64], but: usize, cap: u64) -> Option<usize>
    ensures { IfSome result (λ slot. slot < length less.now) }
{
    let mut found = None;
    let mut limit = cap.saturating_add(1);
    for slot in 0..less.len() {
        let load = less[slot];
        if load < limit && slot != but {
            found = Some(slot);
            limit = load;
        }
    }
    found
}

/// Moves a wire from the bus of one slot to that of another.
fn pass_wire(times: &Times, buses: &mut Buses, less: &mut Vec<u64>, from: usize, to: usize)
    requires buses { AreBuses buses.old }
    requires times { AreTimesOn buses.old times.now }
    requires from { from < length buses.old.widths.items }
    requires to { to < length buses.old.widths.items }
    requires less { length less.old.items ≡ length buses.old.widths.items }
    ensures buses { AreBuses buses.new }
    ensures alike { AreAlike buses.old buses.new }
    ensures less { length less.new.items ≡ length less.old.items }
{
    if buses.widths[from] == 0 {
        return;
    }
    buses.move_wires(from, to, 1);
    buses.set_load(from, less[from]);
    less[to] = buses.loads[to];
    buses.reload(times, to);
    less[from] = load_on_less(times, buses, from);
}

/// Whether no bus takes more than `cap` cycles, once wires have gone from buses that can spare them to buses that take more.
pub fn fits(times: &Times, buses: &mut Buses, less: &mut Vec<u64>, cap: u64) -> bool
    requires buses { AreBuses buses.old }
    requires times { AreTimesOn buses.old times.now }
    requires less { length less.old.items ≡ length buses.old.widths.items }
    ensures buses { AreBuses buses.new }
    ensures alike { AreAlike buses.old buses.new }
    ensures less { length less.new.items ≡ length less.old.items }
{
    if buses.first_over(cap).is_none() {
        return true;
    }
    let used = buses.used();
    fill_less(times, buses, less);
    for _wire in 0..buses.widths.len() {
        let Some(full) = buses.first_over(cap) else {
            return true;
        };
        let Some(from) = giver(&less[..used], full, cap) else {
            return false;
        };
        pass_wire(times, buses, less, from, full);
    }
    false
}
