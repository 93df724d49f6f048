//! Fixed buses with their loads, and what every change of them is made of.
ghost use Rattle.std.specs.Prelude.{◌≡◌, ◌<◌, ◌≤◌, length, slice_index, IfSome};
ghost use Rattle.arch_schedule.specs.Buses.{AreBuses, AreAlike, AreTimesOn};

use crate::times::Times;

/// Fixed buses. There is a slot for each bus that there may be, which is one for each wire.
#[derive(Drop)]
pub struct Buses {
    /// For each slot the wires of its bus; an unused slot has none. Together they are at most as many as there are slots.
    pub widths: Vec<u64>,
    /// For each module with tests over the wires the slot of its bus.
    pub slots: Vec<usize>,
    /// For each slot the cycles of the tests over its bus, together.
    pub loads: Vec<u64>,
}

/// The cycles of a module where it is counted, else none.
fn counted(is_counted: bool, cycles: u64) -> u64 {
    if is_counted { cycles } else { 0 }
}

impl Buses {
    /// The first slot without wires.
    pub fn unused(&self) -> Option<usize>
        ensures { IfSome result (λ slot. slot < length self.now.widths.items) }
    {
        self.widths.iter().position(|width| *width == 0)
    }

    /// How many slots there are up to the last one with wires.
    pub fn used(&self) -> usize
        ensures { result ≤ length self.now.widths.items }
    {
        let mut used = 0;
        for slot in 0..self.widths.len() {
            if self.widths[slot] > 0 {
                used = slot + 1;
            }
        }
        used
    }

    /// The first slot whose load is greater than `cap` cycles.
    pub fn first_over(&self, cap: u64) -> Option<usize>
        requires { AreBuses self.now }
        ensures { IfSome result (λ slot. slot < length self.now.widths.items) }
    {
        self.loads.iter().position(|load| *load > cap)
    }

    /// The slot of the greatest load, the first of several; None where there is no slot.
    pub fn fullest(&self) -> Option<usize>
        requires { AreBuses self.now }
        ensures { IfSome result (λ slot. slot < length self.now.widths.items) }
    {
        let mut fullest = None;
        let mut most = 0;
        for slot in 0..self.loads.len() {
            let load = self.loads[slot];
            if slot == 0 || load > most {
                fullest = Some(slot);
                most = load;
            }
        }
        fullest
    }

    /// Whether a slot has modules.
    pub(crate) fn has_modules(&self, slot: usize) -> bool {
        self.slots.contains(&slot)
    }

    /// From a module on, round, the first one on the bus of a slot; the module itself where there is none.
    pub fn next_on(&self, module: usize, slot: usize) -> usize
        requires { «module» < length self.now.slots.items }
        ensures { result < length self.now.slots.items }
    {
        for next in module..self.slots.len() {
            if self.slots[next] == slot {
                return next;
            }
        }
        for next in 0..module {
            if self.slots[next] == slot {
                return next;
            }
        }
        module
    }

    /// Moves `wires` wires from the bus of one slot to that of another. It leaves the loads as they were.
    pub fn move_wires(&mut self, from: usize, to: usize, wires: u64)
        requires buses { AreBuses self.old }
        requires from { from < length self.old.widths.items }
        requires to { to < length self.old.widths.items }
        requires some { wires ≤ slice_index self.old.widths.items from }
        ensures buses { AreBuses self.new }
        ensures alike { AreAlike self.old self.new }
        ensures slots { self.new.slots ≡ self.old.slots }
    {
        self.widths[from] -= wires;
        self.widths[to] += wires;
    }

    /// Hands all wires of a slot on to another one. It leaves the loads as they were.
    pub fn hand_on(&mut self, from: usize, to: usize)
        requires buses { AreBuses self.old }
        requires from { from < length self.old.widths.items }
        requires to { to < length self.old.widths.items }
        ensures buses { AreBuses self.new }
        ensures alike { AreAlike self.old self.new }
    {
        let wires = self.widths[from];
        self.move_wires(from, to, wires);
    }

    /// Puts a module on the bus of a slot. It leaves the loads as they were.
    pub fn put(&mut self, module: usize, slot: usize)
        requires buses { AreBuses self.old }
        requires there { «module» < length self.old.slots.items }
        requires slot { slot < length self.old.widths.items }
        ensures buses { AreBuses self.new }
        ensures alike { AreAlike self.old self.new }
    {
        self.slots[module] = slot;
    }

    /// The slot of a module's bus.
    pub fn slot_of(&self, module: usize) -> usize
        requires buses { AreBuses self.now }
        requires there { «module» < length self.now.slots.items }
        ensures { result < length self.now.widths.items }
    {
        self.slots[module]
    }

    /// The wires of the bus of a slot.
    pub fn width_of(&self, slot: usize) -> u64
        requires buses { AreBuses self.now }
        requires slot { slot < length self.now.widths.items }
        ensures { result ≤ length self.now.widths.items }
    {
        self.widths[slot]
    }

    /// The cycles of the modules on the bus of a slot, together, if it had `width` wires.
    pub fn load_on(&self, times: &Times, slot: usize, width: u64) -> u64
        requires buses { AreBuses self.now }
        requires times { AreTimesOn self.now times.now }
        requires width { width ≤ length self.now.widths.items }
    {
        let cycles = times.column(width);
        let mut sum: u64 = 0;
        for module in 0..self.slots.len() {
            sum = sum.saturating_add(counted(self.slots[module] == slot, cycles[module]));
        }
        sum
    }

    /// Sets the load of a slot.
    pub fn set_load(&mut self, slot: usize, load: u64)
        requires buses { AreBuses self.old }
        requires slot { slot < length self.old.widths.items }
        ensures buses { AreBuses self.new }
        ensures alike { AreAlike self.old self.new }
    {
        self.loads[slot] = load;
    }

    /// Makes the load of a slot that of the modules on its bus.
    pub fn reload(&mut self, times: &Times, slot: usize)
        requires buses { AreBuses self.old }
        requires times { AreTimesOn self.old times.now }
        requires slot { slot < length self.old.widths.items }
        ensures buses { AreBuses self.new }
        ensures alike { AreAlike self.old self.new }
    {
        let width = self.width_of(slot);
        let load = self.load_on(times, slot, width);
        self.set_load(slot, load);
    }

    /// Makes all loads those of the modules on the buses.
    pub fn reload_all(&mut self, times: &Times)
        requires buses { AreBuses self.old }
        requires times { AreTimesOn self.old times.now }
        ensures buses { AreBuses self.new }
        ensures alike { AreAlike self.old self.new }
    {
        for slot in 0..self.widths.len() {
            self.reload(times, slot);
        }
    }

    /// Hands all wires of a slot without modules on to another one.
    pub fn release(&mut self, times: &Times, from: usize, to: usize)
        requires buses { AreBuses self.old }
        requires times { AreTimesOn self.old times.now }
        requires from { from < length self.old.widths.items }
        requires to { to < length self.old.widths.items }
        ensures buses { AreBuses self.new }
        ensures alike { AreAlike self.old self.new }
    {
        if from == to || self.has_modules(from) {
            return;
        }
        self.hand_on(from, to);
        self.reload(times, to);
    }

    /// When the bus of a slot would end with one more module.
    pub fn end_with(&self, times: &Times, module: usize, slot: usize) -> u64
        requires buses { AreBuses self.now }
        requires times { AreTimesOn self.now times.now }
        requires there { «module» < length self.now.slots.items }
        requires slot { slot < length self.now.widths.items }
    {
        let width = self.width_of(slot);
        self.loads[slot].saturating_add(times.on(module, width))
    }

    /// Half of the wires of two slots together, rounded up.
    pub fn half_of(&self, one: usize, other: usize) -> u64
        requires buses { AreBuses self.now }
        requires one { one < length self.now.widths.items }
        requires other { other < length self.now.widths.items }
        ensures { result ≤ length self.now.widths.items }
    {
        let width = self.width_of(one);
        let other_width = self.width_of(other);
        width.saturating_add(other_width).div_ceil(2)
    }
}
