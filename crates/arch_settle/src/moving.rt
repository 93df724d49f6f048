//! Moving a module of the bottleneck, and what that would cost: no candidate is made.
ghost use Rattle.std.specs.Prelude.{◌≡◌, ◌≢◌, ℕ, ◌+◌, ◌-◌, ◌<◌, ◌≤◌, length, map, slice_set, slice_index, MatchOption, IfOk, OnOk, ◌++◌};
ghost use Rattle.std.specs.List.{range_with_len, flat_map};
ghost use Rattle.width_table.specs.Tables.{places_of};
ghost use Rattle.bus_model.specs.Buses.{arch_value, bus_at, bus_time_of, places_time, cost_of};
ghost use Rattle.bus_model.specs.Sound.{IsSoundArch, times_listed, due};
ghost use Rattle.arch_settle.specs.Settling.{IsAtRest, IsStep};
ghost use Rattle.arch_settle.specs.Neighbours.{others, moves, all_moves, moved, split_off};
ghost use Rattle.arch_settle.specs.Moves.{AreWeights, IsMoveFrom, IsBestMove, moved_by, greatest_of};

use bus_model::{Arch, ArchBus, bus_time, cost, time_at};
use outside::{NoMemory, push};
use std::alloc::Global;
use width_table::WidthTable;

/// A move of one module of a bus, the `nth` of its list: to the end of another bus, or to a new last bus that takes
/// `width` of its wires.
#[derive(Clone, Copy)]
pub(crate) enum Move {
    To { nth: usize, bus: usize },
    Alone { nth: usize, width: u64 },
}

/// What the moves from a bus are weighed by, all times in cycles.
#[derive(Drop)]
pub(crate) struct MoveWeights {
    /// The bus that a module is to leave.
    pub bus: usize,
    /// The greatest time of the other buses.
    pub others: u64,
    /// The times of all buses.
    pub times: Vec<u64>,
    /// For each bus, the greatest time of those that are neither it nor the one that a module is to leave.
    pub besides: Vec<u64>,
    /// The time of the modules of the bus on each number of wires from 1 to its width.
    pub row: Vec<u64>,
}

/// The best move so far and its cost in cycles, or with none the cost of the buses as they are.
#[derive(Clone, Copy)]
pub(crate) struct Best {
    pub least: u64,
    pub choice: Option<Move>,
}

/// The time at a place, but 0 at two places.
fn time_besides(times: &[u64], at: usize, one: usize, two: usize) -> u64
    requires { at < length times.now }
    ensures { result ≡ slice_index (slice_set (slice_set times.now one 0) two 0) at }
{
    if at == one || at == two { 0 } else { times[at] }
}

/// The greatest of the times, but for two.
fn greatest_besides(times: &[u64], one: usize, two: usize) -> u64
    ensures { result ≡ greatest_of (slice_set (slice_set times.now one 0) two 0) }
{
    let mut most: u64 = 0;
    for at in 0..times.len() {
        most = most.max(time_besides(times, at, one, two));
    }
    most
}

/// The times of the buses.
fn bus_times(alloc: Global, table: &WidthTable, arch: &Arch) -> Result<Vec<u64>, NoMemory>
    requires { IsSoundArch table.now (arch_value arch.now) }
    ensures { IfOk result
        (λ times. times.items ≡ map (bus_time_of table.now) (arch_value arch.now)) }
{
    let mut times = Vec::new(alloc);
    for bus in &arch.buses {
        push(&mut times, bus_time(table, bus))?;
    }
    Ok(times)
}

/// The times of modules at each width.
fn times_by_width(
    alloc: Global,
    table: &WidthTable,
    places: &[usize],
    width: u64,
) -> Result<Vec<u64>, NoMemory>
    requires listed { (p : ℕ) → times_listed p places.now ≤ due table.now p }
    requires width { width ≤ table.now.wires }
    ensures count { IfOk result (λ row. length row.items ≡ width) }
    ensures times { IfOk result (λ row. (i : ℕ) → i < width →
        slice_index row.items i ≡ places_time table.now (i + 1) places.now) }
{
    let mut row = Vec::new(alloc);
    for less in 0..width {
        push(&mut row, time_at(table, places, less + 1))?;
    }
    Ok(row)
}

/// For each bus the greatest of the times but for that bus and another.
fn times_besides(alloc: Global, times: &[u64], bus: usize) -> Result<Vec<u64>, NoMemory>
    ensures count { IfOk result (λ besides. length besides.items ≡ length times.now) }
    ensures times { IfOk result (λ besides. (c : ℕ) → c < length times.now →
        slice_index besides.items c ≡ greatest_of (slice_set (slice_set times.now bus 0) c 0)) }
{
    let mut besides = Vec::new(alloc);
    for other in 0..times.len() {
        push(&mut besides, greatest_besides(times, bus, other))?;
    }
    Ok(besides)
}

/// What moves from a bus are weighed by.
pub(crate) fn weights_of(
    alloc: Global,
    table: &WidthTable,
    arch: &Arch,
    bus: usize,
) -> Result<MoveWeights, NoMemory>
    requires sound { IsSoundArch table.now (arch_value arch.now) }
    requires bus { bus < length (arch_value arch.now) }
    ensures bus { IfOk result (λ weights. weights.bus ≡ bus) }
    ensures weights { IfOk result (λ weights. AreWeights table.now (arch_value arch.now) weights) }
{
    let times = bus_times(alloc, table, arch)?;
    let besides = times_besides(alloc, times.as_slice(), bus)?;
    let from = &arch.buses[bus];
    let row = times_by_width(alloc, table, from.places.as_slice(), from.width)?;
    Ok(MoveWeights {
        bus,
        others: greatest_besides(times.as_slice(), bus, bus),
        times,
        besides,
        row,
    })
}

/// The place of a module of a bus.
fn place_of(table: &WidthTable, arch: &Arch, bus: usize, nth: usize) -> usize
    requires sound { IsSoundArch table.now (arch_value arch.now) }
    requires bus { bus < length (arch_value arch.now) }
    requires nth { nth < length (bus_at (arch_value arch.now) bus).places }
    ensures value { result ≡ slice_index (bus_at (arch_value arch.now) bus).places nth }
    ensures within { result < places_of table.now }
{
    // the call tells what every table keeps
    let _wires = table.wires();
    arch.buses[bus].places[nth]
}

/// The width of a bus.
fn width_of(arch: &Arch, bus: usize) -> u64
    requires { bus < length (arch_value arch.now) }
    ensures { result ≡ (bus_at (arch_value arch.now) bus).width }
{
    arch.buses[bus].width
}

/// The cost in cycles once a module is moved to the end of another bus.
pub(crate) fn cost_to(
    table: &WidthTable,
    arch: &Arch,
    weights: &MoveWeights,
    nth: usize,
    bus: usize,
) -> u64
    requires sound { IsSoundArch table.now (arch_value arch.now) }
    requires weights { AreWeights table.now (arch_value arch.now) weights.now }
    requires nth { nth < length (bus_at (arch_value arch.now) weights.now.bus).places }
    requires bus { bus < length (arch_value arch.now) }
    requires differ { weights.now.bus ≢ bus }
    ensures { result ≡ cost_of table.now (moved (arch_value arch.now) weights.now.bus nth bus) }
{
    // the call tells what every table keeps
    let _wires = table.wires();
    let place = place_of(table, arch, weights.bus, nth);
    let less = table.time(place, width_of(arch, weights.bus));
    let more = table.time(place, width_of(arch, bus));
    let left = weights.times[weights.bus] - less;
    let reached = weights.times[bus] + more;
    weights.besides[bus].max(left).max(reached)
}

/// The cost in cycles once a module is moved to a new bus of `width` of the wires.
pub(crate) fn cost_alone(
    table: &WidthTable,
    arch: &Arch,
    weights: &MoveWeights,
    nth: usize,
    width: u64,
) -> u64
    requires sound { IsSoundArch table.now (arch_value arch.now) }
    requires weights { AreWeights table.now (arch_value arch.now) weights.now }
    requires nth { nth < length (bus_at (arch_value arch.now) weights.now.bus).places }
    requires some { 1 ≤ width }
    requires width { width < (bus_at (arch_value arch.now) weights.now.bus).width }
    ensures { result
        ≡ cost_of table.now (split_off (arch_value arch.now) weights.now.bus nth width) }
{
    // the call tells what every table keeps
    let _wires = table.wires();
    let place = place_of(table, arch, weights.bus, nth);
    let narrower = width_of(arch, weights.bus) - width;
    let less = table.time(place, narrower);
    let own = table.time(place, width);
    let left = weights.row[narrower as usize - 1] - less;
    weights.others.max(left).max(own)
}

/// The better one of the best move so far and a further one; on a tie the former.
fn better(best: Best, cost: u64, choice: Move) -> Best
    ensures taken { cost < best.least → result ≡ record { least = cost; choice = Some choice } }
    ensures kept { best.least ≤ cost → result ≡ best }
{
    if cost < best.least {
        Best {
            least: cost,
            choice: Some(choice),
        }
    } else {
        best
    }
}

/// The best move once those of a module to the other buses are looked at too.
fn with_buses(
    table: &WidthTable,
    arch: &Arch,
    weights: &MoveWeights,
    nth: usize,
    best: Best,
) -> Best
    requires sound { IsSoundArch table.now (arch_value arch.now) }
    requires weights { AreWeights table.now (arch_value arch.now) weights.now }
    requires nth { nth < length (bus_at (arch_value arch.now) weights.now.bus).places }
    requires best { IsBestMove table.now (arch_value arch.now) weights.now.bus
        (flat_map (moves (arch_value arch.now) weights.now.bus) (range_with_len 0 nth)) best }
    ensures { IsBestMove table.now (arch_value arch.now) weights.now.bus
        (flat_map (moves (arch_value arch.now) weights.now.bus) (range_with_len 0 nth)
        ++ map (moved (arch_value arch.now) weights.now.bus nth)
        (others (length (arch_value arch.now)) weights.now.bus)) result }
{
    let mut best = best;
    for bus in 0..arch.buses.len() {
        if bus == weights.bus {
            continue;
        }
        let cost = cost_to(table, arch, weights, nth, bus);
        best = better(best, cost, Move::To { nth, bus });
    }
    best
}

/// The best move once those of a module to new buses are looked at too.
fn with_widths(
    table: &WidthTable,
    arch: &Arch,
    weights: &MoveWeights,
    nth: usize,
    best: Best,
) -> Best
    requires sound { IsSoundArch table.now (arch_value arch.now) }
    requires weights { AreWeights table.now (arch_value arch.now) weights.now }
    requires nth { nth < length (bus_at (arch_value arch.now) weights.now.bus).places }
    requires best { IsBestMove table.now (arch_value arch.now) weights.now.bus
        (flat_map (moves (arch_value arch.now) weights.now.bus) (range_with_len 0 nth)
        ++ map (moved (arch_value arch.now) weights.now.bus nth)
        (others (length (arch_value arch.now)) weights.now.bus)) best }
    ensures { IsBestMove table.now (arch_value arch.now) weights.now.bus
        (flat_map (moves (arch_value arch.now) weights.now.bus) (range_with_len 0 (nth + 1)))
        result }
{
    let mut best = best;
    for width in 1..width_of(arch, weights.bus) {
        let cost = cost_alone(table, arch, weights, nth, width);
        best = better(best, cost, Move::Alone { nth, width });
    }
    best
}

/// The best move of a module of a bus, where one costs less than now: the first of least cost.
pub(crate) fn best_move(
    alloc: Global,
    table: &WidthTable,
    arch: &Arch,
    bus: usize,
) -> Result<Option<Move>, NoMemory>
    requires sound { IsSoundArch table.now (arch_value arch.now) }
    requires bus { bus < length (arch_value arch.now) }
    ensures { IfOk result (λ choice. MatchOption choice
        (IsAtRest table.now (all_moves (arch_value arch.now) bus) (arch_value arch.now))
        (λ move. IsMoveFrom (arch_value arch.now) bus move
        × IsStep table.now (all_moves (arch_value arch.now) bus) (arch_value arch.now)
        (moved_by (arch_value arch.now) bus move))) }
{
    let weights = weights_of(alloc, table, arch, bus)?;
    let mut best = Best {
        least: cost(table, arch),
        choice: None,
    };
    for nth in 0..arch.buses[bus].places.len() {
        best = with_buses(table, arch, &weights, nth, best);
        best = with_widths(table, arch, &weights, nth, best);
    }
    Ok(best.choice)
}

/// Moves a module to the end of another bus.
fn move_to(arch: &mut Arch, from: usize, nth: usize, bus: usize) -> Result<(), NoMemory>
    requires from { from < length (arch_value arch.old) }
    requires choice { IsMoveFrom (arch_value arch.old) from (Move.To nth bus) }
    ensures { OnOk result (arch_value arch.new ≡ moved (arch_value arch.old) from nth bus) }
{
    let place = arch.buses[from].places.remove(nth);
    push(&mut arch.buses[bus].places, place)?;
    Ok(())
}

/// Moves a module to a new last bus, which takes `width` of the wires.
fn move_alone(
    alloc: Global,
    arch: &mut Arch,
    from: usize,
    nth: usize,
    width: u64,
) -> Result<(), NoMemory>
    requires from { from < length (arch_value arch.old) }
    requires choice { IsMoveFrom (arch_value arch.old) from (Move.Alone nth width) }
    ensures { OnOk result (arch_value arch.new ≡ split_off (arch_value arch.old) from nth width) }
{
    let bus = &mut arch.buses[from];
    let place = bus.places.remove(nth);
    bus.width -= width;
    let mut places = Vec::new(alloc);
    push(&mut places, place)?;
    push(&mut arch.buses, ArchBus { width, places })?;
    Ok(())
}

/// Makes a move.
pub(crate) fn make_move(
    alloc: Global,
    table: &WidthTable,
    arch: &mut Arch,
    from: usize,
    choice: Move,
) -> Result<(), NoMemory>
    requires sound { IsSoundArch table.now (arch_value arch.old) }
    requires from { from < length (arch_value arch.old) }
    requires two { 2 ≤ length (bus_at (arch_value arch.old) from).places }
    requires choice { IsMoveFrom (arch_value arch.old) from choice }
    ensures value { OnOk result (arch_value arch.new ≡ moved_by (arch_value arch.old) from choice) }
    ensures sound { OnOk result (IsSoundArch table.now (arch_value arch.new)) }
{
    match choice {
        Move::To { nth, bus } => move_to(arch, from, nth, bus),
        Move::Alone { nth, width } => move_alone(alloc, arch, from, nth, width),
    }
}
