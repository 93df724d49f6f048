//! The case of a node: it is changed in place, and what was changed is undone before a second branch.
ghost use Rattle.std.specs.Prelude.{◌≡◌, ◌+◌, ◌^◌, ◌<◌, ◌≤◌, ◌∷◌, length, IfOk};
ghost use Rattle.std.specs.List.{All};
ghost use Rattle.leaf_bounds.specs.declared.case.CaseRoom.{CaseRoom};
ghost use Rattle.leaf_bounds.specs.Cases.{Case, extended, known_ranks, narrow, placed_off, placed_on, root_case, tightened, wide};
ghost use Rattle.leaf_bounds.specs.CaseRooms.{HasCase, IsCaseOf, IsFurther, IsMark, IsSame};

use crate::places::{Placing, place_off, place_on};
use crate::ranks::{Ranks, anywhere, copy_rest};
use crate::widths::{Widths, add_rank, narrow_ranks, no_ranks, tighten_ranks, widen_ranks};
use crate::{ranks, widths};
use outside::NoMemory;
use std::alloc::Global;

/// A case, with what is noted of the cases before it.
#[derive(Drop)]
pub struct CaseRoom {
    /// How wide the bus of each known rank may be, in wires.
    pub widths: Widths,
    /// On which ranks each module may be.
    pub ranks: Ranks,
    /// The modules of the chip.
    pub modules: usize,
}

/// How much is noted where a case stands.
#[derive(Clone, Copy)]
pub struct Mark {
    /// The changes of widths.
    pub changes: usize,
    /// The ranks taken from modules.
    pub takings: usize,
    /// The places in the table of ranks.
    pub places: usize,
}

impl CaseRoom {
    /// Room for `modules` modules and `ranks` ranks on `wires` wires, with the case of the root. `NoMemory` where memory runs out.
    pub fn new(
        alloc: Global,
        modules: usize,
        wires: u64,
        ranks: usize,
    ) -> Result<CaseRoom, NoMemory>
        requires modules { modules < 2 ^ 40 }
        requires wires { wires ≤ 256 }
        requires ranks { ranks ≤ 256 }
        ensures room { IfOk result HasCase }
        ensures root { IfOk result (λ room. IsCaseOf room root_case) }
        ensures modules { IfOk result (λ room. room.modules ≡ modules) }
        ensures wires { IfOk result (λ room. room.widths.wires ≡ wires) }
        ensures most { IfOk result (λ room. room.widths.most ≡ ranks) }
    {
        let widths = no_ranks(alloc, wires, ranks)?;
        let ranks = anywhere(alloc, modules, ranks)?;
        Ok(CaseRoom {
            widths,
            ranks,
            modules,
        })
    }

    /// How much is noted now.
    pub fn mark(&self) -> Mark
        ensures { IsMark result self.now }
    {
        Mark {
            changes: widths::changes(&self.widths),
            takings: ranks::takings(&self.ranks),
            places: self.ranks.may.len(),
        }
    }

    /// Undoes what was changed since `mark` was taken.
    pub fn undo(&mut self, mark: Mark)
        ensures { (before : CaseRoom) → IsMark mark before → HasCase before →
            IsFurther before self.old → IsSame before self.new }
    {
        widths::undo_changes(&mut self.widths, mark.changes);
        ranks::undo_ranks(&mut self.ranks, mark.takings, mark.places);
    }

    /// Narrows each interval to what the others leave to it.
    pub fn tighten(&mut self)
        requires room { HasCase self.old }
        ensures room { HasCase self.new }
        ensures further { IsFurther self.old self.new }
        ensures case { (c : Case) → IsCaseOf self.old c →
            IsCaseOf self.new (tightened self.old.widths.wires c) }
    {
        tighten_ranks(&mut self.widths);
    }

    /// The bus of the rank has at most this width, and so each later one.
    pub fn narrow(&mut self, rank: usize, width: u64)
        requires room { HasCase self.old }
        ensures room { HasCase self.new }
        ensures further { IsFurther self.old self.new }
        ensures case { (c : Case) → IsCaseOf self.old c → IsCaseOf self.new (narrow c rank width) }
    {
        narrow_ranks(&mut self.widths, rank, width);
    }

    /// The bus of the rank has more than this width, and so each earlier one.
    pub fn widen(&mut self, rank: usize, width: u64)
        requires room { HasCase self.old }
        requires rank { rank < length self.old.widths.intervals.items }
        requires width { width < 256 }
        ensures room { HasCase self.new }
        ensures further { IsFurther self.old self.new }
        ensures case { (c : Case) → IsCaseOf self.old c → IsCaseOf self.new (wide c rank width) }
    {
        widen_ranks(&mut self.widths, rank + 1, width + 1);
    }

    /// One more rank is known, of any width; what may be on the rest may be on it.
    pub fn extend(&mut self)
        requires room { HasCase self.old }
        requires case { (c : Case) × IsCaseOf self.old c }
        requires more { length self.old.widths.intervals.items < self.old.widths.most }
        ensures room { HasCase self.new }
        ensures further { IsFurther self.old self.new }
        ensures case { (c : Case) → IsCaseOf self.old c →
            IsCaseOf self.new (extended self.old.widths.wires c) }
    {
        add_rank(&mut self.widths);
        copy_rest(&mut self.ranks, self.modules);
    }

    /// The module at a place, with the ranks that are known.
    fn placing(&self, place: usize) -> Placing
        ensures place { result.place ≡ place }
        ensures modules { result.modules ≡ self.now.modules }
        ensures known { result.known ≡ length self.now.widths.intervals.items }
    {
        Placing {
            place,
            modules: self.modules,
            known: widths::known_ranks(&self.widths),
        }
    }

    /// The module at a place is on the rank alone, where it may be on it.
    pub fn place_on(&mut self, place: usize, rank: usize)
        requires room { HasCase self.old }
        requires case { (c : Case) × IsCaseOf self.old c }
        requires place { place < self.old.modules }
        ensures room { HasCase self.new }
        ensures further { IsFurther self.old self.new }
        ensures case { (c : Case) → IsCaseOf self.old c →
            IsCaseOf self.new (placed_on c rank place) }
    {
        let at = self.placing(place);
        place_on(&mut self.ranks, at, rank);
    }

    /// The module at a place is on none of some known ranks.
    pub fn place_off(&mut self, place: usize, rank: usize, twins: &[u64])
        requires room { HasCase self.old }
        requires case { (c : Case) × IsCaseOf self.old c }
        requires place { place < self.old.modules }
        requires rank { rank < length self.old.widths.intervals.items }
        requires twins { All (λ q. q < length self.old.widths.intervals.items) twins.now }
        ensures room { HasCase self.new }
        ensures further { IsFurther self.old self.new }
        ensures case { (c : Case) → IsCaseOf self.old c →
            IsCaseOf self.new (placed_off c (rank ∷ twins.now) place) }
    {
        let at = self.placing(place);
        place_off(&mut self.ranks, at, rank, twins);
    }
}
