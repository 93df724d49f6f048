//! A chain of cells whose bits move on without being copied.
ghost use Rattle.std.specs.Prelude.{◌≡◌, ◌+◌, ◌<◌, ◌⊎◌, false, length, get_or, replicate, set, IfOk};
ghost use Rattle.plan_model.specs.Runs.{last_bit};
ghost use Rattle.bit_machine.specs.Sessions.{entered};

use crate::bits::Bits;
use outside::NoMemory;
use std::alloc::Global;
use std::marker::Model;

/// The bits of a chain, from wire in to wire out, 64 in a word. The first cell is at the head, and the others follow it
/// around the ring: a Shift moves the head and writes one bit.
#[derive(Drop)]
pub struct Ring {
    bits: Bits,
    head: usize,
}

impl Model for Ring {
    ghost use Rattle.std.specs.Prelude.{◌++◌, Bool, List, drop, take};
    ghost use Rattle.bit_machine.specs.Rings.{IsHead};

    ghost Value = { List Bool };

    ghost view = { λ r. drop r.head r.bits ++ take r.head r.bits };

    ghost invariant = { λ r. IsHead r.head r.bits };
}

/// The place before the head, that of the last cell.
fn before_head(head: usize, cells: usize) -> usize
    requires some { 0 < cells }
    requires head { head < cells }
    ensures within { result < cells }
    ensures before { (result + 1 ≡ head) ⊎ ((head ≡ 0) × (result + 1 ≡ cells)) }
{
    if head == 0 { cells - 1 } else { head - 1 }
}

/// Where a cell's bit stands.
fn place_of(head: usize, cells: usize, cell: usize) -> usize
    requires head { head < cells }
    requires cell { cell < cells }
    ensures within { result < cells }
    ensures place { (result ≡ head + cell) ⊎ (result + cells ≡ head + cell) }
{
    let behind = cells - head;
    if cell < behind {
        head + cell
    } else {
        cell - behind
    }
}

impl Ring {
    /// A chain of `cells` cells, each with bit 0.
    pub fn zeros(alloc: Global, cells: usize) -> Result<Ring, NoMemory>
        ensures { IfOk result (λ ring. ring ≡ replicate cells false) }
    {
        let bits = Bits::zeros(alloc, cells)?;
        Ok(Ring { bits, head: 0 })
    }

    /// The number of cells.
    pub fn len(&self) -> usize
        ensures { result ≡ length self.now }
    {
        self.bits.len()
    }

    /// The bit of the last cell, 0 where there is no cell.
    pub fn last(&self) -> bool
        ensures { result ≡ last_bit self.now }
    {
        let cells = self.bits.len();
        if cells == 0 {
            return false;
        }
        self.bits.bit(before_head(self.head, cells))
    }

    /// Every bit moves one place on, and this one enters the first cell.
    pub fn enter(&mut self, bit: bool)
        ensures { self.new ≡ entered bit self.old }
    {
        let cells = self.bits.len();
        if cells == 0 {
            return;
        }
        let first = before_head(self.head, cells);
        self.bits.put(first, bit);
        self.head = first;
    }

    /// The bit of a cell.
    pub fn bit(&self, cell: usize) -> bool
        requires { cell < length self.now }
        ensures { result ≡ get_or self.now cell false }
    {
        self.bits.bit(place_of(self.head, self.bits.len(), cell))
    }

    /// Writes the bit of a cell.
    pub fn put(&mut self, cell: usize, bit: bool)
        requires { cell < length self.old }
        ensures { self.new ≡ set self.old cell bit }
    {
        let place = place_of(self.head, self.bits.len(), cell);
        self.bits.put(place, bit);
    }
}
