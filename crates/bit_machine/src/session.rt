//! One module in its wrapper.
ghost use Rattle.std.specs.Prelude.{◌≡◌, ℕ, ◌^◌, ◌≤◌, Bool, false, length, map, slice_index_or, sum_by, IfOk};
ghost use Rattle.soc_model.specs.Chips.{module_value};
ghost use Rattle.plan_model.specs.Cells.{Cell, IsProper, out_length};
ghost use Rattle.plan_model.specs.Listing.{module_size};
ghost use Rattle.plan_model.specs.Operations.{Shift, Capture};
ghost use Rattle.plan_model.specs.Runs.{last_bit};
ghost use Rattle.plan_model.specs.Views.{chain_value};
ghost use Rattle.bit_machine.specs.Sessions.{at_rest, after, each_with, entered, response_bit};

use crate::capturing::{capture_response, resting_rings};
use crate::ring::Ring;
use outside::NoMemory;
use plan_model::Wrapper;
use soc_model::Module;
use std::alloc::Global;
use std::marker::Model;
use vector_lines::Layout;

/// One module in its wrapper, stepped cycle by cycle: the bits of its cells, chain by chain from wire in to wire out. It
/// has a copy of all that it needs of the module and the wrapper.
#[derive(Drop)]
pub struct Session {
    layout: Layout,
    bits: Vec<Ring>,
}

impl Model for Session {
    ghost use Rattle.bit_machine.specs.Sessions.{SessionValue, IsLong};
    ghost use Rattle.vector_lines.specs.Layouts.{layout_cells, IsLayout};

    ghost Value = { SessionValue };

    ghost view = { λ s. record
        { lengths = s.layout.lengths.items; cells = layout_cells s.layout; bits = s.bits.items } };

    ghost invariant = { λ s. IsLayout s.layout × IsLong s.layout s.bits.items };
}

/// Reads the last bit of each chain and then moves its bits one place on.
fn shift_all(chains: &mut [Ring], drive: &[bool], read: &mut [bool])
    requires driven { length drive.now ≡ length chains.old }
    requires shown { length read.old ≡ length chains.old }
    ensures bits { chains.new ≡ each_with entered drive.now chains.old }
    ensures read { read.new ≡ map last_bit chains.old }
{
    for place in 0..chains.len() {
        read[place] = chains[place].last();
        chains[place].enter(drive[place]);
    }
}

impl Session {
    /// A module in a proper wrapper, with bit 0 in each cell.
    ///
    /// Every module of a sound chip is small enough: `module_size-le` of plan_model's proofs/SoundChips.antt.
    pub fn new(alloc: Global, module: &Module, wrapper: &Wrapper) -> Result<Session, NoMemory>
        requires proper { IsProper (module_value «module».now) wrapper.now.scan
            (map chain_value wrapper.now.chains.items) }
        requires small { module_size (module_value «module».now) ≤ 10 ^ 18 }
        ensures { IfOk result (λ session. session
            ≡ at_rest (module_value «module».now) wrapper.now.scan
            (map chain_value wrapper.now.chains.items)) }
    {
        let layout = Layout::new(alloc, module, wrapper)?;
        let bits = resting_rings(alloc, &layout)?;
        Ok(Session { layout, bits })
    }

    /// One cycle of shifting: `read` is filled with the last bit of each chain, 0 for a chain without cells; then each
    /// bit moves one place on, and `drive` enters the first cells. Both have an entry for each chain.
    pub fn shift(&mut self, drive: &[bool], read: &mut [bool])
        requires driven { length drive.now ≡ length self.old.cells }
        requires shown { length read.old ≡ length self.old.cells }
        ensures lengths { self.new.lengths ≡ self.old.lengths }
        ensures cells { self.new.cells ≡ self.old.cells }
        ensures bits { (response : ℕ → Cell → Bool) → self.new.bits
            ≡ after response Shift (λ j. slice_index_or drive.now j false) self.old }
        ensures read { read.new ≡ map last_bit self.old.bits }
    {
        shift_all(&mut self.bits, drive, read);
    }

    /// One cycle of capturing: the cells of scan chains and output terminals take their bits of the response, and those
    /// of input terminals stay. The response has the bits of the scan chains' cells, by scan chain and place, and then
    /// those of the output cells.
    pub fn capture(&mut self, response: &[bool])
        requires { length response.now ≡ sum_by out_length self.old.cells }
        ensures lengths { self.new.lengths ≡ self.old.lengths }
        ensures cells { self.new.cells ≡ self.old.cells }
        ensures bits { (k : ℕ) (drive : ℕ → Bool) → self.new.bits
            ≡ after (λ k. response_bit self.old.lengths response.now) (Capture k) drive self.old }
    {
        capture_response(&self.layout, response, &mut self.bits);
    }
}
