//! The checker's room and its public call.
ghost use Rattle.std.specs.Prelude.{◌≡◌, ◌^◌, ◌≤◌, length, map, IfOk, IfErr, OnOk, IsOk, Err};
ghost use Rattle.std.specs.List.{All};
ghost use Rattle.soc_model.specs.Chips.{module_value};
ghost use Rattle.plan_model.specs.Cells.{IsProper};
ghost use Rattle.plan_model.specs.Listing.{module_size};
ghost use Rattle.plan_model.specs.Operations.{ops_of};
ghost use Rattle.plan_model.specs.Plans.{si_of, so_of};
ghost use Rattle.plan_model.specs.Views.{chain_value, wrapper_value};
ghost use Rattle.indexmap.specs.IndexSet.{keys, spare};
ghost use Rattle.shift_program.specs.declared.ProgramFault.{ProgramFault};
ghost use Rattle.shift_program.specs.Programs.{operations, wrapped_test, IsLasting};
ghost use Rattle.shift_program.specs.RightPrograms.{AreRight};
ghost use Rattle.shift_program.specs.Faults.{needed_for, IsFault};

use crate::counting::{Need, count_operations};
use crate::laws::{faultless_programs_are_right, program_faults_are_exact};
use crate::{Program, ProgramFault};
use indexmap::IndexSet;
use outside::NoMemory;
use plan_model::{Wrapper, lengths};
use soc_model::{Module, Test};
use std::alloc::Global;
use std::marker::Model;

/// Room for checking programs. Its model is the number of entries that there is room for.
#[derive(Drop)]
pub struct ProgramRoom {
    /// The patterns that were captured so far, in their order.
    seen: IndexSet<u64>,
}

impl Model for ProgramRoom {
    ghost use Rattle.std.specs.Prelude.{ℕ, ◌+◌, length};
    ghost use Rattle.indexmap.specs.IndexSet.{keys, spare};

    ghost Value = { ℕ };

    ghost view = { λ s. length (keys s.seen) + spare s.seen };
}

impl ProgramRoom {
    /// Room for this program, and for every one with no more entries.
    pub fn new(alloc: Global, program: &Program) -> Result<ProgramRoom, NoMemory>
        ensures { IfOk result (λ room. length program.now.entries.items ≤ room) }
    {
        let seen = IndexSet::with_capacity(alloc, program.entries.len())?;
        Ok(ProgramRoom { seen })
    }
}

/// Whether the program is right for a live test over the wires in a proper wrapper of its mode; then the number of its
/// operations, in cycles, which is at least what the test takes. Else the fault that shows first. It takes no memory, and the
/// room serves again.
///
/// Right means that it loads each stimulus and reads each response for every content, whatever the cells hold at first. The
/// wrapper is proper where `is_proper` says so, and every module of a sound chip is small enough: `module_size-le` of
/// plan_model's proofs/SoundChips.antt. Entries that were read have at least one cycle.
pub fn check_program(
    module: &Module,
    wrapper: &Wrapper,
    test: &Test,
    program: &Program,
    room: &mut ProgramRoom,
) -> Result<u128, ProgramFault>
    requires proper { IsProper (module_value «module».now) wrapper.now.scan
        (map chain_value wrapper.now.chains.items) }
    requires small { module_size (module_value «module».now) ≤ 10 ^ 18 }
    requires live { 1 ≤ test.now.patterns }
    requires lasting { All IsLasting program.now.entries.items }
    requires room { length program.now.entries.items ≤ room.old }
    ensures right { OnOk result
        (AreRight (wrapped_test (module_value «module».now) test.now (wrapper_value wrapper.now))
        (operations program.now.entries.items)) }
    ensures exact { AreRight
        (wrapped_test (module_value «module».now) test.now (wrapper_value wrapper.now))
        (operations program.now.entries.items) → IsOk result }
    ensures operations { IfOk result (λ n. n ≡ length (operations program.now.entries.items)) }
    ensures least { IfOk result (λ n. let chains =
        (wrapped_test (module_value «module».now) test.now (wrapper_value wrapper.now)).chains in
        length (ops_of «module».now.setup (si_of chains) (so_of chains) test.now.patterns) ≤ n) }
    ensures fault { IfErr result (IsFault
        (needed_for (wrapped_test (module_value «module».now) test.now (wrapper_value wrapper.now)))
        program.now.entries.items) }
    ensures only { (f : ProgramFault) →
        IsFault
        (needed_for
        (wrapped_test (module_value «module».now) test.now (wrapper_value wrapper.now)))
        program.now.entries.items f → result ≡ Err f }
    ensures room { room.old ≤ room.new }
{
    faultless_programs_are_right();
    program_faults_are_exact();
    let (si, so) = lengths(module, wrapper);
    let need = Need {
        setup: module.setup,
        si,
        so,
        patterns: test.patterns,
    };
    count_operations(&need, &program.entries, &mut room.seen)
}
