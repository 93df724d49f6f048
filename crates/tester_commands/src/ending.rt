//! How a call ends: a verdict that is written at once, or a long text that is written as it is made.
ghost use Rattle.std.proofs.Common.{inl};
ghost use Rattle.std.specs.Prelude.{◌≡◌};
ghost use Rattle.tester_commands.specs.Endings.{ending_value};

use commands::{Accepted, Verdict};
use soc_model::Soc;
use std::marker::Model;
use test_data::TestData;

/// A form in which a plan with test data is written.
#[derive(Clone, Copy, PartialEq, Eq, Debug)]
pub enum RunForm {
    /// The vectors alone: what each wire carries and compares.
    Vectors,
    /// STIL (IEEE 1450-1999), which the software of testers reads.
    Stil,
    /// A value change dump (IEEE 1364), which a waveform viewer reads.
    Vcd,
    /// A test bench in Verilog (IEEE 1364), which a simulator reads.
    Verilog,
}

/// A chip, whose test data is made from a seed. The chip is sound.
#[derive(Drop)]
pub struct DataRequest {
    pub soc: Soc,
    pub seed: u64,
}

impl Model for DataRequest {
    ghost use Rattle.soc_model.specs.Chips.{soc_value};
    ghost use Rattle.soc_model.specs.SoundChips.{IsSoundChip};
    ghost use Rattle.tester_commands.specs.Requests.{DataRequestValue};

    ghost Value = { DataRequestValue };

    ghost view = { λ r. record { soc = soc_value r.soc; seed = r.seed } };

    ghost invariant = { λ r. IsSoundChip (soc_value r.soc) };
}

/// An accepted plan with test data, whose run isn't too long.
#[derive(Drop)]
pub struct DataRun {
    pub all: Accepted,
    pub test_data: TestData,
}

impl Model for DataRun {
    ghost use Rattle.std.specs.Prelude.{◌≡◌, None};
    ghost use Rattle.tester_vectors.specs.VectorText.{more_than};
    ghost use Rattle.tester_commands.specs.declared.TheConstants.{LONG_RUN_MOST};
    ghost use Rattle.tester_commands.specs.Requests.{DataRunValue};

    ghost Value = { DataRunValue };

    ghost view = { λ r. record { all = r.all; entries = r.test_data } };

    ghost invariant = { λ r. more_than LONG_RUN_MOST r.all.plan ≡ None };
}

impl DataRun {
    /// Frees the plan and the data.
    pub fn free(self) {
        drop(self);
    }
}

/// How a call ends.
#[derive(Drop)]
pub enum Ending {
    /// This verdict, which is decided before anything is written.
    Decided(Verdict),
    /// The vectors of an accepted plan, with contents that are made from a seed.
    Vectors { all: Accepted, seed: u64 },
    /// Test data of a chip, with contents that are made from a seed.
    MadeData(DataRequest),
    /// An accepted plan with test data, in a form for testers.
    DataRun { form: RunForm, run: DataRun },
}

/// The ending that is this verdict.
#[inline(always)]
pub fn decided(verdict: Verdict) -> Ending
    ensures { ending_value result ≡ inl verdict }
{
    Ending::Decided(verdict)
}
