//! Tests by name, with their places in a list.
ghost use Rattle.std.specs.Prelude.{◌≡◌, IfOk};
ghost use Rattle.live_tests.specs.Names.{AllDiffer};

use indexmap::IndexSet;
use outside::NoMemory;
use soc_model::TestId;
use std::alloc::Global;

/// An index of names, by their places.
pub(crate) fn index_of(alloc: Global, names: &[TestId]) -> Result<IndexSet<TestId>, NoMemory>
    requires { AllDiffer names.now }
    ensures { IfOk result (λ ids. ids.keys ≡ names.now) }
{
    let mut ids = IndexSet::new(alloc);
    for name in names {
        ids.insert(*name)?;
    }
    Ok(ids)
}
