//! The modes of a module: mode `scan` uses its scan chains, mode `terminals` has none.
ghost use Rattle.std.specs.Prelude.{◌≡◌};
ghost use Rattle.soc_model.specs.Chips.{module_value};
ghost use Rattle.soc_model.specs.Modes.{has_tam, is_of_mode, is_tam, scan_lengths, uses_mode};

use crate::{Module, Test, live};

/// Whether a test is live and goes over the test access wires.
pub fn over_wires(test: &Test) -> bool
    ensures { result ≡ is_tam test.now }
{
    live(test) && test.tam
}

/// Whether a test is live and goes over the test access wires in a mode: `scan`, or else `terminals`.
pub fn is_of_mode(test: &Test, scan: bool) -> bool
    ensures { result ≡ is_of_mode scan test.now }
{
    live(test) && test.tam && test.scan == scan
}

/// Whether a live test of the module goes over the test access wires.
pub fn has_tam_test(module: &Module) -> bool
    ensures { result ≡ has_tam (module_value «module».now) }
{
    module.tests.iter().any(|test| over_wires(test))
}

/// Whether a live test of the module goes over the test access wires in a mode.
pub fn uses_mode(module: &Module, scan: bool) -> bool
    ensures { result ≡ uses_mode scan (module_value «module».now) }
{
    module.tests.iter().any(|test| is_of_mode(test, scan))
}

/// The lengths of the scan chains that a mode of the module has, in cells: none over the terminals alone.
pub fn mode_chains(module: &Module, scan: bool) -> &[u64]
    ensures { result.now ≡ scan_lengths (module_value «module».now) scan }
{
    if scan { &module.chains } else { &[] }
}
