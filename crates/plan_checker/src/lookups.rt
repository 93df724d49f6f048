//! What the checker asks of a chip.

ghost use Rattle.std.specs.Prelude.{◌≡◌, ◌≢◌, ℕ, length, IsTrue, IfSome, IfNone, false, Some, slice_get};
ghost use Rattle.std.specs.List.{Contains};
ghost use Rattle.soc_model.specs.Chips.{numbers, soc_value};
ghost use Rattle.soc_model.specs.SoundChips.{IsSoundChip};

use soc_model::{Soc, place_of};

/// The number of modules.
pub(crate) fn module_count(soc: &Soc) -> usize
    ensures { result ≡ length (soc_value soc.now).modules }
{
    soc.modules.len()
}

/// The place of the module of a number.
pub(crate) fn find_module(soc: &Soc, number: u64) -> Option<usize>
    requires { IsSoundChip (soc_value soc.now) }
    ensures found { IfSome result (λ p. slice_get (numbers (soc_value soc.now)) p ≡ Some number) }
    ensures none { IfNone result
        ((p x : ℕ) → slice_get (numbers (soc_value soc.now)) p ≡ Some x → x ≢ number) }
{
    place_of(soc, number)
}

/// Whether the chip has a module of that number.
pub(crate) fn is_known(soc: &Soc, number: u64) -> bool
    requires { IsSoundChip (soc_value soc.now) }
    ensures known { IsTrue result → Contains (soc_value soc.now).keys number }
    ensures unknown { result ≡ false → Contains (soc_value soc.now).keys number → ⊥ }
{
    match find_module(soc, number) {
        Some(_) => true,
        None => false,
    }
}
