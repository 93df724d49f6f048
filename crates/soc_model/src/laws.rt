//! The laws over the definitions. Each is the contract of a function that does nothing: a caller learns it by the call.
ghost use Rattle.std.specs.Prelude.{◌≡◌, ◌↔◌, ℕ, List, Some};
ghost use Rattle.soc_model.specs.Chips.{ModuleValue, IsParent, parent_place};

/// The parent that the look-up finds is the parent, and a parent is found.
pub fn parents_are_found()
    ensures { (modules : List ModuleValue) (parent place : ℕ) →
        (parent_place modules place ≡ Some parent) ↔ IsParent modules parent place }
{}
