//! Which tests are never active together.
ghost use Rattle.std.specs.Prelude.{◌≡◌};
ghost use Rattle.resource_table.specs.Jobs.{test_value};
ghost use Rattle.resource_table.specs.Schedules.{same_bus as go_over_one, is_at as stands_at, exclude};

use crate::JobTest;

/// Whether two places of buses are of one bus.
fn same_bus(one: Option<usize>, other: Option<usize>) -> bool
    ensures { result ≡ go_over_one one other }
{
    match (one, other) {
        (Some(a), Some(b)) => a == b,
        _ => false,
    }
}

/// Whether a module, where there is one, stands at a place.
fn is_at(module: Option<usize>, place: usize) -> bool
    ensures { result ≡ stands_at «module» place }
{
    match module {
        Some(at) => at == place,
        None => false,
    }
}

impl JobTest {
    /// Whether two tests are never active together: they go over one bus, are of one module, or of a module and its direct parent.
    pub fn excludes(&self, other: &JobTest) -> bool
        ensures { result ≡ exclude (test_value self.now) (test_value other.now) }
    {
        (same_bus(self.bus, other.bus) || self.place == other.place)
            || (is_at(self.parent, other.place) || is_at(other.parent, self.place))
    }
}
