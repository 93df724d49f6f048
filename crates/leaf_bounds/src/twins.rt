//! Ranks that the same modules may be on.
ghost use Rattle.std.specs.Prelude.{◌≡◌, ◌+◌, ◌*◌, ◌^◌, ◌<◌, ◌≤◌, true, false, length};
ghost use Rattle.leaf_bounds.specs.Takings.{bit_at};
ghost use Rattle.leaf_bounds.specs.Bits.{AreAlike, HasPlace, IsUnlike, bit_place};

use crate::places::{Placing, may_be_on};
use crate::ranks::Ranks;

/// Whether the module at a place is marked.
fn is_marked(wired: &[bool], place: usize) -> bool
    requires { place < length wired.now }
    ensures { result ≡ bit_at wired.now place }
{
    wired[place]
}

/// Whether a module, where it is marked, may be on the one rank exactly where it may be on the other.
fn is_alike(ranks: &Ranks, wired: &[bool], at: Placing, rank: usize, twin: usize) -> bool
    requires at { HasPlace ranks.now.may.items at }
    requires wired { length wired.now ≡ at.modules }
    requires rank { rank < at.known }
    requires twin { twin < at.known }
    ensures yes { result ≡ true → bit_at wired.now at.place ≡ true →
        bit_at ranks.now.may.items (bit_place at.modules at.place twin)
        ≡ bit_at ranks.now.may.items (bit_place at.modules at.place rank) }
    ensures no { result ≡ false → IsUnlike at.modules wired.now ranks.now.may.items rank twin }
{
    if !is_marked(wired, at.place) {
        return true;
    }
    let on_twin = may_be_on(ranks, at, twin);
    let on_rank = may_be_on(ranks, at, rank);
    on_twin == on_rank
}

/// Whether each marked module may be on the one known rank exactly where it may be on the other.
pub fn are_alike(ranks: &Ranks, wired: &[bool], known: usize, rank: usize, twin: usize) -> bool
    requires modules { length wired.now < 2 ^ 40 }
    requires known { known ≤ 256 }
    requires long { length ranks.now.may.items ≡ (known + 1) * length wired.now }
    requires rank { rank < known }
    requires twin { twin < known }
    ensures yes { result ≡ true →
        AreAlike (length wired.now) wired.now ranks.now.may.items rank twin (length wired.now) }
    ensures no { result ≡ false →
        IsUnlike (length wired.now) wired.now ranks.now.may.items rank twin }
{
    let modules = wired.len();
    for place in 0..modules {
        let at = Placing {
            place,
            modules,
            known,
        };
        if !is_alike(ranks, wired, at, rank, twin) {
            return false;
        }
    }
    true
}
