//! The order of the tests of a state, and how it is changed.
ghost use Rattle.std.specs.Prelude.{◌≡◌, ℕ, ◌<◌, ◌≤◌, length, IfSome};
ghost use Rattle.std.specs.List.{All};

use arch_schedule::Draws;
use live_tests::Neighbours;
use resource_table::earlier_than;

/// A test goes no further than this many places from its own, where it goes near.
const NEAR_PLACES: usize = 4;

/// Whether a test stands among those that precede another.
fn precedes(before: &[Neighbours], earlier: usize, later: usize) -> bool
    requires { later < length before.now }
{
    earlier_than(before, later).contains(&earlier)
}

/// Whether the tests at two places of an order can change places: the first precedes none from behind it up to the
/// second, and the second is preceded by none from the first on.
fn may_exchange(before: &[Neighbours], order: &[usize], first: usize, second: usize) -> bool
    requires within { second < length order.now }
    requires order { All (λ test. test < length before.now) order.now }
{
    for place in first..second {
        if precedes(before, order[place], order[second]) {
            return false;
        }
        if precedes(before, order[first], order[place + 1]) {
            return false;
        }
    }
    true
}

/// Lets the tests at two places of an order change places, where each test still comes behind those that precede it.
/// Whether anything changed.
fn exchange_tests(before: &[Neighbours], order: &mut Vec<usize>, one: usize, other: usize) -> bool
    requires one { one < length order.old.items }
    requires other { other < length order.old.items }
    requires order { All (λ test. test < length before.now) order.old.items }
    ensures order { All (λ test. test < length before.now) order.new.items }
    ensures long { length order.new.items ≡ length order.old.items }
{
    let first = one.min(other);
    let second = one.max(other);
    if first == second || !may_exchange(before, order, first, second) {
        return false;
    }
    let test = order[first];
    order[first] = order[second];
    order[second] = test;
    true
}

/// Lets two tests that are drawn change places in the order, where each test still comes behind those that precede it. Whether
/// anything changed.
pub(crate) fn change_order(before: &[Neighbours], order: &mut Vec<usize>, draws: &mut Draws) -> bool
    requires order { All (λ test. test < length before.now) order.old.items }
    ensures order { All (λ test. test < length before.now) order.new.items }
    ensures long { length order.new.items ≡ length order.old.items }
{
    let tests = order.len();
    if tests == 0 {
        return false;
    }
    let one = draws.below(tests);
    let other = draws.below(tests);
    exchange_tests(before, order, one, other)
}

/// Whether the test at a place of an order can go to an earlier one: none from there on precedes it.
fn may_advance(before: &[Neighbours], order: &[usize], place: usize, to: usize) -> bool
    requires within { place < length order.now }
    requires order { All (λ test. test < length before.now) order.now }
{
    for between in to..place {
        if precedes(before, order[between], order[place]) {
            return false;
        }
    }
    true
}

/// Lets the test at a place of an order go to an earlier place.
fn advance_test(order: &mut Vec<usize>, place: usize, to: usize)
    requires within { place < length order.old.items }
    ensures order { (n : ℕ) → All (λ test. test < n) order.old.items →
        All (λ test. test < n) order.new.items }
    ensures long { length order.new.items ≡ length order.old.items }
{
    let mut carried = order[place];
    for next in to..place + 1 {
        let held = order[next];
        order[next] = carried;
        carried = held;
    }
}

/// Whether the test at a place of an order can go to a later one: it precedes none up to there.
fn may_retreat(before: &[Neighbours], order: &[usize], place: usize, to: usize) -> bool
    requires within { to < length order.now }
    requires order { All (λ test. test < length before.now) order.now }
{
    for between in place..to {
        if precedes(before, order[place], order[between + 1]) {
            return false;
        }
    }
    true
}

/// Lets the test at a place of an order go to a later place.
fn retreat_test(order: &mut Vec<usize>, place: usize, to: usize)
    requires start { place < length order.old.items }
    requires within { to < length order.old.items }
    ensures order { (n : ℕ) → All (λ test. test < n) order.old.items →
        All (λ test. test < n) order.new.items }
    ensures long { length order.new.items ≡ length order.old.items }
{
    let test = order[place];
    for next in place..to {
        order[next] = order[next + 1];
    }
    order[to] = test;
}

/// Lets the test at a place of an order go to another place, those between move up by one; where each test still comes behind
/// those that precede it. Whether anything changed.
fn move_test(before: &[Neighbours], order: &mut Vec<usize>, place: usize, to: usize) -> bool
    requires place { place < length order.old.items }
    requires to { to < length order.old.items }
    requires order { All (λ test. test < length before.now) order.old.items }
    ensures order { All (λ test. test < length before.now) order.new.items }
    ensures long { length order.new.items ≡ length order.old.items }
{
    if to < place {
        if !may_advance(before, order, place, to) {
            return false;
        }
        advance_test(order, place, to);
        return true;
    }
    if !may_retreat(before, order, place, to) {
        return false;
    }
    retreat_test(order, place, to);
    true
}

/// Another place of an order of `tests` tests: any, or by even chance a near one. None where that is no place.
fn other_place(place: usize, tests: usize, draws: &mut Draws) -> Option<usize>
    requires { 1 ≤ tests }
    ensures { IfSome result (λ other. other < tests) }
{
    if draws.coin() {
        return Some(draws.below(tests));
    }
    let ahead = place.saturating_add(draws.below(2 * NEAR_PLACES + 1));
    let other = ahead.checked_sub(NEAR_PLACES)?;
    if other >= tests {
        return None;
    }
    Some(other)
}

/// Lets two tests change places in the order, or one go to another place, as is drawn; where each test still comes behind those
/// that precede it. Whether anything changed.
pub(crate) fn reorder_tests(
    before: &[Neighbours],
    order: &mut Vec<usize>,
    draws: &mut Draws,
) -> bool
    requires order { All (λ test. test < length before.now) order.old.items }
    ensures order { All (λ test. test < length before.now) order.new.items }
    ensures long { length order.new.items ≡ length order.old.items }
{
    let tests = order.len();
    if tests < 2 {
        return false;
    }
    let one = draws.below(tests);
    let Some(other) = other_place(one, tests, draws) else {
        return false;
    };
    if one == other {
        return false;
    }
    if draws.coin() {
        return exchange_tests(before, order, one, other);
    }
    move_test(before, order, one, other)
}

/// Lets the test at a place of an order go to an earlier one that is drawn, where each test still comes behind those that
/// precede it. Whether anything changed.
pub(crate) fn advance_drawn(
    before: &[Neighbours],
    order: &mut Vec<usize>,
    place: usize,
    draws: &mut Draws,
) -> bool
    requires order { All (λ test. test < length before.now) order.old.items }
    ensures order { All (λ test. test < length before.now) order.new.items }
    ensures long { length order.new.items ≡ length order.old.items }
{
    if place == 0 || place >= order.len() {
        return false;
    }
    let to = draws.below(place);
    if !may_advance(before, order, place, to) {
        return false;
    }
    advance_test(order, place, to);
    true
}
