//! Rows of digits in columns, one row behind another, and what a live test puts into them.
ghost use Rattle.std.specs.Prelude.{◌≡◌, ℕ, ◌+◌, ◌-◌, ◌*◌, ◌^◌, ◌<◌, ◌≤◌, true, length, nat_eq, slice_index};
ghost use Rattle.controls.specs.Columns.{AreOnes, ArePut, does, is_run, is_told, tells};
ghost use Rattle.controls.specs.Tests.{IsFit};

use crate::placing::ControlledTest;
use crate::spells::{Action, spell_at};

/// The columns of the two controls of a module.
#[derive(Clone, Copy, Drop)]
pub struct ModuleColumns {
    /// That of its Shifts.
    pub shift: usize,
    /// That of its Captures.
    pub capture: usize,
}

/// Writes a `0` into each of the first `count` bytes of a text.
pub fn put_zeros(text: &mut [u8], count: usize)
    requires { count ≤ length text.old }
    ensures long { length text.new ≡ length text.old }
    ensures zeros { (i : ℕ) → i < count → slice_index text.new i ≡ 48 }
{
    for i in 0..count {
        text[i] = b'0';
    }
}

/// Writes a `1` into a column of `count` rows, from a row on.
fn put_ones(text: &mut [u8], columns: usize, row: usize, column: usize, count: usize)
    requires column { column < columns }
    requires rows { (row + count) * columns ≤ length text.old }
    ensures { AreOnes (λ x. nat_eq x column) columns row count text.old text.new }
{
    for below in 0..count {
        text[(row + below) * columns + column] = b'1';
    }
}

/// Writes a `1` into the column of a test in the rows of the cycles at which it is active. The first row is that of the cycle `from`.
fn put_run(
    text: &mut [u8],
    columns: usize,
    test: &ControlledTest,
    column: usize,
    from: u64,
    count: u64,
)
    requires column { column < columns }
    requires rows { count * columns ≤ length text.old }
    requires fits { from + count < 2 ^ 64 }
    ensures { ArePut (is_run column test.now) columns from count text.old text.new }
{
    let start = test.start.max(from);
    let end = test.end.min(from + count);
    if start < end {
        let row = (start - from) as usize;
        put_ones(text, columns, row, column, (end - start) as usize);
    }
}

/// Writes a `1` into the column of what is done, in `count` rows from one on.
fn put_action(
    text: &mut [u8],
    columns: usize,
    row: usize,
    own: ModuleColumns,
    action: Action,
    count: usize,
)
    requires shift { own.shift < columns }
    requires capture { own.capture < columns }
    requires rows { (row + count) * columns ≤ length text.old }
    ensures { AreOnes (does own action) columns row count text.old text.new }
{
    match action {
        Action::Rest => {}
        Action::Shift => put_ones(text, columns, row, own.shift, count),
        Action::Capture => put_ones(text, columns, row, own.capture, count),
    }
}

/// Writes a `1` into the columns of a module's controls where a test over the wires shifts or captures. The first row is that of the
/// cycle `from`.
fn put_operations(
    text: &mut [u8],
    columns: usize,
    test: &ControlledTest,
    own: ModuleColumns,
    from: u64,
    count: u64,
)
    requires test { IsFit test.now }
    requires shift { own.shift < columns }
    requires capture { own.capture < columns }
    requires rows { count * columns ≤ length text.old }
    requires fits { from + count < 2 ^ 64 }
    ensures { ArePut (is_told own test.now) columns from count text.old text.new }
{
    let end = test.end.min(from + count);
    let mut cycle = test.start.max(from);
    while cycle < end {
        let spell = spell_at(&test.phases, cycle - test.start);
        let going = spell.cycles.min(end - cycle);
        let row = (cycle - from) as usize;
        put_action(text, columns, row, own, spell.action, going as usize);
        cycle += going;
    }
}

/// Writes a `1` where a live test makes a control 1: in its own column, and in those of its module. The first row is that of the cycle
/// `from`.
pub fn put_test(
    text: &mut [u8],
    columns: usize,
    test: &ControlledTest,
    column: usize,
    own: ModuleColumns,
    from: u64,
    count: u64,
)
    requires test { test.now.tam ≡ true → IsFit test.now }
    requires column { column < columns }
    requires shift { test.now.tam ≡ true → own.shift < columns }
    requires capture { test.now.tam ≡ true → own.capture < columns }
    requires rows { count * columns ≤ length text.old }
    requires fits { from + count < 2 ^ 64 }
    ensures { ArePut (tells column own test.now) columns from count text.old text.new }
{
    put_run(text, columns, test, column, from, count);
    if test.tam {
        put_operations(text, columns, test, own, from, count);
    }
}
