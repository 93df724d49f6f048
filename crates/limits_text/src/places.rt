//! The tests of a chip: whether a name is one of them, and its place among those that are live.
ghost use Rattle.std.specs.Prelude.{◌≡◌, [], Some, map, set, IfOk};
ghost use Rattle.std.specs.List.{list_any};
ghost use Rattle.soc_model.specs.Chips.{soc_value};
ghost use Rattle.plan_model.specs.Rules.{live_ids};
ghost use Rattle.limits_text.specs.Items.{before_item};
ghost use Rattle.limits_text.specs.Places.{AreRows, row_of, named, Notes, AreNoted, names_test as is_of_test};
ghost use Rattle.limits_text.specs.Views.{item_of};

use crate::LimFault;
use crate::items::Item;
use live_tests::LiveTests;
use outside::{NoMemory, push};
use soc_model::{Module, Soc, TestId, find_test, place_of};
use std::alloc::Global;
use std::marker::Model;

/// Of each number from 0 to the count of a module's tests: the place of its test among the live tests of the chip.
#[derive(Drop)]
pub struct Row {
    /// None where the module has no test of that number, and None within where that test isn't live.
    pub by_number: Vec<Option<Option<usize>>>,
}

/// A chip, its live tests, and for each module what its tests' numbers say of these. Most chips number a module's tests
/// from 1, so a name is looked up by its numbers, without a search. Its model is the chip.
#[derive(Drop)]
pub struct ChipTests<'a> {
    soc: &'a Soc,
    live: &'a LiveTests,
    rows: Vec<Row>,
}

impl<'a> Model for ChipTests<'a> {
    ghost use Rattle.std.specs.Prelude.{◌≡◌};
    ghost use Rattle.soc_model.specs.Chips.{SocValue, soc_value};
    ghost use Rattle.plan_model.specs.Rules.{live_ids};
    ghost use Rattle.limits_text.specs.Places.{AreRows};

    ghost Value = { SocValue };

    ghost view = { λ t. soc_value t.soc.now };

    ghost invariant = { λ t. (t.live.now ≡ live_ids (soc_value t.soc.now))
        × AreRows (live_ids (soc_value t.soc.now)) t.soc.now t.rows.items };
}

impl<'a> ChipTests<'a> {
    /// The tests of a chip, of which these are live. `NoMemory` where memory runs out for them.
    pub fn new(alloc: Global, soc: &'a Soc, live: &'a LiveTests) -> Result<ChipTests<'a>, NoMemory>
        requires { live.now ≡ live_ids (soc_value soc.now) }
        ensures { IfOk result (λ tests. tests ≡ soc_value soc.now) }
    {
        let rows = rows_of(alloc, soc, live)?;
        Ok(ChipTests { soc, live, rows })
    }

    /// The names of the live tests, in the order of the chip.
    pub fn names(&self) -> &[TestId]
        ensures { result.now ≡ live_ids self.now }
    {
        self.live.names()
    }

    /// The place of a name among those of the live tests, where it is there. None comes exactly where the chip has no
    /// test of that name.
    pub fn place(&self, id: TestId) -> Option<Option<usize>>
        ensures { result ≡ named self.now id }
    {
        let place = place_of(self.soc, id.module)?;
        let row = &self.rows[place];
        match row.by_number.get(id.test as usize) {
            Some(noted) => *noted,
            None => self.place_beyond(id),
        }
    }

    /// The place by a search, for a test's number that its module's row doesn't reach.
    fn place_beyond(&self, id: TestId) -> Option<Option<usize>>
        ensures { result ≡ named self.now id }
    {
        find_test(self.soc, id)?;
        Some(self.live.place(id))
    }
}

/// Notes the place of a number's test, where the row reaches so far.
fn note_number(by_number: &mut Vec<Option<Option<usize>>>, number: u64, place: Option<usize>)
    ensures { by_number.new.items ≡ set by_number.old.items number (Some place) }
{
    let at = number as usize;
    if at < by_number.len() {
        by_number[at] = Some(place);
    }
}

/// The row of a module that is found by a number. A test's number that comes again is noted alike.
fn row_in(alloc: Global, live: &LiveTests, number: u64, module: &Module) -> Result<Row, NoMemory>
    ensures { IfOk result (λ row. row.by_number.items ≡ row_of live.now (number, «module».now)) }
{
    let mut by_number = Vec::from_elem(alloc, None, module.tests.len() + 1)?;
    for test in &module.tests {
        let id = TestId {
            module: number,
            test: test.number,
        };
        note_number(&mut by_number, test.number, live.place(id));
    }
    Ok(Row { by_number })
}

/// The rows of all modules, in the order of the chip.
fn rows_of(alloc: Global, soc: &Soc, live: &LiveTests) -> Result<Vec<Row>, NoMemory>
    ensures { IfOk result (λ rows. AreRows live.now soc.now rows.items) }
{
    let mut rows = Vec::new(alloc);
    for place in 0..soc.modules.len() {
        match soc.modules.get_index(place) {
            Some((number, module)) => push(&mut rows, row_in(alloc, live, *number, module)?)?,
            None => unreachable!(),
        }
    }
    Ok(rows)
}

/// Notes the places of a precedence of live tests. `UnknownTest` where the chip hasn't both tests.
#[tactic(auto, using(crate::proofs::Noting::first_unknown_of, crate::proofs::Noting::second_unknown_of, crate::proofs::Noting::known_first, crate::proofs::Noting::known_second, crate::proofs::Noting::known_both))]
fn note_precedence(
    tests: &ChipTests<'_>,
    pairs: &mut Vec<(usize, usize)>,
    line: u64,
    first: TestId,
    second: TestId,
) -> Result<(), LimFault>
    ensures { Notes tests.now (before_item line first second) pairs.old.items pairs.new.items
        result }
{
    let Some(earlier) = tests.place(first) else {
        return Err(LimFault::UnknownTest { line });
    };
    let Some(later) = tests.place(second) else {
        return Err(LimFault::UnknownTest { line });
    };
    let Some(earlier) = earlier else {
        return Ok(());
    };
    let Some(later) = later else {
        return Ok(());
    };
    push(pairs, (earlier, later))?;
    Ok(())
}

/// Looks up the tests that an item names, and notes the places of a precedence.
#[tactic(auto, using(crate::proofs::Noting::profile_unknown, crate::proofs::Noting::profile_known))]
fn note_item(
    tests: &ChipTests<'_>,
    pairs: &mut Vec<(usize, usize)>,
    item: &Item,
) -> Result<(), LimFault>
    ensures { Notes tests.now (item_of item.now) pairs.old.items pairs.new.items result }
{
    match item {
        Item::Number { .. } => Ok(()),
        Item::Precedence {
            line,
            first,
            second,
        } => note_precedence(tests, pairs, *line, *first, *second),
        Item::Steps { line, test, .. } => match tests.place(*test) {
            Some(_) => Ok(()),
            None => Err(LimFault::UnknownTest { line: *line }),
        },
    }
}

/// No precedences, with room for `count` of them.
fn room_for_pairs(alloc: Global, count: usize) -> Result<Vec<(usize, usize)>, NoMemory>
    ensures { IfOk result (λ pairs. pairs.items ≡ []) }
{
    let pairs = Vec::with_capacity(alloc, count)?;
    Ok(pairs)
}

/// The precedences of live tests by the places of these, in the order of the text. `UnknownTest` with the line of the
/// first item that names a test which isn't in the chip.
pub fn precedences(
    alloc: Global,
    tests: &ChipTests<'_>,
    list: &[Item],
) -> Result<Vec<(usize, usize)>, LimFault>
    ensures { AreNoted tests.now (map item_of list.now) result }
{
    let mut pairs = room_for_pairs(alloc, list.len())?;
    for item in list {
        match note_item(tests, &mut pairs, item) {
            Ok(()) => {}
            Err(fault) => return Err(fault),
        }
    }
    Ok(pairs)
}

/// Whether an item names a test.
fn names_test(item: &Item) -> bool
    ensures { result ≡ is_of_test (item_of item.now) }
{
    !matches!(item, Item::Number { .. })
}

/// Whether some item names a test.
pub fn some_names_test(list: &[Item]) -> bool
    ensures { result ≡ list_any is_of_test (map item_of list.now) }
{
    for item in list {
        if names_test(item) {
            return true;
        }
    }
    false
}
