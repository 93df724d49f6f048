//! A prefix of an order, as a walk over the orders goes on from it and comes back to it.
ghost use Rattle.std.specs.Prelude.{◌≡◌, ℕ, ◌+◌, ◌-◌, ◌^◌, ◌<◌, ◌≤◌, ◌++◌, ◌∷◌, [], List, Some, true, false, nat_eq, length, slice_get, slice_index_or, slice_set, vec_capacity, IfOk};
ghost use Rattle.std.specs.List.{All, filter, remove};
ghost use Rattle.resource_table.specs.Jobs.{job_value};
ghost use Rattle.schedule_search.specs.Walks.{is_in};
ghost use Rattle.schedule_search.specs.Prefixes.{outside, followers, all_free, times_in, AreApart, AreLess, AreInRange, AreSorted, HasPrefixRoom, IsAt, IsOut};
ghost use Rattle.schedule_search.specs.Taken.{IsTakenOut};
ghost use Rattle.schedule_search.specs.Progress.{AreTries};

use crate::lists::{copy_to, put_at, put_for, room_for, take_at};
use crate::sorted::{place_of, put_in, take_out};
use crate::tries::OrderTables;
use outside::NoMemory;
use resource_table::{Job, earlier_than};
use std::alloc::Global;

/// A prefix of an order, and what is left for the tests outside it.
#[derive(Drop)]
pub(crate) struct Prefix {
    /// The tests of the prefix, in their order.
    pub(crate) tests: Vec<usize>,
    /// The tests outside it, in the order in which they are tried.
    pub(crate) rest: Vec<usize>,
    /// Those of them that wait for none outside, in the same order.
    pub(crate) free: Vec<usize>,
    /// For each test of the job how many of its precedences come from tests outside.
    pub(crate) missing: Vec<usize>,
}

/// A test that is out of the lists of a prefix, and its place among the tests that are left.
#[derive(Clone, Copy, Drop)]
pub(crate) struct TakenOut {
    /// The test.
    pub(crate) test: usize,
    /// Its place.
    pub(crate) left: usize,
}

/// Counts one precedence less of a test outside a prefix. Where none is left, it is put among the free tests.
fn wait_less(job: &Job, missing: &mut [usize], free: &mut Vec<usize>, test: usize)
    requires long { length missing.old ≡ length (job_value job.now).tests }
    requires in_job { test < length (job_value job.now).tests }
    requires some { 1 ≤ slice_index_or missing.old test 0 }
    requires free { (prefix : List ℕ) × (is_in prefix test ≡ false)
        × (free.old.items ≡ all_free (job_value job.now) prefix missing.old) }
    requires room { length (job_value job.now).tests ≤ vec_capacity free.old }
    ensures missing { missing.new
        ≡ slice_set missing.old test (slice_index_or missing.old test 0 - 1) }
    ensures free { (prefix : List ℕ) → is_in prefix test ≡ false →
        free.old.items ≡ all_free (job_value job.now) prefix missing.old →
        free.new.items ≡ all_free (job_value job.now) prefix missing.new }
    ensures room { vec_capacity free.new ≡ vec_capacity free.old }
{
    missing[test] -= 1;
    if missing[test] != 0 {
        return;
    }
    put_in(job, free, test);
}

/// Counts one precedence more of a test outside a prefix. Where there was none, it is taken out of the free tests.
fn wait_more(job: &Job, missing: &mut [usize], free: &mut Vec<usize>, test: usize)
    requires long { length missing.old ≡ length (job_value job.now).tests }
    requires in_job { test < length (job_value job.now).tests }
    requires small { slice_index_or missing.old test 0 + 1 < 2 ^ 64 }
    requires free { (prefix : List ℕ) × (is_in prefix test ≡ false)
        × (free.old.items ≡ all_free (job_value job.now) prefix missing.old) }
    ensures missing { missing.new
        ≡ slice_set missing.old test (slice_index_or missing.old test 0 + 1) }
    ensures free { (prefix : List ℕ) → is_in prefix test ≡ false →
        free.old.items ≡ all_free (job_value job.now) prefix missing.old →
        free.new.items ≡ all_free (job_value job.now) prefix missing.new }
    ensures room { vec_capacity free.new ≡ vec_capacity free.old }
{
    missing[test] += 1;
    if missing[test] != 1 {
        return;
    }
    take_out(job, free, test);
}

/// Counts one precedence less of a test for each time that it stands in a list, and puts those that then have none left
/// among the free tests.
#[inline(always)]
fn count_down(job: &Job, missing: &mut [usize], free: &mut Vec<usize>, tests: &[usize])
    requires long { length missing.old ≡ length (job_value job.now).tests }
    requires in_range { All (λ test. test < length missing.old) tests.now }
    requires enough { (n : ℕ) → n < length missing.old →
        times_in tests.now n ≤ slice_index_or missing.old n 0 }
    requires free { (prefix : List ℕ) × AreApart prefix tests.now
        × (free.old.items ≡ all_free (job_value job.now) prefix missing.old) }
    requires room { length (job_value job.now).tests ≤ vec_capacity free.old }
    ensures less { AreLess missing.old missing.new tests.now }
    ensures free { (prefix : List ℕ) → AreApart prefix tests.now →
        free.old.items ≡ all_free (job_value job.now) prefix missing.old →
        free.new.items ≡ all_free (job_value job.now) prefix missing.new }
    ensures room { vec_capacity free.new ≡ vec_capacity free.old }
{
    for test in tests {
        wait_less(job, missing, free, *test);
    }
}

/// Counts one precedence more of a test for each time that it stands in a list, and takes those that then have some out of
/// the free tests.
fn count_up(job: &Job, missing: &mut [usize], free: &mut Vec<usize>, tests: &[usize])
    requires long { length missing.old ≡ length (job_value job.now).tests }
    requires in_range { All (λ test. test < length missing.old) tests.now }
    requires small { (n : ℕ) → n < length missing.old →
        slice_index_or missing.old n 0 + times_in tests.now n < 2 ^ 64 }
    requires free { (prefix : List ℕ) × AreApart prefix tests.now
        × (free.old.items ≡ all_free (job_value job.now) prefix missing.old) }
    ensures less { AreLess missing.new missing.old tests.now }
    ensures free { (prefix : List ℕ) → AreApart prefix tests.now →
        free.old.items ≡ all_free (job_value job.now) prefix missing.old →
        free.new.items ≡ all_free (job_value job.now) prefix missing.new }
    ensures room { vec_capacity free.new ≡ vec_capacity free.old }
{
    for test in tests {
        wait_more(job, missing, free, *test);
    }
}

/// Lists the tests that have no precedence, in the order in which they are given, in room that is there.
fn fill_free(free: &mut Vec<usize>, tests: &[usize], missing: &[usize])
    requires in_range { All (λ test. test < length missing.now) tests.now }
    requires room { length tests.now ≤ vec_capacity free.old }
    ensures items { free.new.items
        ≡ filter (λ test. nat_eq (slice_index_or missing.now test 0) 0) tests.now }
    ensures room { vec_capacity free.new ≡ vec_capacity free.old }
{
    free.clear();
    for test in tests {
        if missing[*test] == 0 {
            free.push_reserved(*test);
        }
    }
}

/// Whether a test stands at a place among some tests.
fn stands_at(tests: &[usize], place: usize, test: usize) -> bool
    ensures { result ≡ true →
        (place < length tests.now) × (slice_index_or tests.now place 0 ≡ test) }
{
    place < tests.len() && tests[place] == test
}

/// The place of a test among those that are left. Where none that is tried before it waits, it stands at the same place as among
/// the free ones, and is found there at once.
fn place_left(job: &Job, rest: &[usize], near: usize, test: usize) -> usize
    requires sorted { AreSorted (job_value job.now) rest.now }
    requires there { (k : ℕ) × (slice_get rest.now k ≡ Some test) }
    ensures { slice_get rest.now result ≡ Some test }
{
    if stands_at(rest, near, test) {
        return near;
    }
    place_of(job, rest, test)
}

/// Puts a test back to its place among those that are left, and takes another one out. Where none between them waits, that stands
/// next to it, and nothing has to move. Answers its place.
fn pass_left(job: &Job, rest: &mut Vec<usize>, left: usize, test: usize, next: usize) -> usize
    requires out { (path : List ℕ)
        × (rest.old.items ≡ remove (outside (job_value job.now) path) left)
        × (slice_get (outside (job_value job.now) path) left ≡ Some test) × (k : ℕ)
        × (slice_get (outside (job_value job.now) path) k ≡ Some next) }
    requires room { length rest.old.items < vec_capacity rest.old }
    ensures out { (path : List ℕ) →
        rest.old.items ≡ remove (outside (job_value job.now) path) left →
        slice_get (outside (job_value job.now) path) left ≡ Some test →
        (k : ℕ) × (slice_get (outside (job_value job.now) path) k ≡ Some next) →
        (rest.new.items ≡ remove (outside (job_value job.now) path) result)
        × (slice_get (outside (job_value job.now) path) result ≡ Some next) }
    ensures room { vec_capacity rest.new ≡ vec_capacity rest.old }
{
    if stands_at(rest, left, next) {
        put_for(rest, left, test);
        return left + 1;
    }
    put_at(rest, left, test);
    let place = place_of(job, rest, next);
    take_at(rest, place);
    place
}

// Where a call takes the job and doesn't read it, its contract speaks of it.
impl Prefix {
    /// Room for the prefixes of `tests` tests.
    pub(crate) fn new(alloc: Global, tests: usize) -> Result<Prefix, NoMemory>
        ensures { IfOk result (HasPrefixRoom tests) }
    {
        Ok(Prefix {
            tests: room_for(alloc, tests)?,
            rest: room_for(alloc, tests)?,
            free: room_for(alloc, tests)?,
            missing: room_for(alloc, tests)?,
        })
    }

    /// Goes to the empty prefix. Its contract speaks of the job.
    pub(crate) fn begin(&mut self, job: &Job, tries: &OrderTables)
        requires tries { AreTries (job_value job.now) tries.now }
        requires room { HasPrefixRoom (length (job_value job.now).tests) self.old }
        ensures tests { self.new.tests.items ≡ [] }
        ensures at { IsAt (job_value job.now) self.new.tests.items self.new }
    {
        self.tests.clear();
        copy_to(&mut self.rest, &tries.tests);
        fill_free(&mut self.free, &tries.tests, &tries.missing);
        copy_to(&mut self.missing, &tries.missing);
    }

    /// Takes the test at a place of the free ones out. It isn't appended yet.
    #[inline(always)]
    pub(crate) fn take_out(&mut self, job: &Job, place: usize) -> TakenOut
        requires at { IsAt (job_value job.now) self.old.tests.items self.old }
        requires within { place < length self.old.free.items }
        ensures out { IsOut (job_value job.now) self.old.tests.items result.test self.new }
        ensures taken_out { IsTakenOut (job_value job.now) self.old.tests.items place result }
    {
        let test = take_at(&mut self.free, place);
        let left = place_left(job, &self.rest, place, test);
        take_at(&mut self.rest, left);
        TakenOut { test, left }
    }

    /// Appends a test that was taken out.
    #[inline(always)]
    pub(crate) fn append(&mut self, job: &Job, tries: &OrderTables, test: usize)
        requires tries { AreTries (job_value job.now) tries.now }
        requires in_range { AreInRange (job_value job.now) }
        requires out { IsOut (job_value job.now) self.old.tests.items test self.old }
        ensures { IsAt (job_value job.now) (self.old.tests.items ++ test ∷ []) self.new }
    {
        self.tests.push_reserved(test);
        count_down(
            job,
            &mut self.missing,
            &mut self.free,
            earlier_than(&tries.after, test),
        );
    }

    /// Appends the first of the free tests.
    pub(crate) fn take_first(&mut self, job: &Job, tries: &OrderTables)
        requires tries { AreTries (job_value job.now) tries.now }
        requires in_range { AreInRange (job_value job.now) }
        requires at { IsAt (job_value job.now) self.old.tests.items self.old }
        requires some { 0 < length self.old.free.items }
        ensures { IsAt (job_value job.now)
            (self.old.tests.items ++ slice_index_or self.old.free.items 0 0 ∷ []) self.new }
    {
        let taken = self.take_out(job, 0);
        self.append(job, tries, taken.test);
    }

    /// Takes the last test back. It is still out.
    pub(crate) fn go_back(&mut self, job: &Job, tries: &OrderTables)
        requires tries { AreTries (job_value job.now) tries.now }
        requires in_range { AreInRange (job_value job.now) }
        requires at { IsAt (job_value job.now) self.old.tests.items self.old }
        requires some { 0 < length self.old.tests.items }
        ensures { (path : List ℕ) (test : ℕ) → self.old.tests.items ≡ path ++ test ∷ [] →
            IsOut (job_value job.now) path test self.new }
    {
        let test = self.tests.take_last();
        count_up(
            job,
            &mut self.missing,
            &mut self.free,
            earlier_than(&tries.after, test),
        );
    }

    /// Puts the test that is out back to its place among the free ones, and takes the one behind it out.
    fn exchange(&mut self, job: &Job, place: usize, taken: TakenOut) -> TakenOut
        requires out { IsOut (job_value job.now) self.old.tests.items taken.test self.old }
        requires taken_out { IsTakenOut (job_value job.now) self.old.tests.items place taken }
        requires more { place < length self.old.free.items }
        ensures out { IsOut (job_value job.now) self.old.tests.items result.test self.new }
        ensures taken_out { IsTakenOut (job_value job.now) self.old.tests.items (place + 1) result }
    {
        let test = put_for(&mut self.free, place, taken.test);
        let left = pass_left(job, &mut self.rest, taken.left, taken.test, test);
        TakenOut { test, left }
    }

    /// Puts the test that is out back to its place among the free ones.
    fn put_back(&mut self, job: &Job, place: usize, taken: TakenOut)
        requires out { IsOut (job_value job.now) self.old.tests.items taken.test self.old }
        requires taken_out { IsTakenOut (job_value job.now) self.old.tests.items place taken }
        ensures { IsAt (job_value job.now) self.old.tests.items self.new }
    {
        put_at(&mut self.free, place, taken.test);
        put_at(&mut self.rest, taken.left, taken.test);
    }

    /// Puts the test that is out back to its place among the free ones. Where there is one behind it, that is taken out.
    pub(crate) fn pass(&mut self, job: &Job, place: usize, taken: TakenOut) -> TakenOut
        requires out { IsOut (job_value job.now) self.old.tests.items taken.test self.old }
        requires taken_out { IsTakenOut (job_value job.now) self.old.tests.items place taken }
        ensures out { place + 1 < length (followers (job_value job.now) self.old.tests.items) →
            IsOut (job_value job.now) self.old.tests.items result.test self.new }
        ensures taken_out { place + 1
            < length (followers (job_value job.now) self.old.tests.items) →
            IsTakenOut (job_value job.now) self.old.tests.items (place + 1) result }
        ensures back { place + 1 ≡ length (followers (job_value job.now) self.old.tests.items) →
            IsAt (job_value job.now) self.old.tests.items self.new }
    {
        if place < self.free.len() {
            return self.exchange(job, place, taken);
        }
        self.put_back(job, place, taken);
        taken
    }
}
