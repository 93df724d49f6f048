//! The numbers of the bits that the cells of a chain load or answer, as stretches of numbers one after another.
ghost use Rattle.std.specs.Prelude.{◌≡◌, ℕ, ◌+◌, ◌-◌, ◌*◌, ◌^◌, ◌<◌, ◌≤◌, ◌∷◌, List, drop, length, slice_index};
ghost use Rattle.std.specs.List.{All};
ghost use Rattle.vector_lines.specs.Marks.{IsValue};
ghost use Rattle.vector_lines.specs.Numbers.{all_numbers, IsFirstValue, IsWalk, HasNext, IsFull};
ghost use Rattle.vector_lines.specs.Vectors.{ArePutDown};

use crate::contents::PatternBits;
use crate::lines::{Place, put_byte};
use std::marker::Model;

/// `count` numbers one after another, from `from` on: at least one.
#[derive(Clone, Copy, Drop)]
pub struct NumberRun {
    /// The first number.
    pub from: u64,
    /// How many they are.
    pub count: u64,
}

/// A list of numbers, as runs one after another.
#[derive(Drop)]
pub struct Numbers {
    runs: Vec<NumberRun>,
    count: usize,
}

impl Model for Numbers {
    ghost use Rattle.std.specs.Prelude.{◌≡◌, ℕ, List, length};
    ghost use Rattle.std.specs.List.{All};
    ghost use Rattle.vector_lines.specs.Numbers.{all_numbers, IsFull};

    ghost Value = { List ℕ };

    ghost view = { λ n. all_numbers n.runs.items };

    ghost invariant = { λ n. (n.count ≡ length (all_numbers n.runs.items))
        × All IsFull n.runs.items };
}

/// A walk over numbers: the run that is next, how many numbers are left of the one before it, and the value of the first of these.
#[derive(Clone, Copy)]
pub struct Walk {
    /// The place of the run that is next.
    pub run: usize,
    /// How many numbers are left of the one before it.
    pub left: u64,
    /// The value of the first of these.
    pub value: u64,
}

/// Begins a walk at a place.
pub fn walk_from<B: PatternBits>(runs: &[NumberRun], bits: &B, place: u64) -> Walk
    requires sound { B.is_sound bits.now }
    requires full { All IsFull runs.now }
    requires place { place < length (all_numbers runs.now) }
    ensures { IsWalk runs.now (B.value_of bits.now) result (drop place (all_numbers runs.now)) }
{
    let mut before = place;
    for run in 0..runs.len() {
        let (from, count) = (runs[run].from, runs[run].count);
        if before < count {
            return Walk {
                run: run + 1,
                left: count - before,
                value: bits.value(from + before),
            };
        }
        before -= count;
    }
    unreachable!()
}

/// The walk with numbers left of its run.
fn refilled<B: PatternBits>(runs: &[NumberRun], bits: &B, walk: Walk) -> Walk
    requires sound { B.is_sound bits.now }
    requires full { All IsFull runs.now }
    requires next { HasNext runs.now (B.value_of bits.now) walk }
    ensures some { 1 ≤ result.left }
    ensures walk { (rest : List ℕ) → IsWalk runs.now (B.value_of bits.now) walk rest →
        IsWalk runs.now (B.value_of bits.now) result rest }
{
    if walk.left > 0 {
        return walk;
    }
    let (from, count) = (runs[walk.run].from, runs[walk.run].count);
    Walk {
        run: walk.run + 1,
        left: count,
        value: bits.value(from),
    }
}

/// The value of the number that a walk is at. It goes on to the next number.
pub fn next_value<B: PatternBits>(runs: &[NumberRun], bits: &B, walk: &mut Walk) -> u64
    requires sound { B.is_sound bits.now }
    requires full { All IsFull runs.now }
    requires next { HasNext runs.now (B.value_of bits.now) walk.old }
    ensures some { IsValue (B.value_of bits.now) result }
    ensures value { (n : ℕ) (more : List ℕ) →
        IsWalk runs.now (B.value_of bits.now) walk.old (n ∷ more) → result ≡ B.value_of bits.now n }
    ensures walk { (n : ℕ) (more : List ℕ) →
        IsWalk runs.now (B.value_of bits.now) walk.old (n ∷ more) →
        IsWalk runs.now (B.value_of bits.now) walk.new more }
{
    let here = refilled(runs, bits, *walk);
    *walk = Walk {
        run: here.run,
        left: here.left - 1,
        value: bits.next(here.value),
    };
    here.value
}

/// Writes the bytes of `count` numbers one after another into a column, one a line, by the value `first` of the first one: its byte stands
/// in the last of these lines, that of the last number in the first. Answers the value of the number after them.
fn put_run<B: PatternBits>(pattern: &B, first: u64, count: usize, text: &mut [u8], at: Place) -> u64
    requires sound { B.is_sound pattern.now }
    requires value { IsFirstValue (B.value_of pattern.now) first count }
    requires narrow { at.wires ≤ 256 }
    requires column { at.column < 2 * at.wires + 2 }
    requires rows { (at.row + count) * (2 * at.wires + 2) ≤ length text.old }
    ensures after { (n : ℕ) → first ≡ B.value_of pattern.now n → n + count < 2 ^ 64 →
        result ≡ B.value_of pattern.now (n + count) }
    ensures put { (n : ℕ) → first ≡ B.value_of pattern.now n → n + count < 2 ^ 64 →
        ArePutDown at.wires at.row count at.column
        (λ i. B.byte_of pattern.now (n + (count - 1 - i))) text.old text.new }
{
    // a copy of its own, which no write to the text can change
    let bits = *pattern;
    let mut value = first;
    for place in 0..count {
        put_byte(text, at, count - 1 - place, bits.byte(value));
        value = bits.next(value);
    }
    value
}

/// Writes the bytes of `count` numbers into a column, one a line: that of the number at the place `last`, and then those of the numbers
/// before it.
fn put_back<B: PatternBits>(
    runs: &[NumberRun],
    bits: &B,
    last: usize,
    count: usize,
    text: &mut [u8],
    at: Place,
)
    requires sound { B.is_sound bits.now }
    requires full { All IsFull runs.now }
    requires some { 1 ≤ count }
    requires back { count ≤ last + 1 }
    requires within { last < length (all_numbers runs.now) }
    requires narrow { at.wires ≤ 256 }
    requires column { at.column < 2 * at.wires + 2 }
    requires rows { (at.row + count) * (2 * at.wires + 2) ≤ length text.old }
    ensures { ArePutDown at.wires at.row count at.column
        (λ i. B.byte_of bits.now (slice_index (all_numbers runs.now) (last - i))) text.old
        text.new }
{
    let first = last - (count - 1);
    let mut walk = walk_from(runs, bits, first as u64);
    let mut above = count;
    while above > 0 {
        let here = refilled(runs, bits, walk);
        let some = here.left.min(above as u64);
        above -= some as usize;
        let lines = Place {
            row: at.row + above,
            ..at
        };
        let value = put_run(bits, here.value, some as usize, text, lines);
        walk = Walk {
            run: here.run,
            left: here.left - some,
            value,
        };
    }
}

/// The numbers of all runs together.
fn count_of(runs: &[NumberRun]) -> usize
    requires { length (all_numbers runs.now) < 2 ^ 63 }
    ensures { result ≡ length (all_numbers runs.now) }
{
    let mut count = 0;
    for run in runs {
        count += run.count as usize;
    }
    count
}

impl Numbers {
    /// The numbers of runs that aren't empty.
    pub(crate) fn new(runs: Vec<NumberRun>) -> Numbers
        requires full { All IsFull runs.items }
        requires long { length (all_numbers runs.items) < 2 ^ 63 }
        ensures { result ≡ all_numbers runs.items }
    {
        let count = count_of(&runs);
        Numbers { runs, count }
    }

    /// The runs.
    pub fn runs(&self) -> &[NumberRun]
        ensures full { All IsFull result.now }
        ensures numbers { all_numbers result.now ≡ self.now }
    {
        &self.runs
    }

    /// How many numbers there are.
    pub fn len(&self) -> usize
        ensures { result ≡ length self.now }
    {
        self.count
    }

    /// Writes the bytes of `count` numbers into a column, one a line: that of the number at the place `last`, and then those of the
    /// numbers before it.
    pub(crate) fn put_back<B: PatternBits>(
        &self,
        bits: &B,
        last: usize,
        count: usize,
        text: &mut [u8],
        at: Place,
    )
        requires sound { B.is_sound bits.now }
        requires some { 1 ≤ count }
        requires back { count ≤ last + 1 }
        requires within { last < length self.now }
        requires narrow { at.wires ≤ 256 }
        requires column { at.column < 2 * at.wires + 2 }
        requires rows { (at.row + count) * (2 * at.wires + 2) ≤ length text.old }
        ensures { ArePutDown at.wires at.row count at.column
            (λ i. B.byte_of bits.now (slice_index self.now (last - i))) text.old text.new }
    {
        put_back(&self.runs, bits, last, count, text, at);
    }
}
