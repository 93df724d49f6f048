//! What a search is asked, and what it answers.

use pack_values::Prices;

/// What a search is asked. Claims are in cycles.
#[derive(Clone, Copy)]
pub struct Asked<'a> {
    /// A claim that holds in the case: a leaf of a greater one is wanted.
    pub value: u64,
    /// The greatest claim that is of use.
    pub goal: u64,
    /// The least claim that failed before, in this case or in one that has it as a part; the goal where none did.
    pub far: u64,
    /// Whether it is the first case, which is worth more work.
    pub root: bool,
    /// The lists that may be weighed, by their places. Those that `Warm` weighs are tried too.
    pub lists: &'a [usize],
    /// Prices to start from, with weights of lists, in any one unit: what each module costs at least at the weights of a leaf Sum.
    pub start: &'a Prices,
    /// The most work.
    pub work_most: u64,
}

/// What a search found. Claims are in cycles.
#[derive(Clone, Copy, PartialEq, Eq, Debug)]
pub struct Found {
    /// The claim of the leaf where it is above the asked value, else that value.
    pub claim: u64,
    /// The least claim that failed; 1 more than the goal where none did.
    pub far: u64,
    /// The work that it took.
    pub work: u64,
}
