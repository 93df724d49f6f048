//! A case whose game is played, and whose weights are valued.

use crate::MatrixGame;
use crate::answers::CUTS_MOST;
use crate::picks::Pick;
use crate::play::Play;
use crate::resources::RESOURCES_MOST;
use case_tables::{Case, ChipTables, ChosenLists, LeafWeights, Mix};
use leaf_values::{LeafBasis, LeafValues, Spans};
use outside::{NoMemory, both};
use std::alloc::Global;
use tables::{as_number, item_or};

/// The game of a case: its slots, what weights show there, and the play.
#[derive(Drop)]
pub struct CaseGame {
    /// The slots.
    spans: Spans,
    values: LeafValues,
    /// The play.
    play: Play,
    matrix: MatrixGame,
}

impl CaseGame {
    /// Room for the cases of a chip. `NoMemory` where memory runs out.
    pub fn new(alloc: Global, chip: &ChipTables) -> Result<CaseGame, NoMemory> {
        let cases = both(
            Spans::new(alloc, chip.modules, chip.wires),
            LeafValues::new(alloc, chip),
        );
        let games = both(
            Play::new(alloc, chip),
            MatrixGame::new(alloc, RESOURCES_MOST, CUTS_MOST),
        );
        let ((spans, values), (play, matrix)) = both(cases, games)?;
        Ok(CaseGame {
            spans,
            values,
            play,
            matrix,
        })
    }

    /// Takes the slots of a case: whether each module has one.
    pub fn take(&mut self, basis: &LeafBasis, case: &Case) -> bool {
        self.spans.take(&basis.slots, case)
    }

    /// Whether weights hold at a claim.
    pub fn hold(&mut self, basis: &LeafBasis, weights: &LeafWeights, claim: u64) -> bool {
        self.values.take(basis, &self.spans, weights);
        self.values.hold_at(basis, &self.spans, weights, claim)
    }

    /// The greatest claim up to the goal at which weights hold.
    pub fn value(&mut self, basis: &LeafBasis, weights: &LeafWeights) -> u64 {
        self.values.take(basis, &self.spans, weights);
        self.values.value(basis, &self.spans, weights)
    }

    /// Writes what each module costs at least at weights, over its slots of fewer cycles than the goal; 0 where it has none.
    pub fn write_costs(&mut self, basis: &LeafBasis, weights: &LeafWeights, costs: &mut [u128]) {
        self.values.take(basis, &self.spans, weights);
        let goal = basis.chip.goal;
        for module in 0..costs.len() {
            let cost = self
                .values
                .cost_of_module(basis, &self.spans, weights, module, goal);
            costs[module] = cost.unwrap_or(0);
        }
    }

    /// Begins the game of the case with lists, from some weights, the lists of which are the first ones.
    pub fn begin(&mut self, basis: &LeafBasis, chosen: &ChosenLists, from: &LeafWeights) {
        self.play.begin(basis, &self.spans, chosen, from);
    }

    /// Goes on with more lists, from the best weights of the last play.
    pub fn go_on(&mut self, basis: &LeafBasis, chosen: &ChosenLists) {
        self.play.go_on(basis, &self.spans, chosen);
    }

    /// Plays the game: whether weights were found that hold at the goal, which are in `weights` then.
    pub fn play(&mut self, basis: &LeafBasis, weights: &mut LeafWeights) -> bool {
        self.play.play(
            basis,
            &self.spans,
            &mut self.matrix,
            &mut self.values,
            weights,
        )
    }

    /// Writes the best weights of the last play.
    pub fn best(&self, basis: &LeafBasis, weights: &mut LeafWeights) {
        self.play.weigh_best(basis, &self.spans, weights);
    }

    /// How many cuts the last play has.
    pub fn cuts(&self) -> usize {
        self.play.cuts
    }

    /// How much of the best mix of the last play is a cut, in parts of `ONE`.
    pub fn part_of_cut(&self, cut: usize) -> u64 {
        as_number(item_or(&self.play.mix, cut, 0))
    }

    /// The slot that a module takes in a cut of the last play.
    pub fn pick_of(&self, cut: usize, module: usize) -> Pick {
        self.play.pick_of(cut, module)
    }

    /// The rank of a slot, `REST` where it isn't known.
    pub fn rank_of(&self, pick: Pick) -> usize {
        self.spans.range(pick.range).rank
    }

    /// Writes the best mix of the last play.
    pub fn take_mix(&self, basis: &LeafBasis, mix: &mut Mix) {
        self.play.mixed(basis, &self.spans, mix);
    }

    /// What the best mix of the last play uses of a list of power, in parts of `ONE`.
    pub fn power_mixed(&self, basis: &LeafBasis, list: usize) -> i64 {
        self.play.power_mixed(basis, list)
    }
}
