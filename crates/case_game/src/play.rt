//! The play of a case's game: parts of the weights for the resources against slots for the modules, until neither side gains
//! by more.

use crate::MatrixGame;
use crate::answers::{Answers, CUTS_MOST};
use crate::picks::{Pick, Prices};
use crate::resources::{RESOURCES_MOST, Resources};
use case_tables::{ChipTables, ChosenLists, LeafWeights};
use leaf_values::{LeafBasis, LeafValues, Pays, Spans};
use outside::{NoMemory, both};
use std::alloc::Global;
use tables::{ONE, as_number, copy_items, fill_items, filled, item_or};

/// The play ends where the best parts are worth the bound of the game but for one part in `EXACT`.
const EXACT: i64 = 50_000;
/// Parts that are worth less than all by one part in `NEARLY` are not tried as weights.
const NEARLY: i64 = 65_536;

/// How a step of the play ends.
#[derive(Clone, Copy, PartialEq, Eq)]
enum PlayEnd {
    /// There is another step.
    GoesOn,
    /// Neither side gains by more steps.
    Ends,
    /// The parts hold as weights.
    Holds,
}

/// The play.
#[derive(Drop)]
pub(crate) struct Play {
    /// The resources of the game.
    pub resources: Resources,
    /// What tests pay for lists.
    pays: Pays,
    /// The answers of the modules.
    answers: Answers,
    /// The parts of the weights at hand.
    parts: Vec<i64>,
    /// The best parts so far.
    pub best_parts: Vec<i64>,
    /// What the best parts are worth, less than 0 where there are none.
    pub best: i64,
    /// How many answers there are.
    pub cuts: usize,
    /// For each answer its part in the mix of all.
    pub mix: Vec<i64>,
}

impl Play {
    /// Room for the games of a chip. `NoMemory` where memory runs out.
    pub fn new(alloc: Global, chip: &ChipTables) -> Result<Play, NoMemory> {
        let sides = both(Pays::new(alloc, chip), Answers::new(alloc, chip));
        let game = both(Resources::new(alloc), filled(alloc, 0i64, CUTS_MOST));
        let shares = both(
            filled(alloc, 0i64, RESOURCES_MOST),
            filled(alloc, 0i64, RESOURCES_MOST),
        );
        let ((pays, answers), ((resources, mix), (parts, best_parts))) = both(
            sides,
            both(game, shares),
        )?;
        Ok(Play {
            resources,
            pays,
            answers,
            parts,
            best_parts,
            best: -1,
            cuts: 0,
            mix,
        })
    }

    /// The slot that a module took in an answer.
    pub fn pick_of(&self, answer: usize, module: usize) -> Pick {
        self.answers.pick_of(answer, module)
    }

    /// The part of a resource in the weights at hand.
    fn part(&self, place: usize) -> u64 {
        as_number(item_or(&self.parts, place, 0))
    }

    /// Takes what tests pay for the lists.
    fn take_pays(&mut self, basis: &LeafBasis) {
        self.pays.clear_pays();
        for at in 0..self.resources.listed {
            let list = self.resources.list(at);
            let part = self.part(self.resources.lists_from.saturating_add(at));
            let pay = part.checked_div(basis.lists.room(list)).unwrap_or(0);
            if pay > 0 {
                self.pays.add(&basis.lists, list, pay);
            }
        }
        self.pays.note_paying(&basis.chip);
    }

    /// All modules answer the parts at hand. Answers what these are worth.
    fn respond(&mut self, basis: &LeafBasis, spans: &Spans, answer: usize) -> i64 {
        self.take_pays(basis);
        let rest = self.part(self.resources.rest);
        let wire = rest.checked_div(self.resources.spare).unwrap_or(0);
        let prices = Prices {
            basis,
            spans,
            resources: &self.resources,
            parts: &self.parts,
            pays: &self.pays,
            wire,
        };
        self.answers.respond(prices, answer);
        self.answers.worth(&self.parts, self.resources.count)
    }

    /// Keeps the parts at hand where they are worth more than the best ones.
    fn keep_best(&mut self, worth: i64) {
        if worth > self.best {
            self.best = worth;
            copy_items(&mut self.best_parts, &self.parts);
        }
    }

    /// Whether the parts at hand hold as weights at the goal; the weights are written.
    fn holds(
        &self,
        basis: &LeafBasis,
        spans: &Spans,
        values: &mut LeafValues,
        weights: &mut LeafWeights,
    ) -> bool {
        self.resources
            .weigh(&basis.lists, &self.parts, spans.known, weights);
        values.take(basis, spans, weights);
        values.hold_at(basis, spans, weights, basis.chip.goal)
    }

    /// Adds the last answer to the game, and takes the best parts against all answers. Whether these may be worth more.
    fn improve(&mut self, game: &mut MatrixGame) -> bool {
        game.add_cut(&self.answers.used);
        game.solve();
        let bound = game.value();
        let gap = bound.checked_div(EXACT).unwrap_or(0);
        if self.best >= bound.saturating_sub(gap) {
            return false;
        }
        game.weights(&mut self.parts);
        true
    }

    /// A step of the play: all modules answer the parts at hand, and the game takes the best parts against all answers.
    fn step(
        &mut self,
        basis: &LeafBasis,
        spans: &Spans,
        game: &mut MatrixGame,
        values: &mut LeafValues,
        weights: &mut LeafWeights,
    ) -> PlayEnd {
        let answer = self.cuts;
        let worth = self.respond(basis, spans, answer);
        self.cuts = answer.saturating_add(1);
        self.keep_best(worth);
        let nearly = ONE.saturating_sub(ONE / NEARLY);
        if worth >= nearly && self.holds(basis, spans, values, weights) {
            return PlayEnd::Holds;
        }
        if self.improve(game) {
            return PlayEnd::GoesOn;
        }
        PlayEnd::Ends
    }

    /// Plays from the parts at hand. Whether parts were found that hold as weights at the goal, which are written then.
    pub fn play(
        &mut self,
        basis: &LeafBasis,
        spans: &Spans,
        game: &mut MatrixGame,
        values: &mut LeafValues,
        weights: &mut LeafWeights,
    ) -> bool {
        game.begin(self.resources.count);
        self.best = -1;
        self.cuts = 0;
        for _ in 0..CUTS_MOST {
            let step = self.step(basis, spans, game, values, weights);
            if step == PlayEnd::Holds {
                return true;
            }
            if step == PlayEnd::Ends {
                break;
            }
        }
        game.shares(&mut self.mix);
        false
    }

    /// Takes the resources of a case, with lists.
    fn take_resources(&mut self, basis: &LeafBasis, spans: &Spans, chosen: &ChosenLists) {
        self.resources.take(spans, chosen);
        self.answers.take_own(basis, &self.resources);
    }

    /// Begins the game of a case with lists, from the weights of the case that is divided; their lists are the first ones.
    pub fn begin(
        &mut self,
        basis: &LeafBasis,
        spans: &Spans,
        chosen: &ChosenLists,
        above: &LeafWeights,
    ) {
        self.take_resources(basis, spans, chosen);
        self.resources
            .share(&basis.lists, spans.known, above, &mut self.parts);
        fill_items(&mut self.best_parts, 0);
    }

    /// Goes on with more lists, from the best parts so far.
    pub fn go_on(&mut self, basis: &LeafBasis, spans: &Spans, chosen: &ChosenLists) {
        self.take_resources(basis, spans, chosen);
        copy_items(&mut self.parts, &self.best_parts);
    }

    /// Writes the best parts as weights.
    pub fn weigh_best(&self, basis: &LeafBasis, spans: &Spans, weights: &mut LeafWeights) {
        self.resources
            .weigh(&basis.lists, &self.best_parts, spans.known, weights);
    }
}
