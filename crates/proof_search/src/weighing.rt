//! What a case is worth: the greatest claim at which weights hold that were found for it.

use crate::divided::DividedCase;
use crate::divisions::{Division, choose_division};
use case_game::CaseGame;
use case_tables::{Case, ChipTables, ChosenLists, LeafWeights, Mix, RANKS_MOST};
use case_tree::{DIGITS_MOST, nines};
use leaf_values::LeafBasis;
use list_search::{ListSearch, add_elementary_lists};
use outside::{NoMemory, both};
use std::alloc::Global;
use tables::filled;

/// A mix passes a list of power where it takes more than the value by one part in `PARTS`.
const PARTS: i64 = 2_000;

/// What a case is worth, and how it can be divided.
#[derive(Clone, Copy)]
pub(crate) struct CaseWorth {
    /// The greatest claim at which the weights hold that were found, in cycles.
    pub value: u64,
    /// How it can be divided.
    pub division: Division,
}

/// Where lists are looked for.
#[derive(Drop)]
struct ListFinder {
    mix: Mix,
    search: ListSearch,
    chosen: ChosenLists,
}

/// The weights that are tried for a case.
#[derive(Drop)]
struct CandidateWeights {
    /// Those of the case.
    weights: LeafWeights,
    /// Those of the case that is divided.
    hint: LeafWeights,
    /// Others that are tried.
    trial: LeafWeights,
}

/// A case, and what it is weighed with.
#[derive(Drop)]
pub(crate) struct CaseWeighing {
    /// The case at hand.
    pub case: Case,
    /// What is known of the case that is divided.
    pub divided: DividedCase,
    game: CaseGame,
    finder: ListFinder,
    candidates: CandidateWeights,
    shares: Vec<u64>,
}

impl ListFinder {
    /// Room for the lists of a chip.
    fn new(alloc: Global, chip: &ChipTables) -> Result<ListFinder, NoMemory> {
        let lists = both(ListSearch::new(alloc, chip), ChosenLists::new(alloc));
        let (mix, (search, chosen)) = both(Mix::new(alloc, chip), lists)?;
        Ok(ListFinder {
            mix,
            search,
            chosen,
        })
    }

    /// Chooses the lists of some weights alone.
    fn choose_of(&mut self, weights: &LeafWeights) {
        self.chosen.clear_choice();
        for at in 0..weights.count {
            let list = weights.list_at(at);
            self.chosen.add(list);
        }
    }

    /// Chooses the lists of power that the mix passes: whether one is new.
    fn choose_powers(&mut self, basis: &LeafBasis, game: &CaseGame) -> bool {
        let more = self.mix.value.checked_div(PARTS).unwrap_or(0);
        let most = self.mix.value.saturating_add(more);
        let mut any = false;
        for list in 0..basis.powers.count {
            if game.power_mixed(basis, list) > most && self.chosen.add(list) {
                any = true;
            }
        }
        any
    }

    /// Chooses lists that the mix of the game passes: whether one is new.
    fn find(&mut self, basis: &mut LeafBasis, game: &CaseGame) -> bool {
        game.take_mix(basis, &mut self.mix);
        let powers = self.choose_powers(basis, game);
        let lists = self
            .search
            .find_lists(&basis.chip, &self.mix, &mut basis.lists, &mut self.chosen);
        powers || lists
    }

    /// Chooses the elementary lists. `NoMemory` where memory runs out.
    fn choose_elementary(&mut self, alloc: Global, basis: &mut LeafBasis) -> Result<(), NoMemory> {
        self.chosen.clear_choice();
        if basis.powers.count > 0 {
            self.chosen.add(0);
        }
        add_elementary_lists(
            alloc,
            &mut self.search,
            &basis.chip,
            &mut basis.lists,
            &mut self.chosen,
        )
    }
}

impl CandidateWeights {
    /// Room for weights, all 0.
    fn new(alloc: Global) -> Result<CandidateWeights, NoMemory> {
        let weights = LeafWeights::new(alloc)?;
        let hint = LeafWeights::new(alloc)?;
        let trial = LeafWeights::new(alloc)?;
        Ok(CandidateWeights {
            weights,
            hint,
            trial,
        })
    }

    /// Makes the weights those of the case that is divided.
    fn keep_hint(&mut self) {
        self.weights.copy_weights(&self.hint);
    }

    /// Makes the weights those that were tried.
    fn keep_trial(&mut self) {
        self.weights.copy_weights(&self.trial);
    }

    /// Tries a list alone.
    fn try_list(&mut self, list: usize) {
        self.trial.clear_weights();
        self.trial.add_list(list, 1);
    }

    /// Tries the wires alone.
    fn try_wires(&mut self) {
        self.trial.clear_weights();
        self.trial.wire = 1;
    }

    /// Tries the weights with `digits` digits.
    fn try_digits(&mut self, most: u64, digits: u32) {
        self.trial.copy_weights(&self.weights);
        self.trial.scale(most, nines(digits));
    }
}

impl CaseWeighing {
    /// Room for the cases of a chip. `NoMemory` where memory runs out.
    pub fn new(alloc: Global, chip: &ChipTables) -> Result<CaseWeighing, NoMemory> {
        let cases = both(
            Case::new(alloc, chip.wires, chip.modules),
            DividedCase::new(alloc),
        );
        let games = both(CaseGame::new(alloc, chip), ListFinder::new(alloc, chip));
        let weights = both(
            CandidateWeights::new(alloc),
            filled(alloc, 0u64, RANKS_MOST),
        );
        let ((case, divided), ((game, finder), (candidates, shares))) = both(
            cases,
            both(games, weights),
        )?;
        Ok(CaseWeighing {
            case,
            divided,
            game,
            finder,
            candidates,
            shares,
        })
    }

    /// The weights of the case.
    pub fn weights(&self) -> &LeafWeights {
        &self.candidates.weights
    }

    /// Takes the slots of the case: whether there may be a plan in it, as far as these say.
    pub fn take_case(&mut self, basis: &LeafBasis) -> bool {
        self.case.tighten();
        if self.case.is_empty() {
            return false;
        }
        self.game.take(basis, &self.case)
    }

    /// Takes the lists of the weights of the case that is divided, and plays with them: whether weights hold at the goal.
    fn play_hint(&mut self, basis: &LeafBasis) -> bool {
        self.finder.choose_of(&self.candidates.hint);
        self.game
            .begin(basis, &self.finder.chosen, &self.candidates.hint);
        self.game.play(basis, &mut self.candidates.weights)
    }

    /// Plays on with the lists that were found: whether weights hold at the goal.
    fn play_on(&mut self, basis: &LeafBasis) -> bool {
        self.game.go_on(basis, &self.finder.chosen);
        self.game.play(basis, &mut self.candidates.weights)
    }

    /// Plays the game with more and more lists: whether weights hold at the goal.
    fn play(&mut self, basis: &mut LeafBasis, rounds: usize) -> bool {
        if self.play_hint(basis) {
            return true;
        }
        for _ in 0..rounds {
            if !self.finder.find(basis, &self.game) {
                break;
            }
            if self.play_on(basis) {
                return true;
            }
        }
        false
    }

    /// Keeps the better ones of the game's weights and those of the case that is divided: what they are worth.
    fn keep_better(&mut self, basis: &LeafBasis) -> u64 {
        self.game.best(basis, &mut self.candidates.weights);
        let value = self.game.value(basis, &self.candidates.weights);
        let hinted = self.game.value(basis, &self.candidates.hint);
        if hinted > value {
            self.candidates.keep_hint();
            return hinted;
        }
        value
    }

    /// Makes all weights of the case 0.
    pub fn clear_weights(&mut self) {
        self.candidates.weights.clear_weights();
    }

    /// Whether weights hold at the goal: those of the case that is divided, or others that the game finds.
    fn closes(&mut self, basis: &mut LeafBasis, rounds: usize) -> bool {
        self.divided.hint(&self.case, &mut self.candidates.hint);
        if self
            .game
            .hold(basis, &self.candidates.hint, basis.chip.goal)
        {
            self.candidates.keep_hint();
            return true;
        }
        self.play(basis, rounds)
    }

    /// What the case is worth, with lists of at most `rounds` rounds.
    pub fn weigh(&mut self, basis: &mut LeafBasis, rounds: usize) -> CaseWorth {
        self.candidates.weights.clear_weights();
        if !self.take_case(basis) || self.closes(basis, rounds) {
            return CaseWorth {
                value: basis.chip.goal,
                division: Division::Nothing,
            };
        }
        let value = self.keep_better(basis);
        let division = choose_division(basis, &self.case, &self.game, &mut self.shares);
        CaseWorth { value, division }
    }

    /// Keeps the weights that are tried where they are worth more.
    fn keep_trial(&mut self, basis: &LeafBasis, worth: CaseWorth) -> CaseWorth {
        let value = self.game.value(basis, &self.candidates.trial);
        if value <= worth.value {
            return worth;
        }
        self.candidates.keep_trial();
        CaseWorth {
            value,
            division: worth.division,
        }
    }

    /// Tries each chosen list alone, and the wires alone.
    fn try_alone(&mut self, basis: &LeafBasis, worth: CaseWorth) -> CaseWorth {
        self.candidates.try_wires();
        let mut best = self.keep_trial(basis, worth);
        for at in 0..self.finder.chosen.count {
            let list = self.finder.chosen.at(at);
            self.candidates.try_list(list);
            best = self.keep_trial(basis, best);
        }
        best
    }

    /// What the case of no ranks is worth: at least as much as the elementary lists. `NoMemory` where memory runs out.
    pub fn weigh_first(
        &mut self,
        alloc: Global,
        basis: &mut LeafBasis,
        rounds: usize,
    ) -> Result<CaseWorth, NoMemory> {
        let worth = self.weigh(basis, rounds);
        if worth.value >= basis.chip.goal {
            return Ok(worth);
        }
        self.finder.choose_elementary(alloc, basis)?;
        Ok(self.try_alone(basis, worth))
    }

    /// Whether the weights hold at a claim with `digits` digits.
    fn hold_with(&mut self, basis: &LeafBasis, most: u64, digits: u32, claim: u64) -> bool {
        if nines(digits) >= most {
            return true;
        }
        self.candidates.try_digits(most, digits);
        self.game.hold(basis, &self.candidates.trial, claim)
    }

    /// The fewest digits, `from` at least, with which the weights hold at a claim.
    pub fn digits_at(&mut self, basis: &LeafBasis, claim: u64, from: u32) -> u32 {
        let most = self.candidates.weights.greatest();
        for digits in from..DIGITS_MOST {
            if self.hold_with(basis, most, digits, claim) {
                return digits;
            }
        }
        DIGITS_MOST
    }

    /// Writes what each module costs at least at the weights of the case, whose slots are taken.
    pub fn write_costs(&mut self, basis: &LeafBasis, costs: &mut [u128]) {
        self.game
            .write_costs(basis, &self.candidates.weights, costs);
    }

    /// Writes other weights of the case.
    pub fn set_weights(&mut self) -> &mut LeafWeights {
        &mut self.candidates.weights
    }
}
