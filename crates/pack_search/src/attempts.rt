//! An attempt: whether there are prices by which a case has no plan below a claim.

use crate::asked::Asked;
use crate::points::Point;
use crate::rounds::RoundEnd;
use crate::scheme::Scheme;
use crate::warm::Warm;
use crate::whole::{NO_RATIO, Ratio, ratio_of, scale_of, write_weighed, write_whole};
use crate::worst::Worst;
use outside::{NoMemory, both};
use pack_values::{PackCase, PackRoom, Prices, Uses};
use std::alloc::Global;
use tables::UNIT;

/// Rounds of an attempt, at most.
const ROUNDS_MOST: usize = 250;
/// Where the programme's prices are together no more than this, no prices hold.
const ENOUGH: i64 = UNIT + (1 << 12);
/// The numbers of a knapsack's table in all, by which the cells of a chip are chosen.
const CELLS_ALL: u64 = 4_000_000;

/// The points of an attempt.
#[derive(Drop)]
pub(crate) struct Points {
    /// The best prices so far.
    pub center: Point,
    /// The last answer of the programme.
    pub query: Point,
    /// The point at hand.
    pub hand: Point,
}

/// The prices of an attempt as whole numbers.
#[derive(Drop)]
pub(crate) struct Drafts {
    /// Those of the point at hand.
    pub hand: Prices,
    /// Those of the center.
    pub center: Prices,
}

/// The room of attempts.
#[derive(Drop)]
pub(crate) struct Attempts {
    /// The programme.
    pub scheme: Scheme,
    /// What values whole prices.
    pub values: PackRoom,
    /// The points.
    pub points: Points,
    /// Whole prices.
    pub drafts: Drafts,
    /// What the center is worth.
    pub best: Ratio,
    /// By how much parts are multiplied to be whole.
    pub scale: u64,
    /// The sets that become rows.
    pub worst: Worst,
    /// The work at which no round begins.
    pub work_most: u64,
}

impl Points {
    fn new(alloc: Global, modules: usize) -> Result<Points, NoMemory> {
        let center = Point::new(alloc, modules)?;
        let query = Point::new(alloc, modules)?;
        let hand = Point::new(alloc, modules)?;
        Ok(Points {
            center,
            query,
            hand,
        })
    }
}

impl Drafts {
    fn new(alloc: Global, modules: usize) -> Result<Drafts, NoMemory> {
        let hand = Prices::new(alloc, modules)?;
        let center = Prices::new(alloc, modules)?;
        Ok(Drafts { hand, center })
    }
}

/// How many cells the time below a claim is divided into, at most, where the claim doesn't have fewer cycles.
fn cells_for(case: &PackCase) -> u64 {
    let rows = (case.modules as u64).saturating_mul(case.wires as u64);
    CELLS_ALL.checked_div(rows).unwrap_or(0).max(200).min(4_000)
}

/// The cycles of a cell for a claim.
fn grain_for(case: &PackCase, claim: u64) -> u64 {
    claim
        .saturating_sub(1)
        .div_ceil(cells_for(case).max(1))
        .max(1)
}

impl Attempts {
    /// Room for the attempts at the cases of a chip. `NoMemory` where memory runs out.
    pub fn new(alloc: Global, modules: usize, wires: usize) -> Result<Attempts, NoMemory> {
        let sides = both(
            Scheme::new(alloc, modules, wires),
            PackRoom::new(alloc, modules, wires),
        );
        let prices = both(Points::new(alloc, modules), Drafts::new(alloc, modules));
        let made = both(both(sides, prices), Worst::new(alloc))?;
        let (((scheme, values), (points, drafts)), worst) = made;
        Ok(Attempts {
            scheme,
            values,
            points,
            drafts,
            best: NO_RATIO,
            scale: 1,
            worst,
            work_most: 0,
        })
    }

    /// Begins to count work, which may come to `most`.
    pub fn begin_work(&mut self, most: u64) {
        self.scheme.programme.begin_work();
        self.values.begin_work();
        self.work_most = most;
    }

    /// The work so far.
    pub fn work(&self) -> u64 {
        self.values
            .work()
            .saturating_add(self.scheme.programme.work())
    }

    /// Writes the point at hand as whole prices.
    pub fn write_hand(&mut self) {
        let modules = self.scheme.layout.modules;
        write_whole(
            &self.points.hand,
            modules,
            &self.scheme.lists,
            self.scale,
            &mut self.drafts.hand,
        );
    }

    /// Values the whole prices at hand exactly; `keep` says whether the best sets are wanted.
    pub fn value_hand<U: Uses>(&mut self, case: &PackCase, uses: &U, keep: bool) -> Ratio {
        let (claim, grain) = (self.scheme.claim, self.scheme.grain);
        self.values
            .value(case, uses, &self.drafts.hand, claim, grain, keep);
        let most = self.values.most();
        ratio_of(&self.drafts.hand, case.modules, &self.scheme.lists, most)
    }

    /// Makes the point at hand the center, where it is better.
    pub fn keep_better(&mut self, ratio: Ratio) {
        if ratio.is_above(self.best) {
            self.best = ratio;
            self.points.center.copy_point(&self.points.hand);
            self.drafts.center.copy_prices(&self.drafts.hand);
        }
    }

    /// Begins with no center.
    fn clear_center(&mut self) {
        self.best = NO_RATIO;
        self.points.center.clear_point();
        self.drafts.center.clear_prices();
    }

    /// Tries the prices that are given as the center.
    fn try_start<U: Uses>(&mut self, case: &PackCase, uses: &U, start: &Prices) {
        write_weighed(
            start,
            case.modules,
            &self.scheme.lists,
            &mut self.drafts.hand,
        );
        let ratio = self.value_hand(case, uses, false);
        self.points
            .hand
            .take_whole(&self.drafts.hand, &self.scheme.lists, ratio.total);
        self.keep_better(ratio);
    }

    /// Tries the prices that another attempt left as the center.
    fn try_warm<U: Uses>(&mut self, case: &PackCase, uses: &U, warm: &Warm) {
        if warm.has_prices() {
            self.points.hand.take_warm(warm, &self.scheme.lists);
            self.write_hand();
            let ratio = self.value_hand(case, uses, false);
            self.keep_better(ratio);
        }
    }

    /// Takes the claim and what goes with it. Whether there is room for the programme.
    fn begin<U: Uses>(
        &mut self,
        case: &PackCase,
        uses: &U,
        claim: u64,
        lists: &[usize],
        warm: &Warm,
    ) -> bool {
        self.scheme.claim = claim;
        self.scheme.grain = grain_for(case, claim);
        self.scheme.lists.take(case, uses, lists, warm, claim);
        self.scale = scale_of(&self.scheme.lists);
        self.clear_center();
        self.scheme.begin(case)
    }

    /// The next answer of the programme: whether it is one that may hold.
    fn solve(&mut self) -> bool {
        if !self.scheme.programme.solve() || self.scheme.programme.value() <= ENOUGH {
            return false;
        }
        self.scheme.take_answer(&mut self.points.query);
        true
    }

    /// Rounds, within the work: whether the center holds.
    fn run<U: Uses>(&mut self, case: &PackCase, uses: &U) -> bool {
        for number in 0..ROUNDS_MOST {
            if self.work() >= self.work_most || !self.solve() {
                return false;
            }
            match self.round(case, uses, number) {
                RoundEnd::Holds => return true,
                RoundEnd::GoesOn => self.scheme.drop_rows(),
                RoundEnd::Ends => return false,
            }
        }
        false
    }

    /// Leaves the center and the sets of the rows that bind.
    fn leave(&self, warm: &mut Warm) {
        warm.take_point(&self.points.center, &self.scheme.lists);
        self.scheme.leave_sets(warm);
    }

    /// Looks for prices that hold at a claim in a case: whether the center holds. The center is the best prices that were found, and the
    /// warmth of the attempt is left.
    pub fn attempt<U: Uses>(
        &mut self,
        case: &PackCase,
        uses: &U,
        asked: Asked<'_>,
        claim: u64,
        warm: &mut Warm,
    ) -> bool {
        if !self.begin(case, uses, claim, asked.lists, warm) {
            return false;
        }
        self.try_start(case, uses, asked.start);
        self.try_warm(case, uses, warm);
        if self.best.holds() || !self.scheme.add_singles(case, uses) {
            return self.best.holds();
        }
        self.scheme.add_warm(case, uses, warm);
        let holds = self.run(case, uses);
        self.leave(warm);
        holds
    }
}
