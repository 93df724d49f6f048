//! What the tries of a search are, one after the other: first changes that may not make a state worse, then rounds of changes that
//! may make it somewhat worse, the less the later in the round. Each round has twice as many tries as the one before it.
ghost use Rattle.std.specs.Prelude.{◌<◌};

use arch_schedule::Draws;

/// The first tries may make nothing worse: this many, or more where there are many tests.
const FIRST_DESCENT: u64 = 2_000;
/// For each test it is this many at least.
const DESCENT_PER_TEST: u64 = 32;
/// After this many of them without a new best state several changes are made at once.
const PATIENCE: u64 = 1_000;
/// A round has as many parts as there are heats. The first round has this many tries in each part.
const FIRST_PART: u64 = 250;
/// For each part of a round what its allowance is a part of: the greater, the less worse a state may get.
const HEATS: [u64; 16] = [
    300, 379, 479, 605, 764, 965, 1_220, 1_541, 1_947, 2_460, 3_107, 3_926, 4_959, 6_265, 7_915,
    10_000,
];
/// Of which one is drawn: how many times the allowance, in 16ths, a state may get worse. On average it is once.
const RISES: [u64; 32] = [
    67, 49, 41, 35, 31, 28, 25, 23, 21, 19, 18, 16, 15, 14, 13, 12, 11, 10, 9, 8, 7, 6, 6, 5, 4, 4,
    3, 2, 2, 1, 1, 0,
];
/// In what the rises are counted.
const RISE_UNIT: u64 = 16;

/// What a try does.
#[derive(Clone, Copy)]
pub(crate) enum NextTry {
    /// It makes several changes of a good state at once.
    Kick,
    /// It makes one change, which may make nothing worse.
    Descent,
    /// It makes one change, which may take one part in `heat` more cycles, times a rise that is drawn.
    Annealing { heat: u64 },
}

/// How far a search is in its rounds.
#[derive(Clone, Copy, Drop)]
pub struct Rounds {
    /// How many tries are left of the first ones.
    descent: u64,
    /// The tries since the best state was found, or since the last kick.
    since: u64,
    /// The tries in each part of the round.
    size: u64,
    /// The part of the round; there is none as great as the number of heats, where the round is over.
    part: usize,
    /// How many tries are left of that part.
    left: u64,
}

impl Rounds {
    /// Before the first try, of a search with `tests` tests.
    pub(crate) fn new(tests: usize) -> Rounds {
        let descent = DESCENT_PER_TEST
            .saturating_mul(tests as u64)
            .max(FIRST_DESCENT);
        Rounds {
            descent,
            since: 0,
            size: FIRST_PART / 2,
            part: HEATS.len(),
            left: 0,
        }
    }

    /// A new best state was found.
    pub(crate) fn note_gain(&mut self) {
        self.since = 0;
    }

    /// The next of the first tries.
    fn next_descent(&mut self) -> NextTry {
        if self.since >= PATIENCE {
            self.since = 0;
            return NextTry::Kick;
        }
        self.since += 1;
        NextTry::Descent
    }

    /// Begins the next round.
    fn begin_round(&mut self) {
        self.size = self.size.saturating_mul(2);
        self.part = 0;
        self.left = self.size;
    }

    /// Counts a try of the round.
    fn count_try(&mut self)
        requires { self.old.part < 16 }
    {
        if self.left > 1 {
            self.left -= 1;
            return;
        }
        self.part += 1;
        self.left = self.size;
    }

    /// What the next try does.
    pub(crate) fn next_try(&mut self) -> NextTry {
        if self.descent > 0 {
            self.descent -= 1;
            return self.next_descent();
        }
        if self.part >= HEATS.len() {
            self.begin_round();
            return NextTry::Kick;
        }
        let heat = HEATS[self.part];
        self.count_try();
        NextTry::Annealing { heat }
    }
}

/// The cycles that a state may take which comes of one of `cycles` cycles: more by one part in `heat`, times a rise that is drawn.
pub(crate) fn drawn_most(cycles: u64, heat: u64, draws: &mut Draws) -> u64 {
    let rise = RISES[draws.below(RISES.len())];
    let more = (cycles / heat.max(1)).saturating_mul(rise) / RISE_UNIT;
    cycles.saturating_add(more)
}
