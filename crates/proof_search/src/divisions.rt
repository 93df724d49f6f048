//! How a case is divided: by the width of a rank, by one more rank, or by whether a module is on a rank.

use case_game::CaseGame;
use case_tables::{Case, RANKS_MOST, REST};
use leaf_values::LeafBasis;
use tables::{ONE, item_or, put_item};

/// How a case is divided.
#[derive(Clone, Copy, PartialEq, Eq)]
pub(crate) enum Division {
    /// It can't be.
    Nothing,
    /// By the width of a rank.
    Width { rank: usize, width: usize },
    /// By one more rank: of no wires, of at most `width`, of more.
    Rank { rank: usize, width: usize },
    /// By whether a module is on a rank.
    Place { module: usize, rank: usize },
}

/// The sums of what slots of the rest are taken, and of their widths.
#[derive(Clone, Copy)]
struct Means {
    count: u128,
    wires: u128,
}

/// What a module loses on the rank where it has the greatest share.
#[derive(Clone, Copy)]
struct Loss {
    lost: u128,
    rank: usize,
}

/// The last rank of more than one width is divided at the middle.
fn middle_division(case: &Case) -> Division {
    let mut division = Division::Nothing;
    for rank in 0..case.known {
        let low = case.low_of(rank);
        let high = case.high_of(rank);
        if low < high {
            let width = low.saturating_add(high) >> 1;
            division = Division::Width { rank, width };
        }
    }
    division
}

/// Adds the slots of the rest of one cut.
fn add_rest(basis: &LeafBasis, game: &CaseGame, cut: usize, means: Means) -> Means {
    let part = u128::from(game.part_of_cut(cut));
    let mut means = means;
    for module in 0..basis.chip.modules {
        let pick = game.pick_of(cut, module);
        if game.rank_of(pick) == REST {
            let wires = part.wrapping_mul(pick.width as u128);
            means.count = means.count.saturating_add(part);
            means.wires = means.wires.saturating_add(wires);
        }
    }
    means
}

/// The mean width of the slots of the rest in the mix, rounded; 0 where it has none.
fn rest_mean(basis: &LeafBasis, game: &CaseGame) -> usize {
    let mut means = Means { count: 0, wires: 0 };
    for cut in 0..game.cuts() {
        if game.part_of_cut(cut) > 0 {
            means = add_rest(basis, game, cut, means);
        }
    }
    if means.count == 0 {
        return 0;
    }
    let rounded = means.wires.saturating_add(means.count >> 1);
    let mean = rounded.checked_div(means.count).unwrap_or(0);
    usize::try_from(mean).unwrap_or(0).max(1)
}

/// One more rank, where the mix has slots on the rest.
fn rank_division(basis: &LeafBasis, case: &Case, game: &CaseGame) -> Division {
    let mean = rest_mean(basis, game);
    let far = case.rest_high();
    let rank = case.known;
    if mean == 0 || far == 0 || rank >= RANKS_MOST {
        return Division::Nothing;
    }
    let width = mean.min(far.saturating_sub(1));
    Division::Rank { rank, width }
}

/// Makes the shares of all ranks 0.
fn clear_shares(shares: &mut [u64], known: usize) {
    for rank in 0..known {
        put_item(shares, rank, 0);
    }
}

/// How much of the mix has a module on each rank.
fn take_shares(game: &CaseGame, known: usize, module: usize, shares: &mut [u64]) {
    clear_shares(shares, known);
    for cut in 0..game.cuts() {
        let rank = game.rank_of(game.pick_of(cut, module));
        let share = item_or(shares, rank, 0).saturating_add(game.part_of_cut(cut));
        put_item(shares, rank, share);
    }
}

/// The first rank of the greatest share.
fn greatest_share(shares: &[u64], known: usize) -> usize {
    let mut best: usize = 0;
    for rank in 0..known {
        if item_or(shares, rank, 0) > item_or(shares, best, 0) {
            best = rank;
        }
    }
    best
}

/// What a module loses on its rank.
fn loss_of(
    basis: &LeafBasis,
    case: &Case,
    game: &CaseGame,
    module: usize,
    shares: &mut [u64],
) -> Loss {
    take_shares(game, case.known, module, shares);
    let rank = greatest_share(shares, case.known);
    let rest = (ONE as u64).saturating_sub(item_or(shares, rank, 0));
    let time = basis.chip.total_at(module, case.low_of(rank));
    let lost = u128::from(rest).wrapping_mul(u128::from(time));
    Loss { lost, rank }
}

/// The module that loses most is placed.
fn place_division(basis: &LeafBasis, case: &Case, game: &CaseGame, shares: &mut [u64]) -> Division {
    let mut most: u128 = 0;
    let mut division = Division::Nothing;
    for module in 0..basis.chip.modules {
        let loss = loss_of(basis, case, game, module, shares);
        if loss.lost > most {
            most = loss.lost;
            let rank = loss.rank;
            division = Division::Place { module, rank };
        }
    }
    division
}

/// How a case is divided whose game was played. `shares` is room for as many ranks as there may be.
pub(crate) fn choose_division(
    basis: &LeafBasis,
    case: &Case,
    game: &CaseGame,
    shares: &mut [u64],
) -> Division {
    let division = middle_division(case);
    if division != Division::Nothing {
        return division;
    }
    let division = rank_division(basis, case, game);
    if division != Division::Nothing {
        return division;
    }
    place_division(basis, case, game, shares)
}
