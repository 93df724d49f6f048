//! How uses in parts of ONE become the fractions of a game.

/// A use is at most this.
const USE_MOST: i64 = 1 << 60;

/// By how much the uses of a game are multiplied and divided.
#[derive(Clone, Copy)]
pub(crate) struct Scale {
    up: i64,
    down: i64,
}

/// By how much uses are multiplied and divided, so that one of `most` parts of ONE has 38 or 39 binary places.
pub(crate) fn scale_of(most: i64) -> Scale {
    let mut scale = Scale::SAME;
    for _ in 0..38 {
        if most.max(1).saturating_mul(scale.up) >= 1 << 38 {
            break;
        }
        scale.up = scale.up.saturating_mul(2);
    }
    for _ in 0..24 {
        if most / scale.down.max(1) < 1 << 39 {
            break;
        }
        scale.down = scale.down.saturating_mul(2);
    }
    scale
}

impl Scale {
    /// Uses as they are.
    pub const SAME: Scale = Scale { up: 1, down: 1 };

    /// A use in parts of ONE as a fraction of a game.
    pub fn scaled(self, number: i64) -> i64 {
        let scaled = number.max(0).saturating_mul(self.up);
        if self.down == 1 {
            return scaled.min(USE_MOST);
        }
        scaled.checked_div(self.down).unwrap_or(0)
    }

    /// A fraction of a game in parts of ONE.
    pub fn unscaled(self, fraction: i64) -> i64 {
        let rounded = fraction.saturating_add(self.up / 2);
        rounded
            .checked_div(self.up)
            .unwrap_or(0)
            .saturating_mul(self.down)
    }
}
