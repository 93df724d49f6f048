//! What a test over the wires does at a cycle, by division: its cycles are the setup, the Shifts before the first capture, and
//! then one block after another of a capture and the Shifts after it.
ghost use Rattle.std.specs.Prelude.{◌≡◌, ◌+◌, ◌^◌, ◌<◌, suc, Some, None, cond, length, nat_lt, option_map};
ghost use Rattle.plan_model.specs.Moments.{phase_ops, near_capture, moment_ahead, moment_behind, IsMoment, ArePhases};

/// A capture that lies some Shifts ahead, or behind.
#[derive(Clone, Copy, PartialEq, Eq, Debug)]
pub struct NearCapture {
    /// The Shifts between.
    pub shifts: u64,
    /// The pattern that is captured, counted from 1.
    pub pattern: u64,
}

/// One cycle of a test over the wires.
#[derive(Clone, Copy, PartialEq, Eq, Debug)]
pub enum Moment {
    /// At rest before the first Shift.
    Setup,
    /// Every bit moves one place on, between a capture ahead and one behind.
    Shift {
        ahead: Option<NearCapture>,
        behind: Option<NearCapture>,
    },
    /// The capture of a pattern, counted from 1.
    Capture {
        pattern: u64,
    },
}

impl Moment {
    /// The capture ahead, where Shifts alone lie before it.
    pub fn ahead(self) -> Option<NearCapture>
        ensures { option_map near_capture result ≡ moment_ahead self }
    {
        match self {
            Moment::Shift { ahead, .. } => ahead,
            _ => None,
        }
    }

    /// The capture behind, where Shifts alone lie after it.
    pub fn behind(self) -> Option<NearCapture>
        ensures { option_map near_capture result ≡ moment_behind self }
    {
        match self {
            Moment::Shift { behind, .. } => behind,
            _ => None,
        }
    }
}

/// The phases of a test over the wires (Iyengar, Chakrabarty and Marinissen 2002). Between two captures lie as many Shifts as
/// the longer one of `si` and `so`.
#[derive(Clone, Copy, Drop)]
pub struct Phases {
    /// The cycles at rest before the first Shift.
    pub setup: u64,
    /// The Shifts before the first capture: the length of the longest scan-in path, in cells.
    pub si: u64,
    /// The Shifts after the last capture: the length of the longest scan-out path, in cells.
    pub so: u64,
    /// The patterns, at least one.
    pub patterns: u64,
}

impl Phases {
    /// What the test does `cycle` cycles after its start, counted from 0, and how many Shifts lie between this cycle and the
    /// captures ahead and behind.
    pub fn at(&self, cycle: u64) -> Moment
        requires phases { ArePhases self.now }
        requires active { cycle < length (phase_ops self.now) }
        ensures { IsMoment self.now cycle result }
    {
        if cycle < self.setup {
            return Moment::Setup;
        }
        let shifted = cycle - self.setup;
        if shifted < self.si {
            return self.before_all(shifted);
        }
        self.in_block(shifted - self.si)
    }

    /// A Shift before the first capture.
    fn before_all(&self, shifted: u64) -> Moment
        requires phases { ArePhases self.now }
        requires active { shifted < self.now.si }
        ensures { IsMoment self.now (self.now.setup + shifted) result }
    {
        let ahead = NearCapture {
            shifts: self.si - 1 - shifted,
            pattern: 1,
        };
        Moment::Shift {
            ahead: Some(ahead),
            behind: None,
        }
    }

    /// What the test does `cycle` cycles after its first capture. Each block begins with a capture, and each but the last
    /// has as many Shifts as the longest path has cells.
    fn in_block(&self, cycle: u64) -> Moment
        requires phases { ArePhases self.now }
        requires active { self.now.setup + self.now.si + cycle < length (phase_ops self.now) }
        ensures { IsMoment self.now (self.now.setup + self.now.si + cycle) result }
    {
        let period = 1 + self.si.max(self.so);
        let (block, place) = (cycle / period, cycle % period);
        if place == 0 {
            return Moment::Capture { pattern: block + 1 };
        }
        let ahead = self.capture_after(block, period - 1 - place);
        let behind = NearCapture {
            shifts: place - 1,
            pattern: block + 1,
        };
        Moment::Shift {
            ahead,
            behind: Some(behind),
        }
    }

    /// The capture that comes `shifts` Shifts later, after a block.
    fn capture_after(&self, block: u64, shifts: u64) -> Option<NearCapture>
        requires { block + 2 < 2 ^ 64 }
        ensures { result
            ≡ cond (nat_lt (suc block) self.now.patterns)
            (Some (record { shifts = shifts; pattern = suc (suc block) })) None }
    {
        if block + 1 < self.patterns {
            Some(NearCapture {
                shifts,
                pattern: block + 2,
            })
        } else {
            None
        }
    }
}
