//! The code of a variable, as the line of its value.
ghost use Rattle.std.specs.Prelude.{◌≤◌};

/// The line of a value of a variable, with `0` for the value: the value, the variable's code, and a line feed.
#[derive(Clone, Copy, Drop)]
pub struct Code {
    /// The line, and behind it bytes that say nothing.
    pub bytes: [u8; 8],
    /// How many bytes the line has.
    pub length: usize,
    ghost short: { length ≤ 8 },
}
