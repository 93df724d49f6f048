//! The numbers that a seed draws.
ghost use Rattle.std.specs.Prelude.{◌≡◌, ◌^◌, ◌<◌, ◌≤◌};
ghost use Rattle.sample_maker.specs.Samples.{drawn};

/// What drawn numbers are below.
const MODULUS: u64 = 997;

/// The number that a seed and two numbers draw: a square modulo 997.
pub fn drawn_number(seed: u64, first: u64, second: u64) -> u64
    requires seed { seed < 10 ^ 12 }
    requires first { first ≤ 200 }
    requires second { second ≤ 100 }
    ensures is { result ≡ drawn seed first second }
    ensures small { result < 997 }
{
    let root = (seed + 31 * first + 101 * second) % MODULUS;
    root * root % MODULUS
}
