//! Random draws. A seed fixes all of them.
ghost use Rattle.std.specs.Prelude.{◌<◌, ◌≤◌};

/// What drawn numbers are below; it is prime.
const MODULUS: u64 = 2_147_483_647;
/// The next number is this many times the last one, modulo [`MODULUS`].
const FACTOR: u64 = 48_271;
/// Seeds that are near each other begin far from each other: they are taken this many times.
const SEED_FACTOR: u64 = 7_919;

/// Where draws come from: a multiplicative generator. Its numbers go through all from 1 up to below [`MODULUS`].
#[derive(Clone, Copy, Drop)]
pub struct Draws {
    /// The number that was drawn last.
    last: u32,
}

impl Draws {
    /// The draws of a seed.
    pub fn new(seed: u64) -> Draws {
        let most = MODULUS - 1;
        let first = seed % most * SEED_FACTOR % most + 1;
        Draws { last: first as u32 }
    }

    /// The next number.
    fn next_number(&mut self) -> u64 {
        let next = u64::from(self.last) * FACTOR % MODULUS;
        self.last = next as u32;
        next
    }

    /// A number below `n`, each about alike.
    pub fn below(&mut self, n: usize) -> usize
        requires { 1 ≤ n }
        ensures { result < n }
    {
        (self.next_number() % n as u64) as usize
    }

    /// Yes or no, by even chance.
    pub fn coin(&mut self) -> bool {
        self.next_number() % 2 == 0
    }

    /// Yes, three times in four.
    pub(crate) fn often(&mut self) -> bool {
        self.next_number() % 4 > 0
    }
}
