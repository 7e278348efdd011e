//! Numbers that look random, and are the same on every run.

ghost use Rattle.std.specs.Prelude.{◌<◌, length, Contains};

/// The generator xorshift64* (Vigna 2016, "An experimental exploration of Marsaglia's xorshift generators, scrambled").
#[derive(Drop)]
pub(crate) struct Generator {
    state: u64,
}

impl Generator {
    /// Starts from the seed. Seeds in turn are spread by an odd factor, and the state is never 0, which would stay.
    pub(crate) fn new(seed: u64) -> Generator {
        Generator {
            state: seed.wrapping_mul(0x9e37_79b9_7f4a_7c15) | 1,
        }
    }

    /// Any number of 64 bits.
    pub(crate) fn number(&mut self) -> u64 {
        let mut x = self.state;
        x ^= x >> 12;
        x ^= x << 25;
        x ^= x >> 27;
        self.state = x;
        x.wrapping_mul(0x2545_f491_4f6c_dd1d)
    }

    /// A number below n.
    pub(crate) fn below(&mut self, n: u32) -> u32
        requires { 0 < n }
        ensures { result < n }
    {
        ((self.number() >> 32) % u64::from(n)) as u32
    }

    /// One of the choices.
    pub(crate) fn choose(&mut self, choices: &[u8]) -> u8
        requires { 0 < length choices.now }
        ensures { Contains choices.now result }
    {
        let place = (self.number() >> 32) % choices.len() as u64;
        choices[place as usize]
    }
}
