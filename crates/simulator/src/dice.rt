// What is chosen by a seed: a linear congruential generator of 64 bits, of which the upper 31 are used.
ghost use Rattle.std.specs.Prelude.{◌≡◌, ◌/◌, ◌%◌, ◌<◌};
ghost use Rattle.simulator.specs.Draws.{drawn};

const FACTOR: u64 = 6364136223846793005;

const STEP: u64 = 1442695040888963407;

#[derive(Clone, Copy, PartialEq, Eq, Debug)]
pub struct Dice {
    state: u64,
}

impl Dice {
    pub fn from_seed(seed: u64) -> Self
        ensures { result.state ≡ seed }
    {
        Dice { state: seed }
    }

    // The next state.
    pub fn word(&mut self) -> u64
        ensures value { result ≡ drawn self.old.state }
        ensures state { self.new.state ≡ result }
    {
        self.state = self.state.wrapping_mul(FACTOR).wrapping_add(STEP);
        self.state
    }

    // One of `n` numbers from 0 on, by the upper bits of the next state.
    pub fn below(&mut self, n: u64) -> u64
        requires { 0 < n }
        ensures bound { result < n }
        ensures value { result ≡ drawn self.old.state / 8589934592 % n }
        ensures state { self.new.state ≡ drawn self.old.state }
    {
        self.word() / 0x2_0000_0000 % n
    }
}
