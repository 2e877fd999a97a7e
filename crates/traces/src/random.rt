// Numbers from a seed, the same each time.
ghost use Rattle.std.specs.Prelude.{◌≡◌, ℕ, ◌+◌, ◌/◌, ◌%◌, ◌^◌, ◌<◌, All, length, max, slice_index};
ghost use Rattle.traces.specs.Random.{after, after_steps};

// What is added at each step, if nothing else is said.
const INCREMENT: u64 = 1442695040888963407;

// A linear congruential generator modulo 2^64. Its numbers are the upper bits of its states.
#[derive(Clone, Copy, Debug)]
pub struct Random {
    pub state: u64,
    pub increment: u64,
}

impl Random {
    pub fn new(seed: u64) -> Random
        ensures seed { result.state ≡ seed }
        ensures increment { result.increment ≡ INCREMENT }
    {
        Random {
            state: seed,
            increment: INCREMENT,
        }
    }

    // The next number, which is below 2^31.
    pub fn draw(&mut self) -> u64
        ensures next { self.new ≡ after self.old }
        ensures upper { result ≡ self.new.state / 2 ^ 33 }
        ensures below { result < 2 ^ 31 }
    {
        self.state = self
            .state
            .wrapping_mul(6364136223846793005)
            .wrapping_add(self.increment);
        self.state >> 33
    }
}

// Pages below a bound as they come from a seed, with 1 added at each step; page 0 where the bound is 0.
pub fn draw(trace: &mut [u64], seed: u64, bound: u64)
    ensures below { All (λ p. p < max bound 1) trace.new }
    ensures drawn { (k : ℕ) → k < length trace.new → slice_index trace.new k ≡ (after_steps (k + 1) (record { state = seed; increment = 1 })).state / 2 ^ 33 % max bound 1 }
{
    let mut random = Random {
        state: seed,
        increment: 1,
    };
    for page in trace.iter_mut() {
        *page = random.draw() % bound.max(1);
    }
}
