//! The random numbers of storms and of `play`.

ghost use Rattle.std.specs.Prelude.{◌≡◌, ◌+◌, ◌%◌};
ghost use Rattle.bp_replay.specs.Generator.{next_state, drawn};

const FACTOR: u64 = 6_364_136_223_846_793_005;

const STEP: u64 = 1_442_695_040_888_963_407;

/// A generator of pseudo-random numbers, the same ones from the same seed.
#[derive(Clone, Copy, Debug, PartialEq, Eq)]
pub struct Generator {
    /// The seed, and after each draw the state that the draw left.
    pub state: u64,
}

impl Generator {
    /// Makes a generator with a seed.
    pub fn new(seed: u64) -> Generator
        ensures { result.state ≡ seed }
    {
        Generator { state: seed }
    }

    /// Draws a number of 32 bits.
    pub fn draw(&mut self) -> u32
        ensures drawn { result ≡ drawn self.old.state }
        ensures state { self.new.state ≡ next_state self.old.state }
    {
        self.state = FACTOR.wrapping_mul(self.state).wrapping_add(STEP);
        (self.state >> 32) as u32
    }

    /// Draws a number that is at most `most`.
    pub fn draw_up_to(&mut self, most: usize) -> usize
        ensures drawn { result ≡ drawn self.old.state % (most + 1) }
        ensures state { self.new.state ≡ next_state self.old.state }
    {
        let number = self.draw() as usize;
        if number <= most {
            number
        } else {
            number % (most + 1)
        }
    }
}
