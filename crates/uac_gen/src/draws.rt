// The numbers that are drawn.
ghost use Rattle.std.specs.Prelude.{◌≡◌, ◌<◌};
ghost use Rattle.uac_gen.specs.Generator.{next_x, draw};

/// Draws numbers, each from the one before it.
#[derive(Drop)]
pub struct Draws {
    pub x: u32,
}

impl Draws {
    /// Moves on, and draws one of so many numbers from 0.
    pub fn draw(&mut self, numbers: u32) -> u32
        requires { 0 < numbers }
        ensures moves { self.new.x ≡ next_x self.old.x }
        ensures drawn { result ≡ draw numbers self.new.x }
        ensures within { result < numbers }
    {
        self.x = ((1664525 * u64::from(self.x) + 1013904223) % 4294967296) as u32;
        self.x / 65536 % numbers
    }
}
