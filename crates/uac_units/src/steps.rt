// The count of renders.

ghost use Rattle.std.specs.Prelude.{◌≡◌, ℕ, ◌+◌, ◌^◌, ◌<◌};

use std::marker::Model;

/// How often units were rendered. A contract sees the count.
#[derive(Drop)]
pub struct Steps {
    count: u64,
}

impl Model for Steps {
    ghost Value = { ℕ };

    ghost view = { λ s. s.count };
}

impl Steps {
    /// No render yet.
    pub fn new() -> Steps
        ensures { result ≡ 0 }
    {
        Steps { count: 0 }
    }

    /// Counts one render.
    pub fn tick(&mut self)
        requires { self.old + 1 < 2 ^ 64 }
        ensures { self.new ≡ self.old + 1 }
    {
        self.count += 1;
    }

    /// Counts so many renders.
    pub fn add(&mut self, renders: usize)
        requires { self.old + renders < 2 ^ 64 }
        ensures { self.new ≡ self.old + renders }
    {
        self.count += renders as u64;
    }

    /// The renders counted so far.
    pub fn count(&self) -> u64
        ensures { result ≡ self.now }
    {
        self.count
    }
}
