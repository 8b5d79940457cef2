//! Numbers drawn from a number.

ghost use Rattle.std.specs.Prelude.{◌≡◌, ◌<◌};
ghost use Rattle.case_gen.specs.Numbers.{next_of, value_of};

/// A sequence of numbers.
#[derive(Debug, Drop)]
pub struct Numbers {
    pub state: u64,
}

impl Numbers {
    /// Draws a number below `m`.
    pub fn draw(&mut self, m: u64) -> u64
        requires { 0 < m }
        ensures state { self.new.state ≡ next_of self.old.state }
        ensures value { result ≡ value_of (next_of self.old.state) m }
    {
        self.state = self
            .state
            .wrapping_mul(6_364_136_223_846_793_005)
            .wrapping_add(1_442_695_040_888_963_407);
        (self.state >> 33) % m
    }
}
