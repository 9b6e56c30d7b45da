ghost use Rattle.std.specs.Prelude.{◌≡◌, ◌<◌};
ghost use Rattle.drive_plan.specs.Generator.{next_state, drawn, after_turn, turn_of};

use std::marker::Model;

/// A generator of numbers: a linear congruential generator modulo 2^64 (Knuth's constants for MMIX), of whose state the
/// upper half is handed out. Contracts see its state.
#[derive(Debug, Drop)]
pub struct Plan {
    state: u64,
}

impl Model for Plan {
    ghost use Rattle.std.specs.Prelude.{ℕ};

    ghost Value = { ℕ };

    ghost view = { λ p. p.state };
}

/// The four draws of a turn.
#[derive(Clone, Copy, Debug, PartialEq, Eq)]
pub struct Turn {
    /// The first draw modulo the number of flows.
    pub a: u32,
    /// The second draw modulo 16, which tells the kind of event.
    pub b: u8,
    /// The third draw.
    pub c: u32,
    /// The fourth draw.
    pub d: u32,
}

impl Plan {
    /// The generator that begins with this number. It takes no memory.
    pub fn new(number: u64) -> Plan
        ensures { result ≡ number }
    {
        Plan { state: number }
    }

    /// Moves on, and answers the upper 32 bits of the new state. It takes no memory.
    pub fn draw(&mut self) -> u32
        ensures moved { self.new ≡ next_state self.old }
        ensures value { result ≡ drawn self.new }
    {
        self.state = self
            .state
            .wrapping_mul(6_364_136_223_846_793_005)
            .wrapping_add(1_442_695_040_888_963_407);
        (self.state / 0x1_0000_0000) as u32
    }

    /// The next turn of a run with so many flows: four draws. It takes no memory.
    pub fn turn(&mut self, flows: u32) -> Turn
        requires { 0 < flows }
        ensures moved { self.new ≡ after_turn self.old }
        ensures value { result ≡ turn_of self.old flows }
    {
        let a = self.draw() % flows;
        let b = (self.draw() % 16) as u8;
        let c = self.draw();
        let d = self.draw();
        Turn { a, b, c, d }
    }
}
