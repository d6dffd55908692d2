//! The time of a request.
ghost use Rattle.std.specs.Prelude.{⊤, IfOk};
ghost use Rattle.std.specs.declared.time.Instant.{Instant};

use std::io;
use std::rt::Clock;
use std::time::Instant;

/// Tells the time.
pub trait Timer {
    // One reading: which time it may return, and which timer it may leave.
    ghost reads: { Self → Instant → Self → Type 0 };

    /// Returns the time of now.
    fn read(&mut self) -> io::Result<Instant>
        ensures step { IfOk result (λ now. reads self.old now self.new) };
}

/// The monotonic clock of a runtime. What a clock shows is its own: no clause speaks of it.
#[derive(Drop)]
pub struct Monotonic<'c, C: Clock> {
    pub clock: &'c C,
}

impl<'c, C: Clock> Timer for Monotonic<'c, C> {
    ghost reads = { λ _ _ _. ⊤ };

    fn read(&mut self) -> io::Result<Instant> {
        Instant::now(self.clock)
    }
}
