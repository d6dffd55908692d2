//! What can go wrong in the program, and the exit status of each fault.
ghost use Rattle.std.specs.Prelude.{◌≡◌};
ghost use Rattle.clru_replay.specs.Status.{status_of};

/// Why the program ends without its whole report.
#[derive(Clone, Copy, Debug, PartialEq, Eq)]
pub enum Fault {
    /// The first line is no capacity, or there is none.
    BadCapacity,
    /// A request for memory was refused.
    Memory,
    /// A read returned an error.
    Reading,
    /// A write returned an error or took nothing, or the flush failed.
    Writing,
}

/// Returns the exit status of a fault. A run without a fault ends with 0.
pub fn status(fault: &Fault) -> u8
    ensures table { result ≡ status_of fault.now }
{
    match fault {
        Fault::BadCapacity => 2,
        Fault::Memory => 3,
        Fault::Reading => 4,
        Fault::Writing => 5,
    }
}
