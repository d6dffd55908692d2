//! The curves of `clru_curve` as classes of a split.
ghost use Rattle.std.specs.Prelude.{◌≡◌};
ghost use Rattle.clru_curve.specs.Classes.{class};

use crate::curve::MissCurve;
use crate::sized::SizedCurve;
use crate::splits::curve::Curve;
use std::alloc::{Allocator, Global};
use std::marker::Model;
use std::num::NonZeroUsize;

/// A curve by keys, with the number of its requests. Without a cache all of them miss. A clause sees both.
#[derive(Drop)]
pub struct Class<'a, A: Allocator = Global> {
    requests: usize,
    curve: &'a MissCurve<A>,
}

impl<'a, A: Allocator> Model for Class<'a, A> {
    ghost use Rattle.clru_curve.specs.Classes.{ClassOf, class, class_code};

    ghost Value = { ClassOf };

    ghost coded = { class_code };

    ghost view = { λ c. class c.requests c.curve.now };
}

impl<'a, A: Allocator> Class<'a, A> {
    /// Creates a class from a curve and the number of its requests.
    /// Cost: none.
    pub fn new(requests: usize, curve: &'a MissCurve<A>) -> Self
        ensures { result ≡ class requests curve.now }
    {
        Class { requests, curve }
    }
}

impl<'a, A: Allocator> Curve for Class<'a, A> {
    ghost use Rattle.std.specs.Prelude.{Some};
    ghost use Rattle.clru_curve.specs.Curves.{misses_at};

    ghost all = { λ c. c.requests };

    ghost missed = { λ c k. Some (misses_at c.misses k) };

    fn all(&self) -> usize {
        self.requests
    }

    fn missed(&self, capacity: NonZeroUsize) -> Option<usize> {
        Some(self.curve.misses(capacity))
    }
}

/// A curve by size is a class of its own: what misses is a size, and the capacities are those above the greatest weight.
impl<A: Allocator> Curve for SizedCurve<A> {
    ghost use Rattle.clru_curve.specs.Classes.{missed_size_above};

    ghost all = { λ c. c.size };

    ghost missed = { missed_size_above };

    fn all(&self) -> usize {
        self.size()
    }

    fn missed(&self, capacity: NonZeroUsize) -> Option<usize> {
        self.missed_size(capacity)
    }
}
