//! Where walks by index stand: the place that each of them comes to next.
ghost use Rattle.std.specs.Prelude.{◌≡◌, ℕ, List, Some, IfSome, false, slice_get};
ghost use Rattle.clru_list.specs.Fingers.{IsFinger, IsPointed};

/// The place of the entry at an index.
#[derive(Clone, Copy, Debug)]
pub struct Finger {
    pub(crate) index: usize,
    pub(crate) place: usize,
}

/// The one that goes up from the front, and the one that goes down from the back. A change of the order clears both, by one
/// word: what stands in them counts only if they were set since.
#[derive(Clone, Copy, Debug)]
pub struct Fingers {
    pub(crate) kept: bool,
    pub(crate) up: Option<Finger>,
    pub(crate) down: Option<Finger>,
}

impl Fingers {
    pub(crate) fn none() -> Self
        ensures { result.kept ≡ false }
    {
        Fingers {
            kept: false,
            up: None,
            down: None,
        }
    }

    pub(crate) fn clear(&mut self)
        ensures { self.new.kept ≡ false }
    {
        self.kept = false;
    }

    /// The place of the index, if the finger that goes up has it.
    pub(crate) fn up_at(&self, index: usize) -> Option<usize>
        ensures { IfSome result (λ p. (places : List ℕ) → IsPointed places self.now
            → slice_get places index ≡ Some p) }
    {
        if self.kept {
            pointed(self.up, index)
        } else {
            None
        }
    }

    /// The place of the index, if the finger that goes down has it.
    pub(crate) fn down_at(&self, index: usize) -> Option<usize>
        ensures { IfSome result (λ p. (places : List ℕ) → IsPointed places self.now
            → slice_get places index ≡ Some p) }
    {
        if self.kept {
            pointed(self.down, index)
        } else {
            None
        }
    }

    pub(crate) fn set_up(&mut self, finger: Option<Finger>)
        ensures { (places : List ℕ) → IsFinger places finger → IsPointed places self.old → IsPointed places self.new }
    {
        if !self.kept {
            self.down = None;
        }
        self.up = finger;
        self.kept = true;
    }

    pub(crate) fn set_down(&mut self, finger: Option<Finger>)
        ensures { (places : List ℕ) → IsFinger places finger → IsPointed places self.old → IsPointed places self.new }
    {
        if !self.kept {
            self.up = None;
        }
        self.down = finger;
        self.kept = true;
    }
}

/// The place of the index, if the finger has it.
fn pointed(finger: Option<Finger>, index: usize) -> Option<usize>
    ensures { IfSome result (λ p. (places : List ℕ) → IsFinger places finger → slice_get places index ≡ Some p) }
{
    match finger {
        Some(finger) if finger.index == index => Some(finger.place),
        _ => None,
    }
}

/// A finger at the place, if there is one.
pub(crate) fn pointing(index: usize, place: Option<usize>) -> Option<Finger>
    ensures { (places : List ℕ) → IfSome place (λ p. slice_get places index ≡ Some p) → IsFinger places result }
{
    match place {
        Some(place) => Some(Finger { index, place }),
        None => None,
    }
}
