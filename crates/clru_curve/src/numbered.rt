//! Values with numbers that rise.
ghost use Rattle.std.specs.Prelude.{◌≡◌, ℕ, ◌<◌, length, map};
ghost use Rattle.clru_curve.specs.Rising.{number_at, HasNumber, IsRising};

/// The bits of a block of requests or the size of one, and its number.
#[derive(Clone, Copy)]
pub(crate) struct Numbered {
    pub(crate) number: usize,
    pub(crate) value: usize,
}

/// What has a number and a value, in whatever form.
pub(crate) trait NumberedValue: Copy {
    ghost use Rattle.clru_curve.specs.declared.numbered.Numbered.{Numbered};

    ghost seen: { Self → Numbered };

    fn number(&self) -> usize
        ensures { result ≡ (seen self.now).number };

    fn value(&self) -> usize
        ensures { result ≡ (seen self.now).value };
}

impl NumberedValue for Numbered {
    ghost seen = { λ s. s };

    #[inline]
    fn number(&self) -> usize {
        self.number
    }

    #[inline]
    fn value(&self) -> usize {
        self.value
    }
}

/// Returns the place of the value with this number, which there is.
pub(crate) fn place_of(values: &[Numbered], number: usize) -> usize
    requires there { HasNumber values.now number }
    requires rising { (high : ℕ) × IsRising 0 values.now high }
    ensures inside { result < length values.now }
    ensures number { number_at values.now result ≡ number }
{
    // It is here unless some after it were dropped, and never before here.
    let last = values.len() - 1;
    let guess = last.saturating_sub(values[last].number.saturating_sub(number));
    place_near(values, number, guess)
}

/// Returns the same. It looks first at the place where the value is likely to be.
#[inline]
pub(crate) fn place_near<T: NumberedValue>(values: &[T], number: usize, guess: usize) -> usize
    requires there { HasNumber (map T.seen values.now) number }
    requires rising { (high : ℕ) × IsRising 0 (map T.seen values.now) high }
    ensures inside { result < length values.now }
    ensures number { number_at (map T.seen values.now) result ≡ number }
{
    if guess < values.len() && values[guess].number() == number {
        return guess;
    }
    last_up_to(values, number)
}

/// Returns the last place whose number is not greater, or the first of all.
fn last_up_to<T: NumberedValue>(values: &[T], number: usize) -> usize
    requires { 0 < length values.now }
    ensures inside { result < length values.now }
    ensures there { (i high : ℕ) → IsRising 0 (map T.seen values.now) high → number_at (map T.seen values.now) i ≡ number
        → i < length values.now → result ≡ i }
{
    let mut first = 0;
    let mut count = values.len();
    while count > 1 {
        let half = count / 2;
        count -= half;
        if values[first + half].number() <= number {
            first += half;
        }
    }
    first
}
