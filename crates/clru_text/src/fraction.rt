//! Miss ratios in decimal digits.
ghost use Rattle.std.specs.Prelude.{◌≡◌, ◌≤◌, Some};
ghost use Rattle.clru_text.specs.Fractions.{fraction_text, millionths};

use std::fmt;

/// A number of millionths. It is printed as a decimal fraction of six digits.
#[derive(Clone, Copy, Debug, PartialEq, Eq)]
pub struct Millionths(pub u128);

/// Returns how many millionths a number is of all, rounded, a half up. Of none it is as of one.
/// Cost: none.
pub fn ratio_of(number: usize, all: usize) -> Millionths
    ensures { result.0 ≡ millionths number all }
{
    let whole = all.max(1) as u128;
    Millionths((2_000_000 * (number as u128) + whole) / (2 * whole))
}

impl fmt::Display for Millionths {
    ghost output = { λ n. Some (fraction_text n.0) };

    fn fmt<W: fmt::Write>(&self, f: &mut fmt::Formatter<W>) -> fmt::Result {
        let millionths = self.0;
        let ones = millionths / 1_000_000;
        let [tenth, hundredth, thousandth] = [
            millionths / 100_000 % 10,
            millionths / 10_000 % 10,
            millionths / 1000 % 10,
        ];
        let [ten_thousandth, hundred_thousandth, millionth] = [
            millionths / 100 % 10,
            millionths / 10 % 10,
            millionths % 10,
        ];
        write!(
            f,
            "{ones}.{tenth}{hundredth}{thousandth}{ten_thousandth}{hundred_thousandth}{millionth}"
        )
    }
}
