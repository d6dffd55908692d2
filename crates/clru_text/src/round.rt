//! The round numbers: 1, 2, 5, 10, 20, 50, 100 and so on.
ghost use Rattle.std.specs.Prelude.{◌≡◌, ◌<◌};
ghost use Rattle.clru_text.specs.RoundNumbers.{round_number};

/// How many round numbers there are up to the greatest `usize`, and two more.
pub const ROUND_NUMBERS: usize = 60;

/// Returns the round number of an index, counted from 0.
/// Cost: none.
pub fn round_at(index: usize) -> u128
    requires { index < 60 }
    ensures value { result ≡ round_number index }
    ensures positive { 0 < result }
{
    let digit = match index % 3 {
        0 => 1,
        1 => 2,
        _ => 5,
    };
    digit * 10u128.pow((index / 3) as u32)
}
