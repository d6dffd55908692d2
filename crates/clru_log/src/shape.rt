//! Shapes of texts, and the numbers in them.
ghost use Rattle.std.specs.Prelude.{◌≡◌, ◌+◌, ◌≤◌, ◌<◌, true, take, drop, length};
ghost use Rattle.std.specs.Char.{is_ascii_digit};
ghost use Rattle.std.specs.List.{list_all};
ghost use Rattle.clru_log.specs.Shapes.{HasDigits, fits as fits_by, has_shape as has_shape_by, is_of_shape as is_of_shape_by, number_at};

/// Returns whether a text begins with bytes of a shape, where `0` stands for any digit, `?` for any byte, and another for itself.
pub(crate) fn has_shape(shape: &[u8], text: &[u8]) -> bool
    ensures value { result ≡ has_shape_by shape.now text.now }
    ensures long { result ≡ true → length shape.now ≤ length text.now }
    ensures digits { result ≡ true → HasDigits shape.now text.now }
{
    if text.len() < shape.len() {
        return false;
    }
    for (at, mark) in shape.iter().enumerate() {
        if !fits(*mark, text[at]) {
            return false;
        }
    }
    true
}

/// Returns whether a text is of a shape, and ends with it.
pub(crate) fn is_of_shape(shape: &[u8], text: &[u8]) -> bool
    ensures value { result ≡ is_of_shape_by shape.now text.now }
    ensures long { result ≡ true → length shape.now ≡ length text.now }
    ensures digits { result ≡ true → HasDigits shape.now text.now }
{
    text.len() == shape.len() && has_shape(shape, text)
}

fn fits(mark: u8, byte: u8) -> bool
    ensures { result ≡ fits_by mark byte }
{
    if mark == b'0' {
        byte.is_ascii_digit()
    } else {
        mark == b'?' || byte == mark
    }
}

/// Returns the number that two digits of a text name.
pub(crate) fn two_digits(text: &[u8], from: usize) -> usize
    requires within { from + 2 ≤ length text.now }
    requires digits { list_all is_ascii_digit (take 2 (drop from text.now)) ≡ true }
    ensures value { result ≡ number_at from 2 text.now }
    ensures below { result < 100 }
{
    (text[from] - b'0') as usize * 10 + (text[from + 1] - b'0') as usize
}

/// Returns the number that four digits of a text name.
pub(crate) fn four_digits(text: &[u8], from: usize) -> usize
    requires within { from + 4 ≤ length text.now }
    requires digits { list_all is_ascii_digit (take 4 (drop from text.now)) ≡ true }
    ensures value { result ≡ number_at from 4 text.now }
    ensures below { result < 10000 }
{
    two_digits(text, from) * 100 + two_digits(text, from + 2)
}
