//! The size of a line that begins with a class.
ghost use Rattle.std.specs.Prelude.{◌≡◌, is_some, IfSome};
ghost use Rattle.clru_shares.specs.Sizes.{is_sized, own_size};

use crate::class::rest_of;
use clru_text::size_of;

/// Returns the size that follows the class of a line, or `None` if there is none. By keys lines have no sizes, and it returns 0.
pub(crate) fn size_of_request(sizes: bool, line: &[u8]) -> Option<usize>
    ensures size { IfSome result (λ size. size ≡ own_size sizes line.now) }
    ensures is_sized { is_some result ≡ is_sized sizes line.now }
{
    if !sizes {
        return Some(0);
    }
    match size_of(rest_of(line)) {
        Some(size) => Some(size.get()),
        None => None,
    }
}
