//! What `equal!` calls. Functions that may end the process have no place in a library.

use std::fmt::Debug;
use std::process::Abort;

/// Returns where the two are equal, and ends the process where they are not.
pub(crate) fn equal<T: PartialEq + Debug + Drop>(rt: &impl Abort, left: T, right: T) {
    assert_eq!(rt; left, right);
}

/// Returns where the two are equal, and ends the process where they are not, by a message that shows `of`.
pub(crate) fn equal_of<T: PartialEq + Debug + Drop>(
    rt: &impl Abort,
    left: T,
    right: T,
    of: impl Debug + Drop,
) {
    assert_eq!(rt; left, right, "{of:?}");
}
