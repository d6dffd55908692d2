//! The picture of a curve, in SVG.

mod behind;
mod by_keys;
mod by_size;

pub(crate) use behind::picture_behind;
pub(crate) use by_keys::picture_by_keys;
pub(crate) use by_size::picture_by_size;
