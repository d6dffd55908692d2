//! The same pass over requests of keys that weigh something.

mod aged;
mod ahead;
mod curve;
mod error;
mod guide;
mod hints;
mod idle;
mod list;
mod pass;
mod position;
mod size_list;
mod sizes;
mod step;

pub use aged::SizedAgedPass;
pub use curve::SizedCurve;
pub use error::SizedRequestError;
pub use idle::SizedIdlePass;
pub use list::sized_curve;
pub use pass::SizedPass;
pub use position::SizedPositionPass;
pub use step::Step;
