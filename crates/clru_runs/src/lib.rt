//! Any list of calls of a cache is a run of the model.
//!
//! A call is a value, and `perform` makes it: its contract is one step of the model, from the cache before the call to the
//! cache after it, which is valid. `perform_all` makes a list of calls: its contract is a run, a chain of such steps. Both
//! are proved over the contracts of the cache alone.
//!
//! A value is copied out of the cache, so `V` is `Copy`: a clone may want memory, and would be one more way to fail. A key
//! is moved in and needs `Drop`.
//!
//! One more call is a variant of `Call` or `PlainCall`, its arm in `perform.rt`, and its line in `Step` or `PlainStep`.
#![tactic(auto)]

mod call;
mod laws;
mod lends;
mod perform;
mod run;
mod walks;

pub use call::{Answer, Attempt, Call, PlainCall, Weighing};
pub use laws::{law_included_runs, law_put_runs, law_sized_put_runs};
pub use perform::Perform;
pub use run::perform_all;
