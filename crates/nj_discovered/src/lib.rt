//! The inputs that builds discovered for edges: by the deps log, and by depfiles ("Deps" and "C/C++
//! header dependencies" in the Ninja manual).
#![tactic(auto)]

mod by_depfile;
mod by_log;
mod discoveries;
mod finder;
mod names;
mod outputs;
mod times;
mod verdict;

pub use discoveries::Discoveries;
pub use finder::Finder;
pub use names::clean;
pub use times::{FileTimes, TimeFound, time_of};
pub use verdict::{DepfileError, Unknown, Verdict};
