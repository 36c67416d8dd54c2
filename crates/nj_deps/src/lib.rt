//! The deps log, `.ninja_deps`: the inputs of edges that builds discovered ("Deps" in the Ninja
//! manual).
//!
//! A log begins with the line `# ninjadeps` and a version, 4. After these 16 bytes come records,
//! which Ninja appends while it builds. Numbers have 32 bits, the lowest byte first. A record is
//!
//! - a number: the size of what follows in bytes, at most 2^19 - 1, with bit 31 set if the record
//!   has dependencies;
//! - if it has a path: the bytes of the path, zero to three zero bytes, which make their count a
//!   multiple of four, and the complement of the path's number. The first path has the number 0,
//!   the next one 1, and so on: the complement shows whether two Ninjas wrote at once;
//! - if it has dependencies: the number of an output's path, the lower and the upper half of the
//!   time of that output in nanoseconds, and the numbers of the paths of its inputs.
//!
//! A path comes before the records that use its number. Of several records for one output the last
//! wins, so a log only grows, until `ninja -t recompact` rewrites it. After the first line and the
//! version, this is the log of an output `a` with the input `b` at the time 1:
//!
//! ```text
//! 08 00 00 00   61 00 00 00   ff ff ff ff                 the path `a`, number 0
//! 08 00 00 00   62 00 00 00   fe ff ff ff                 the path `b`, number 1
//! 10 00 00 80   00 00 00 00   01 00 00 00   00 00 00 00   01 00 00 00
//! ```
#![tactic(auto)]

mod laws;
mod little_endian;
mod log;
mod log_fault;
mod log_table;
mod logged_outputs;
mod path_no;
mod paths;
mod records;

pub use laws::{bytes_say_one_thing, each_output_once, good_logs_are_read, last_record_counts};
pub use log::DepsLog;
pub use log_fault::DepsLogFault;
pub use logged_outputs::LoggedOutput;
pub use nj_names::HashKeys;
pub use path_no::PathNo;
pub use paths::Paths;
