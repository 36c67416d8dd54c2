//! Names without duplicates, by their numbers; sets of numbers; and how the names of a run are
//! hashed.
#![tactic(auto)]

mod byte_hash;
mod files;
mod hash_keys;
mod name_hasher;
mod number_set;
mod plain_hasher;
mod round_set;
mod short;
mod table;

pub use files::{FileNo, Files};
pub use hash_keys::HashKeys;
pub use name_hasher::NameHasher;
pub use number_set::NumberSet;
pub use plain_hasher::PlainHasher;
pub use round_set::RoundSet;
pub use short::short_number;
pub use table::Names;
