//! The discoveries of dyndep files.

use ninja::{Error, FileSource, Loaded, join_dyndeps, load};
use std::alloc::Global;

/// A main file with all that it includes, and the discoveries of its dyndep files.
pub fn load_joined<S: FileSource>(
    alloc: Global,
    files: &mut S,
    main: &str,
) -> Result<Loaded, Error> {
    let loaded = load(alloc, files, main)?;
    let joined = join_dyndeps(alloc, loaded, files)?;
    Ok(joined)
}
