//! Files of a run, read into their graph.

use ninja::{DiskFiles, Error, Loaded, MemoryFiles, load};
use std::alloc::Global;

/// `build.ninja` of the working directory, with all that it includes.
pub fn load_folder(rt: HostRuntime) -> Result<Loaded, Error> {
    let mut files = DiskFiles::new(rt, rt.alloc(), None)?;
    let loaded = load(rt.alloc(), &mut files, "build.ninja")?;
    Ok(loaded)
}

/// A manifest in memory, which includes no other.
pub fn load_text(alloc: Global, manifest: &[u8]) -> Result<Loaded, Error> {
    let mut files = MemoryFiles::new(alloc);
    files.add("build.ninja", manifest)?;
    let loaded = load(alloc, &mut files, "build.ninja")?;
    Ok(loaded)
}
