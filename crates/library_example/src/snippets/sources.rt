//! A source of files that a program has of its own.

ghost use Rattle.std.specs.Prelude.{None};

use ninja::{FileSource, HashKeys, SourceFault};
use std::alloc::Global;

/// The files of a source that are in the working directory or below it, by their paths alone: at
/// any other path there is no file.
#[derive(Drop)]
pub struct FolderFiles<S: FileSource + Drop> {
    pub source: S,
}

impl<S: FileSource + Drop> FileSource for FolderFiles<S> {
    ghost state = { λ files. record {
      readings = None;
      failures = (S.state files.source).failures;
      files = λ _. None;
    } };

    fn read(&mut self, alloc: Global, path: &str) -> Result<Option<Vec<u8>>, SourceFault> {
        if path.starts_with('/') || path.split('/').any(|part| part == "..") {
            return Ok(None);
        }
        self.source.read(alloc, path)
    }

    fn hash_keys(&self) -> HashKeys {
        self.source.hash_keys()
    }
}
