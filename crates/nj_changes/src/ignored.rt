//! Changed paths that are ignored.

ghost use Rattle.std.specs.Prelude.{◌≡◌, ◌≢◌, ◌↔◌, ℕ, List, IsTrue, IfOk, IfErr, map, string_bytes};
ghost use Rattle.nj_changes.specs.Cited.{AreGlobsOf, AreLeft, IsFirstWrong, IsPatternFault, MatchesOne, OutOfMemory};

use nj_globs::{Glob, GlobFault};
use std::alloc::{AllocError, AllocFailed, Global};

/// Why patterns have no globs.
#[derive(Clone, Copy, Debug, PartialEq, Eq)]
pub enum PatternFault<'p> {
    /// This pattern is not a glob, for this reason, which is never lack of memory.
    Wrong(&'p str, GlobFault),
    /// An allocation failed.
    OutOfMemory,
}

/// Returns the globs that the given patterns write.
///
/// # Errors
///
/// `Wrong` with the first pattern that is not a glob, or `OutOfMemory` if an allocation failed.
pub fn read_globs(alloc: Global, patterns: &[String]) -> Result<Vec<Glob>, PatternFault<'_>>
    ensures globs { IfOk result (λ globs. AreGlobsOf (map string_bytes patterns.now) globs.items) }
    ensures wrong { IfErr result (IsPatternFault (map string_bytes patterns.now)) }
{
    let mut globs = Vec::new(alloc);
    'patterns: for pattern in patterns {
        match Glob::read(alloc, pattern.as_bytes()) {
            Ok(glob) => globs.push(glob)?,
            Err(fault) => return Err(fault_of(pattern, fault)),
        }
    }
    Ok(globs)
}

// Why patterns have no globs, if the given pattern is the first that is not a glob, unless memory
// ran out.
fn fault_of(pattern: &str, fault: GlobFault) -> PatternFault<'_>
    ensures { (patterns : List (List ℕ))
        → (fault ≢ GlobFault.OutOfMemory → IsFirstWrong patterns pattern.entry.now fault)
        → IsPatternFault patterns result }
{
    match fault {
        GlobFault::OutOfMemory => PatternFault::OutOfMemory,
        wrong => PatternFault::Wrong(pattern, wrong),
    }
}

/// Returns the paths that none of the given globs matches, in their order. The globs are borrowed
/// mutably only for their buffers.
pub fn without_ignored<'p>(
    alloc: Global,
    globs: &mut [Glob],
    paths: &[&'p [u8]],
) -> Result<Vec<&'p [u8]>, AllocError>
    ensures left { IfOk result (λ left. AreLeft globs.old
        (map (λ path. path.now) paths.now) (map (λ path. path.now) left.items)) }
    ensures same { globs.new ≡ globs.old }
{
    let mut left = Vec::new(alloc);
    'paths: for path in paths {
        if !matches_one(globs, path) {
            left.push(*path)?;
        }
    }
    Ok(left)
}

// Whether one of the given globs matches a path.
fn matches_one(globs: &mut [Glob], path: &[u8]) -> bool
    ensures one { IsTrue result ↔ MatchesOne globs.old path.now }
    ensures same { globs.new ≡ globs.old }
{
    'globs: for index in 0..globs.len() {
        if globs[index].matches(path) {
            return true;
        }
    }
    false
}

impl<T: Drop> From<AllocFailed<T>> for PatternFault<'_> {
    ghost from_gives = { λ _ e. e ≡ OutOfMemory };

    fn from(_e: AllocFailed<T>) -> Self {
        PatternFault::OutOfMemory
    }
}
