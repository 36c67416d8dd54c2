//! Sessions, and the supplied files.

ghost use Rattle.std.specs.Prelude.{◌≡◌, None, Some, IfOk};
ghost use Rattle.nj_c.specs.Cited.{outcome_bytes, Done, Changes, IsEmpty, Opens, TakesFile, TakesPath, code_of};

use crate::asking::change;
use crate::sealed_box::Seal;
use crate::session::Session;
use crate::session_state::Kept;
use crate::status::Status;
use crate::supplied_files::SuppliedFiles;
use nj_scope::HashKeys;
use std::alloc::{AllocError, Global};

/// The version of the interface. A program still works with a greater minor number than it was
/// written for; with another major number it may not.
#[unsafe(no_mangle)]
pub extern "C" fn nx_version(major: &mut usize, minor: &mut usize) -> i32
    ensures { (result ≡ code_of Done) × (major.new ≡ 1) × (minor.new ≡ 2) }
{
    *major = 1;
    *minor = 2;
    Status::Done.code()
}

/// Opens a session that keeps nothing yet; its earlier contents are freed. The key is for hashes: a
/// number that nobody can guess keeps untrusted files from slowing a load down.
#[unsafe(no_mangle)]
pub extern "C" fn nx_open(alloc: Global, session: &mut Session, key: u64) -> i32
    ensures { Opens session.old.kept session.new.kept result }
{
    match new_session(alloc, key) {
        Ok(seal) => {
            session.put(seal);
            Status::Done.code()
        }
        Err(_) => Status::OutOfMemory.code(),
    }
}

fn new_session(alloc: Global, key: u64) -> Result<Seal, AllocError>
    ensures { IfOk result (λ seal. IsEmpty seal.kept) }
{
    match Box::new(alloc, Kept::new(alloc, HashKeys::new(key))) {
        Ok(kept) => Ok(Seal::new(kept)),
        Err(refused) => {
            drop(refused);
            Err(AllocError)
        }
    }
}

/// Closes a session, and frees all that it keeps. Closing a closed session has no effect.
#[unsafe(no_mangle)]
pub extern "C" fn nx_close(alloc: Global, session: &mut Session) -> i32
    ensures closed { session.new.kept ≡ None }
    ensures done { result ≡ code_of Done }
{
    drop(session.take(alloc));
    Status::Done.code()
}

/// Supplies the bytes of the file at a path, in place of any supplied for it before. A loaded graph
/// stays the same.
#[unsafe(no_mangle)]
pub extern "C" fn nx_add_file(
    alloc: Global,
    session: &mut Session,
    path: &[u8],
    bytes: &[u8],
) -> i32
    ensures { Changes session.old.kept session.new.kept result (λ kept after.
        TakesPath kept after path.now (Some bytes.now)) }
{
    change!(session, alloc, seal => add_text(alloc, seal, path, bytes))
}

/// Records that no file is at a path.
#[unsafe(no_mangle)]
pub extern "C" fn nx_add_absent(alloc: Global, session: &mut Session, path: &[u8]) -> i32
    ensures { Changes session.old.kept session.new.kept result (λ kept after.
        TakesPath kept after path.now None) }
{
    change!(session, alloc, seal => set_file(seal, path, None))
}

// Supplies the bytes of a file.
fn add_text(alloc: Global, seal: Seal, path: &[u8], bytes: &[u8]) -> (Seal, Status)
    ensures { TakesPath seal.kept result.0.kept path.now (Some bytes.now) result.1 }
{
    match Vec::from_slice(alloc, bytes) {
        Ok(bytes) => set_file(seal, path, Some(bytes)),
        Err(_) => (seal, Status::OutOfMemory),
    }
}

// Sets the file at a path.
fn set_file(seal: Seal, path: &[u8], file: Option<Vec<u8>>) -> (Seal, Status)
    ensures { TakesPath seal.kept result.0.kept path.now (outcome_bytes file) result.1 }
{
    let mut kept = seal.into_box();
    let status = set_in(&mut kept.files, path, file);
    (Seal::new(kept), status)
}

fn set_in(files: &mut SuppliedFiles, path: &[u8], file: Option<Vec<u8>>) -> Status
    ensures { TakesFile files.old files.new path.now (outcome_bytes file) result }
{
    match files.set(path, file) {
        Ok(()) => Status::Done,
        Err(_) => Status::OutOfMemory,
    }
}
