//! Paths, and the edges that make or use files.

ghost use Rattle.std.specs.Prelude.{◌≡◌, ℕ, List, Some, position, slice_get, bytes_eq};
ghost use Rattle.nj_c.specs.Cited.{maker_of, users_of, validation_users_of, path_at, edges_of, files_of, GivesItem, GivesText, KeptUnlessDone, AtFile, AtGraph};

use crate::asking::{ask_file, ask_graph};
use crate::buffers::copy_text;
use crate::items::give_edge;
use crate::session::Session;
use crate::status::Status;
use std::alloc::Global;

/// The path of a file.
#[unsafe(no_mangle)]
pub extern "C" fn nx_path(
    alloc: Global,
    session: &mut Session,
    file: usize,
    buffer: &mut [u8],
    needed: &mut usize,
) -> i32
    ensures kept { session.new.kept ≡ session.old.kept }
    ensures path { AtFile session.old.kept file result (λ g.
        (path : List ℕ)
        → slice_get (files_of g) file ≡ Some path
        → GivesText path buffer.old buffer.new needed.new result) }
    ensures buffer { KeptUnlessDone buffer.old buffer.new result }
{
    ask_file!(session, alloc, file, graph => copy_text(graph.path(file), buffer, needed))
}

/// The file at the given path, which has to be clean: the path as Ninja shows it.
#[unsafe(no_mangle)]
pub extern "C" fn nx_file_named(
    alloc: Global,
    session: &mut Session,
    path: &[u8],
    file: &mut usize,
) -> i32
    ensures kept { session.new.kept ≡ session.old.kept }
    ensures file { AtGraph session.old.kept result (λ g.
        GivesItem
        (position (bytes_eq path.now) (files_of g)) result (λ number. file.new ≡ number)) }
{
    ask_graph!(session, alloc, graph => match graph.file_named(path) {
        Some(found) => {
            *file = found.0;
            Status::Done
        }
        None => Status::Nothing,
    })
}

/// The edge that makes a file; `NX_NOTHING` for a source.
#[unsafe(no_mangle)]
pub extern "C" fn nx_maker(
    alloc: Global,
    session: &mut Session,
    file: usize,
    edge: &mut usize,
) -> i32
    ensures kept { session.new.kept ≡ session.old.kept }
    ensures edge { AtFile session.old.kept file result (λ g.
        GivesItem
        (maker_of (edges_of g) (path_at (files_of g) (record { 0 = file }))) result
        (λ number. edge.new ≡ number)) }
{
    ask_file!(session, alloc, file, graph => match graph.maker(file) {
        Some(found) => {
            *edge = found.0;
            Status::Done
        }
        None => Status::Nothing,
    })
}

/// The edge at an index among those that have a file as an input, by number, without duplicates.
#[unsafe(no_mangle)]
pub extern "C" fn nx_user(
    alloc: Global,
    session: &mut Session,
    file: usize,
    index: usize,
    edge: &mut usize,
) -> i32
    ensures kept { session.new.kept ≡ session.old.kept }
    ensures edge { AtFile session.old.kept file result (λ g.
        GivesItem
        (slice_get (users_of (edges_of g) (path_at (files_of g) (record { 0 = file }))) index)
        result (λ number. edge.new ≡ number)) }
{
    ask_file!(session, alloc, file, graph => give_edge(graph.users(file), index, edge))
}

/// The edge at an index among those that name a file as a validation, by number, without duplicates
/// ("Validations" in the Ninja manual).
#[unsafe(no_mangle)]
pub extern "C" fn nx_validation_user(
    alloc: Global,
    session: &mut Session,
    file: usize,
    index: usize,
    edge: &mut usize,
) -> i32
    ensures kept { session.new.kept ≡ session.old.kept }
    ensures edge { AtFile session.old.kept file result (λ g.
        GivesItem
        (slice_get (validation_users_of (edges_of g)
        (path_at (files_of g) (record { 0 = file }))) index) result (λ number. edge.new ≡ number)) }
{
    ask_file!(session, alloc, file, graph => give_edge(graph.validation_users(file), index, edge))
}
