//! The last fault of a session.

ghost use Rattle.std.specs.Prelude.{◌≡◌, option_and_then, option_copied};
ghost use Rattle.nj_c.specs.Cited.{bare_line, Done, Nothing, GivesText, GivesTextOrNot, KeptUnlessDone, OfFault, OfPlace, kind_of, code_of};

use crate::asking::ask;
use crate::buffers::copy_text;
use crate::fault_kinds::fault_number;
use crate::session::Session;
use crate::status::Status;
use nj_graph::{GraphFault, Place};
use std::alloc::Global;

/// The kind of the fault, as one of the numbers of `enum nx_fault`.
#[unsafe(no_mangle)]
pub extern "C" fn nx_fault_kind(alloc: Global, session: &mut Session, kind: &mut i32) -> i32
    ensures kept { session.new.kept ≡ session.old.kept }
    ensures kind { OfFault session.old.kept result (λ fault.
        (result ≡ code_of Done) × (kind.new ≡ kind_of fault.cause)) }
{
    ask!(session, alloc, kept => match &kept.fault {
        Some(fault) => {
            *kind = fault_number(&fault.cause);
            Status::Done
        }
        None => Status::Nothing,
    })
}

/// The line and the column of the fault, counted from 1; columns are in bytes. `NX_NOTHING` if the
/// fault has no place.
#[unsafe(no_mangle)]
pub extern "C" fn nx_fault_place(
    alloc: Global,
    session: &mut Session,
    line: &mut usize,
    column: &mut usize,
) -> i32
    ensures kept { session.new.kept ≡ session.old.kept }
    ensures place { OfPlace session.old.kept result (λ place. (result ≡ code_of Done)
        × (record { line = line.new; column = column.new } ≡ place.spot)) }
{
    ask!(session, alloc, kept => match place_of(&kept.fault) {
        Some(place) => {
            *line = place.spot.line;
            *column = place.spot.column;
            Status::Done
        }
        None => Status::Nothing,
    })
}

/// The file of the fault, by the name under which it was opened. `NX_NOTHING` if the fault has no
/// place.
#[unsafe(no_mangle)]
pub extern "C" fn nx_fault_file(
    alloc: Global,
    session: &mut Session,
    buffer: &mut [u8],
    needed: &mut usize,
) -> i32
    ensures kept { session.new.kept ≡ session.old.kept }
    ensures file { OfPlace session.old.kept result (λ place.
        GivesText place.file buffer.old buffer.new needed.new result) }
    ensures buffer { KeptUnlessDone buffer.old buffer.new result }
{
    ask!(session, alloc, kept => match place_of(&kept.fault) {
        Some(place) => copy_text(place.file.as_bytes(), buffer, needed),
        None => Status::Nothing,
    })
}

// The place of a fault.
fn place_of(fault: &Option<GraphFault>) -> Option<&Place>
    ensures { option_copied result ≡ option_and_then (λ f. f.place) fault.now }
{
    let fault = fault.as_ref()?;
    fault.place.as_ref()
}

/// The line of the fault: `FILE:LINE:COLUMN: TEXT`, or `TEXT` where the fault has no place.
#[unsafe(no_mangle)]
pub extern "C" fn nx_fault_line(
    alloc: Global,
    session: &mut Session,
    buffer: &mut [u8],
    needed: &mut usize,
) -> i32
    ensures kept { session.new.kept ≡ session.old.kept }
    ensures line { OfFault session.old.kept result (λ fault.
        GivesTextOrNot (bare_line fault) buffer.old buffer.new needed.old needed.new result) }
    ensures buffer { KeptUnlessDone buffer.old buffer.new result }
{
    ask!(session, alloc, kept => match &kept.fault {
        Some(fault) => give_line(alloc, fault, buffer, needed),
        None => Status::Nothing,
    })
}

fn give_line(alloc: Global, fault: &GraphFault, buffer: &mut [u8], needed: &mut usize) -> Status
    ensures gives { GivesTextOrNot (bare_line fault.now) buffer.old buffer.new
        needed.old needed.new (code_of result) }
    ensures buffer { KeptUnlessDone buffer.old buffer.new (code_of result) }
{
    match fault.bare_line(alloc) {
        Ok(line) => copy_text(&line, buffer, needed),
        Err(_) => Status::OutOfMemory,
    }
}
