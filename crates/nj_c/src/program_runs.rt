//! Runs of the program, over the supplied files.

ghost use Rattle.std.specs.Prelude.{◌≡◌, ◌≢◌, false, [], map, string_bytes};
ghost use Rattle.nj_c.specs.Cited.{GivesText, IfOpen, KeptUnlessDone, wanted_paths, SameFiles, unread, Changes, LeavesRun, RunsKept, SameLoad, empty_memory, FinishesRun, KeepsRun, NoFailures, NoRun, Ran};

use crate::asking::{alter, ask};
use crate::buffers::copy_text;
use crate::run_words::words_in;
use crate::session::Session;
use crate::session_state::Kept;
use crate::status::Status;
use nj_cli::{OUT_OF_MEMORY, run_words};
use nj_tools::MemorySink;
use std::alloc::Global;
use std::mem;

/// Runs the program with the arguments of a text, over the supplied files: as `ninja-explain` does,
/// with its exit status, but standard output and standard error are kept in the session. Each
/// argument ends before a zero byte or at the end of the text. If files that were not supplied are
/// wanted, `nx_wanted` returns their paths, and neither output is kept.
#[unsafe(no_mangle)]
pub extern "C" fn nx_run(alloc: Global, session: &mut Session, words: &[u8], exit: &mut i32) -> i32
    ensures { Changes session.old.kept session.new.kept result (λ kept after.
        RunsKept kept after words.now exit.old exit.new) }
{
    alter!(session, alloc, kept => run_text(alloc, &mut kept, words, exit))
}

/// The standard output of the last run.
#[unsafe(no_mangle)]
pub extern "C" fn nx_run_output(
    alloc: Global,
    session: &mut Session,
    buffer: &mut [u8],
    needed: &mut usize,
) -> i32
    ensures kept { session.new.kept ≡ session.old.kept }
    ensures text { IfOpen session.old.kept result (λ kept.
        GivesText kept.output.bytes buffer.old buffer.new needed.new result) }
    ensures buffer { KeptUnlessDone buffer.old buffer.new result }
{
    ask!(session, alloc, kept => copy_text(kept.output.bytes(), buffer, needed))
}

/// The standard error of the last run.
#[unsafe(no_mangle)]
pub extern "C" fn nx_run_errors(
    alloc: Global,
    session: &mut Session,
    buffer: &mut [u8],
    needed: &mut usize,
) -> i32
    ensures kept { session.new.kept ≡ session.old.kept }
    ensures text { IfOpen session.old.kept result (λ kept.
        GivesText kept.errors.bytes buffer.old buffer.new needed.new result) }
    ensures buffer { KeptUnlessDone buffer.old buffer.new result }
{
    ask!(session, alloc, kept => copy_text(kept.errors.bytes(), buffer, needed))
}

fn run_text(alloc: Global, kept: &mut Kept, text: &[u8], exit: &mut i32) -> Status
    ensures { RunsKept kept.old kept.new text.now exit.old exit.new result }
{
    forget_run(alloc, kept);
    match words_in(alloc, text) {
        Ok(words) => run_over(alloc, kept, &words, exit),
        Err(status) => status,
    }
}

// Forgets the readings, and the output of the last run.
fn forget_run(alloc: Global, kept: &mut Kept)
    ensures files { kept.new.files ≡ unread kept.old.files }
    ensures wanted { kept.new.wanted.items ≡ [] }
    ensures run { NoRun kept.new }
    ensures load { SameLoad kept.old kept.new }
{
    kept.files.begin();
    kept.wanted.clear();
    forget_outputs(alloc, kept);
}

fn forget_outputs(alloc: Global, kept: &mut Kept)
    ensures { kept.new ≡ record kept.old { output = empty_memory; errors = empty_memory } }
{
    drop(mem::replace(&mut kept.output, MemorySink::new(alloc, None)));
    drop(mem::replace(&mut kept.errors, MemorySink::new(alloc, None)));
}

// Runs the program with the given arguments, and keeps its output.
fn run_over(alloc: Global, kept: &mut Kept, words: &[String], exit: &mut i32) -> Status
    requires wanted { kept.old.wanted.items ≡ [] }
    requires run { NoRun kept.old }
    ensures files { SameFiles kept.old.files kept.new.files }
    ensures load { SameLoad kept.old kept.new }
    ensures ends { LeavesRun kept.old.files kept.new (map string_bytes words.now)
        exit.old exit.new result }
{
    let ended = run_program(alloc, kept, words);
    match finish_run(alloc, kept) {
        Status::Done => {
            *exit = i32::from(ended.code());
            Status::Done
        }
        status => status,
    }
}

fn run_program(alloc: Global, kept: &mut Kept, words: &[String]) -> nj_cli::Status
    requires { NoRun kept.old }
    ensures files { SameFiles kept.old.files kept.new.files }
    ensures wanted { kept.new.wanted ≡ kept.old.wanted }
    ensures load { SameLoad kept.old kept.new }
    ensures runs { Ran kept.old.files kept.new (map string_bytes words.now) result }
{
    run_words(
        alloc,
        &mut kept.files,
        words,
        &mut kept.output,
        &mut kept.errors,
    )
}

// Keeps the output of a run, unless an allocation failed or files are wanted.
fn finish_run(alloc: Global, kept: &mut Kept) -> Status
    requires { kept.old.wanted.items ≡ [] }
    ensures files { kept.new.files ≡ kept.old.files }
    ensures load { SameLoad kept.old kept.new }
    ensures finishes { FinishesRun kept.old kept.new result }
{
    if has_failed(kept) {
        forget_outputs(alloc, kept);
        return Status::OutOfMemory;
    }
    match kept.files.wanted(alloc) {
        Ok(wanted) => keep_wanted(alloc, kept, wanted),
        Err(_) => {
            forget_outputs(alloc, kept);
            Status::OutOfMemory
        }
    }
}

// Whether a sink failed, as an allocation did.
fn has_failed(kept: &Kept) -> bool
    ensures { result ≡ false → NoFailures kept.now }
{
    kept.output.failures() > 0 || kept.errors.failures() > 0
}

// Keeps the paths that a run wanted and, where it wanted any, nothing of its output.
fn keep_wanted(alloc: Global, kept: &mut Kept, wanted: Vec<Vec<u8>>) -> Status
    requires paths { map (λ p. p.items) wanted.items ≡ wanted_paths kept.old.files }
    requires none { kept.old.wanted.items ≡ [] }
    ensures files { kept.new.files ≡ kept.old.files }
    ensures load { SameLoad kept.old kept.new }
    ensures keeps { KeepsRun kept.old kept.new result }
{
    if wanted.as_slice().is_empty() {
        drop(mem::replace(&mut kept.wanted, wanted));
        return Status::Done;
    }
    if is_line_of(kept.errors.bytes(), OUT_OF_MEMORY) {
        forget_outputs(alloc, kept);
        return Status::OutOfMemory;
    }
    drop(mem::replace(&mut kept.wanted, wanted));
    forget_outputs(alloc, kept);
    Status::Wanted
}

// Whether a text is the given line.
fn is_line_of(text: &[u8], line: &[u8]) -> bool
    ensures { result ≡ false → text.now ≢ line.now }
{
    text == line
}
