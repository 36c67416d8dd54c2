//! The given changed paths, and the globs of those to ignore.

ghost use Rattle.std.specs.Prelude.{◌≡◌, ◌++◌, codes, None, Some, IfErr, IfOk, map, string_bytes};
ghost use Rattle.nj_globs.specs.Faults.{fault_text};
ghost use Rattle.nj_ask.specs.Cited.{affected_model, is_empty, list_any, AreGlobsAsked, change_misuse, folder_misuse, since_misuse, given_paths, pattern_line, FailsBy, MisusesAffected, SaysPattern, Usage};

use crate::failure::Failure;
use crate::keys::bases_of;
use crate::status::Status;
use nj_changes::{PatternFault, lines_of, read_globs, zero_ended};
use nj_globs::{Glob, GlobFault};
use nj_questions::AffectedOptions;
use std::alloc::{AllocError, Global};

/// The changed paths that a text lists: lines, or paths that each end with a zero byte.
pub(crate) fn given_paths<'i>(
    alloc: Global,
    options: &AffectedOptions,
    input: &'i [u8],
) -> Result<Vec<&'i [u8]>, AllocError>
    ensures { IfOk result (λ paths. map (λ path. path.now) paths.items
        ≡ given_paths (affected_model options.now) input.entry.now) }
{
    if options.zero_ended {
        return zero_ended(alloc, input);
    }
    lines_of(alloc, input)
}

/// The globs of the paths to ignore. Refuses a mistake in the options of a change, and then a pattern
/// that is not a glob.
pub(crate) fn globs_asked(alloc: Global, options: &AffectedOptions) -> Result<Vec<Glob>, Failure>
    ensures asked { IfOk result (λ globs.
        AreGlobsAsked (affected_model options.now) globs.items) }
    ensures refused { IfErr result (FailsBy Usage
        (MisusesAffected (affected_model options.now))) }
{
    match check_options(alloc, options) {
        Ok(()) => {}
        Err(failure) => return Err(failure),
    }
    match read_globs(alloc, &options.ignored) {
        Ok(globs) => Ok(globs),
        Err(fault) => Err(wrong_pattern(alloc, fault)),
    }
}

/// Refuses a directory without a name, then a base that is not absolute, and then bases where no keys
/// are compared.
fn check_options(alloc: Global, options: &AffectedOptions) -> Result<(), Failure>
    ensures allowed { IfOk result (λ _. change_misuse (affected_model options.now) ≡ None) }
    ensures refused { IfErr result (FailsBy Usage (λ line.
        change_misuse (affected_model options.now) ≡ Some line)) }
{
    match check_folder(alloc, options) {
        Ok(()) => {}
        Err(failure) => return Err(failure),
    }
    match bases_of(alloc, &options.bases) {
        Ok(_) => {}
        Err(failure) => return Err(failure),
    }
    check_since(alloc, options)
}

/// Refuses bases where no keys are compared.
fn check_since(alloc: Global, options: &AffectedOptions) -> Result<(), Failure>
    ensures allowed { IfOk result (λ _. since_misuse (affected_model options.now).since
        (affected_model options.now).bases ≡ None) }
    ensures refused { IfErr result (FailsBy Usage (λ line. since_misuse
        (affected_model options.now).since (affected_model options.now).bases ≡ Some line)) }
{
    if options.since.is_none() && !options.bases.as_slice().is_empty() {
        let text = b"--base requires --since";
        return Err(Failure::in_words(alloc, b"", text, b"", Status::Usage));
    }
    Ok(())
}

/// Refuses a directory without a name.
fn check_folder(alloc: Global, options: &AffectedOptions) -> Result<(), Failure>
    ensures allowed { IfOk result (λ _.
        folder_misuse (affected_model options.now).source_dirs ≡ None) }
    ensures refused { IfErr result (FailsBy Usage (λ line.
        folder_misuse (affected_model options.now).source_dirs ≡ Some line)) }
{
    if has_nameless(&options.source_dirs) {
        let text = b"' of --source-dir is no directory";
        return Err(Failure::in_words(alloc, b"'", b"", text, Status::Usage));
    }
    Ok(())
}

/// Whether any of the directories has no name.
fn has_nameless(folders: &[String]) -> bool
    ensures { result ≡ list_any is_empty (map string_bytes folders.now) }
{
    folders.iter().any(|folder| is_nameless(folder.as_bytes()))
}

/// Whether a name is empty.
fn is_nameless(name: &[u8]) -> bool
    ensures { result ≡ is_empty name.now }
{
    name.is_empty()
}

/// The refusal of a pattern that is not a glob.
fn wrong_pattern(alloc: Global, fault: PatternFault<'_>) -> Failure
    ensures { FailsBy Usage (SaysPattern fault.entry) result }
{
    match fault {
        PatternFault::Wrong(pattern, fault) => no_glob(alloc, pattern, fault),
        PatternFault::OutOfMemory => Failure::OutOfMemory,
    }
}

/// The refusal of a pattern with the given fault.
fn no_glob(alloc: Global, pattern: &str, fault: GlobFault) -> Failure
    ensures { FailsBy Usage (λ line. line ≡ pattern_line pattern.now fault) result }
{
    match glob_text(alloc, fault) {
        Ok(text) => {
            let pattern = pattern.as_bytes();
            Failure::in_words(alloc, b"'", pattern, text.as_bytes(), Status::Usage)
        }
        Err(_) => Failure::OutOfMemory,
    }
}

/// The text after a pattern with the given fault.
fn glob_text(alloc: Global, fault: GlobFault) -> Result<String, AllocError>
    ensures { IfOk result (λ text.
        string_bytes text ≡ codes "' of --ignore has " ++ fault_text fault) }
{
    format!(in alloc; "' of --ignore has {fault}")
}
