//! The answer to `audit`.

ghost use Rattle.std.specs.Prelude.{◌≡◌, [], None, IfErr, IfOk, false};
ghost use Rattle.nj_ask.specs.Cited.{AskFor, first_unknown, selection_in, audit_model, AnswersAudit, WouldBeMissing, kind_lines, unknown_kind_line, IsText, AuditListsFindings, DoneFindsNothing, list_any, AreWarnings, HasServing, SaysUnknown, Usage, OfStatements, FailsBy, Gives};

use crate::answer::Answer;
use crate::discovered::DiscoveredGraph;
use crate::failure::Failure;
use crate::finding_lines::{finding_lines, kind_lines, lookup_lines};
use crate::keys::texts_of;
use crate::shape::caveat_lines;
use crate::sources::sources_of;
use crate::status::Status;
use nj_audit::{Findings, Kinds, audit};
use nj_graph::{FileTimes, Graph};
use nj_questions::AuditOptions;
use std::alloc::{AllocError, Global};

/// The kind of the findings about sources.
const ONLY_SOURCES: Kinds = Kinds {
    unused_output: false,
    missing_source: true,
    unused_rule: false,
    unused_pool: false,
    unused_variable: false,
    repeated_command: false,
    depfile_without_deps: false,
    repeated_input: false,
    undeclared_input: false,
};

// ---- the options

/// The kinds, a line each.
pub(crate) fn list_kinds(alloc: Global) -> Result<Answer, Failure>
    ensures { Gives (IsText kind_lines) result }
{
    Ok(kinds_answer(alloc)?)
}

/// The answer that lists the kinds.
fn kinds_answer(alloc: Global) -> Result<Answer, AllocError>
    ensures output { IfOk result (λ answer. answer.output.items ≡ kind_lines) }
    ensures warnings { IfOk result (λ answer. answer.warnings.items ≡ []) }
    ensures looks { IfOk result (λ answer. answer.looks ≡ false) }
{
    Ok(Answer {
        output: kind_lines(alloc)?,
        warnings: Vec::new(alloc),
        looks: false,
    })
}

/// The kinds that `--all`, `--only` and `--except` select.
pub(crate) fn kinds_asked(alloc: Global, options: &AuditOptions) -> Result<Kinds, Failure>
    ensures asked { IfOk result (λ kinds.
        AskFor kinds (selection_in (audit_model options.now))) }
    ensures known { IfOk result (λ _.
        first_unknown (selection_in (audit_model options.now)) ≡ None) }
    ensures refused { IfErr result (FailsBy Usage
        (SaysUnknown (first_unknown (selection_in (audit_model options.now))))) }
{
    let only = texts_of(alloc, &options.only)?;
    let except = texts_of(alloc, &options.except)?;
    match Kinds::from_words(options.all, &only, &except) {
        Ok(kinds) => Ok(kinds),
        Err(word) => Err(unknown_kind(alloc, word)),
    }
}

/// The refusal of a word that does not name a kind.
fn unknown_kind(alloc: Global, word: &str) -> Failure
    ensures { FailsBy Usage (λ line. line ≡ unknown_kind_line word.now) result }
{
    Failure::in_words(
        alloc,
        b"unknown kind '",
        word.as_bytes(),
        b"'; ninja-graph audit --list lists the kinds",
        Status::Usage,
    )
}

// ---- the findings

/// The findings of the given kinds, and a line for each source that cannot be looked up. Absolute
/// paths below `folder` are the build's.
pub(crate) fn answer_audit<T: FileTimes>(
    alloc: Global,
    known: &DiscoveredGraph,
    times: &T,
    folder: &[u8],
    options: &AuditOptions,
    kinds: Kinds,
) -> Result<Answer, Failure>
    requires { AskFor kinds (selection_in (audit_model options.now)) }
    ensures { OfStatements known.now.graph (λ entries. Gives (AnswersAudit known.now entries
        (T.times times.now) folder.now (audit_model options.now)) result) }
{
    let graph = &known.graph;
    let sources = sources_of(alloc, graph, times, kinds)?;
    let found = audit(
        alloc,
        graph,
        &sources.missing,
        folder,
        &known.undeclared,
        kinds,
    )?;
    let output = finding_lines(alloc, &found, options.json)?;
    let warnings = warnings_of(alloc, known, &sources.unknown)?;
    Ok(Answer {
        output,
        warnings,
        looks: !found.as_slice().is_empty(),
    })
}

/// A line for each source that cannot be looked up, and the caveats about builds.
fn warnings_of(
    alloc: Global,
    known: &DiscoveredGraph,
    unknown: &[bool],
) -> Result<Vec<u8>, AllocError>
    requires { OfStatements known.now.graph (λ _. HasServing known.now.graph) }
    ensures { OfStatements known.now.graph (λ entries.
        IfOk result (λ lines. AreWarnings known.now entries unknown.now lines.items)) }
{
    let lookups = lookups_of(alloc, &known.graph, unknown)?;
    let mut warnings = lookup_lines(alloc, &lookups)?;
    warnings.extend_from_slice(&caveat_lines(alloc, known)?)?;
    Ok(warnings)
}

/// The findings if the sources that cannot be looked up were missing.
fn lookups_of<'g>(
    alloc: Global,
    graph: &'g Graph,
    unknown: &[bool],
) -> Result<Findings<'g>, AllocError>
    requires { OfStatements graph.now (λ _. HasServing graph.now) }
    ensures { OfStatements graph.now (λ _. IfOk result (WouldBeMissing graph.now unknown.now)) }
{
    if is_any(unknown) {
        return audit(alloc, graph, unknown, &[], &[], ONLY_SOURCES);
    }
    Ok(Findings::new(alloc))
}

/// Whether any flag is set.
fn is_any(flags: &[bool]) -> bool
    ensures { result ≡ list_any (λ flag. flag) flags.now }
{
    flags.iter().any(|flag| *flag)
}

/// The output of `audit` has a line for exactly the findings about the manifest whose kinds are
/// requested. On status 0 there are no findings; each source that a command needs was looked up, if
/// missing sources are requested; and nothing is unclear about what builds discovered.
pub fn audit_law()
    ensures lists { AuditListsFindings }
    ensures done { DoneFindsNothing }
{}
