//! The answer to `affected`.

ghost use Rattle.std.specs.Prelude.{◌≡◌, [], IfOk, false};
ghost use Rattle.nj_ask.specs.Cited.{AnswersAffected, AreGlobsAsked, Gives, HasEdges, OfStatements, affected_model, asked_of, change_asked, change_model, named_files, new_model, no_path_line, outputs_asked, texts};

use crate::answer::Answer;
use crate::discovered::DiscoveredGraph;
use crate::failure::Failure;
use crate::given::given_paths;
use crate::listing::{Listed, unknown_rule};
use crate::option_files::OptionFiles;
use crate::report::{Change, report_of};
use crate::since::{Since, new_since};
use crate::status::Status;
use nj_changes::without_ignored;
use nj_globs::Glob;
use nj_graph::FileTimes;
use nj_names::Names;
use nj_questions::AffectedOptions;
use std::alloc::{AllocError, Global};

/// The warning that no path was given.
pub(crate) const NO_PATH: &[u8] = b"ninja-graph: no changed path was given\n";

/// The answer about a change of the files at the paths that `input` lists, without those that
/// `globs` match, by the working directory `folder`. Where `input` lists no path, the answer says
/// so, unless `options` allow it: whatever should have listed the paths may have failed. `named` has
/// the keys of an older manifest, if these are compared.
///
/// # Errors
///
/// `Refused` if an option names an unknown rule, or a file that has no keys, and `OutOfMemory` if an allocation failed.
pub(crate) fn answer_affected<T: FileTimes>(
    alloc: Global,
    known: &DiscoveredGraph,
    times: &T,
    folder: &[u8],
    options: &AffectedOptions,
    globs: &mut [Glob],
    named: &OptionFiles,
    input: &[u8],
) -> Result<Answer, Failure>
    requires edges { HasEdges known.now }
    requires globs { AreGlobsAsked (affected_model options.now) globs.now }
    ensures { OfStatements known.now.graph (λ entries.
        Gives (AnswersAffected known.now entries (T.times times.now) folder.now
        (affected_model options.now) (named_files named.now).since input.now) result) }
{
    if let Some(name) = unknown_rule(&known.graph, &options.rules) {
        let name = name.as_bytes();
        return Err(Failure::in_words(alloc, b"unknown rule '", name, b"'", Status::Fault));
    }
    let given = given_paths(alloc, options, input)?;
    if given.is_empty() && !options.allow_empty {
        return Ok(without_paths(alloc)?);
    }
    let since = match new_since(alloc, known, times, folder, options, named) {
        Ok(since) => since,
        Err(failure) => return Err(failure),
    };
    let paths = without_ignored(alloc, globs, &given)?;
    let no_files = Names::new(alloc, known.keys);
    let change = change_of(options, folder, &paths, &no_files, &since);
    let listed = listed_by(options);
    Ok(report_of(alloc, known, change, listed)?)
}

/// The answer where no path was given.
fn without_paths(alloc: Global) -> Result<Answer, AllocError>
    ensures output { IfOk result (λ answer. answer.output.items ≡ []) }
    ensures warnings { IfOk result (λ answer. answer.warnings.items ≡ no_path_line) }
    ensures looks { IfOk result (λ answer. answer.looks ≡ false) }
{
    let warnings = Vec::from_slice(alloc, NO_PATH)?;
    Ok(Answer {
        output: Vec::new(alloc),
        warnings,
        looks: false,
    })
}

/// The change of the files at the given paths, by the working directory, where tests name the given
/// files, and what is new in the manifest.
pub(crate) fn change_of<'a>(
    options: &'a AffectedOptions,
    folder: &'a [u8],
    paths: &'a [&'a [u8]],
    test_files: &'a Names,
    since: &'a Since,
) -> Change<'a>
    ensures model { change_model result ≡ change_asked (affected_model options.entry.now)
        folder.entry.now test_files.entry.now (texts paths.entry.now)
        (new_model since.entry.now) }
    ensures commands { result.commands.now ≡ since.entry.now.commands.items }
{
    Change {
        working: folder,
        folders: &options.source_dirs,
        paths,
        ignores_unknown: options.ignore_unknown,
        test_files,
        commands: &since.commands,
        is_settled: since.is_settled,
    }
}

/// Which outputs are listed.
fn listed_by(options: &AffectedOptions) -> Listed<'_>
    ensures { asked_of result ≡ outputs_asked (affected_model options.entry.now) }
{
    Listed {
        rules: &options.rules,
        prefix: &options.prefix,
        no_phony: options.no_phony,
    }
}
