//! Why a file needs another.

ghost use Rattle.std.specs.Prelude.{◌≡◌, [], Ok, IfErr, IfOk, is_none, option_map, unwrap_or};
ghost use Rattle.nj_ask.specs.Cited.{Fault, edges_of, file_of, picked, OfStatements, AnswersWhy, FailsBy, Gives, HasDepfileFault, IsClear, SaysErr, needed_from, why_model};

use crate::answer::Answer;
use crate::chains::chain_of;
use crate::depfiles::check_depfiles;
use crate::discovered::DiscoveredGraph;
use crate::failure::Failure;
use crate::shape::caveat_lines;
use nj_graph::{ChainKinds, File};
use nj_needs::grow_targets;
use nj_questions::WhyOptions;
use std::alloc::Global;

/// A chain by which the first of two files needs the second, or an empty answer.
pub(crate) fn answer_why(
    alloc: Global,
    known: &DiscoveredGraph,
    options: &WhyOptions,
) -> Result<Answer, Failure>
    ensures { OfStatements known.now.graph (λ entries.
        Gives (AnswersWhy known.now entries (why_model options.now)) result) }
{
    let from = match file_asked(alloc, known, options.from.as_bytes()) {
        Ok(from) => from,
        Err(failure) => return Err(failure),
    };
    let to = match file_asked(alloc, known, options.to.as_bytes()) {
        Ok(to) => to,
        Err(failure) => return Err(failure),
    };
    match check_needed(alloc, known, from, options.validations) {
        Ok(()) => {}
        Err(failure) => return Err(failure),
    }
    let kinds = ChainKinds {
        order_only: !options.no_order_only,
        validations: options.validations,
    };
    let chain = chain_of(alloc, from, to, kinds, &known.discoveries)?;
    let warnings = caveat_lines(alloc, known)?;
    Ok(chain_answer(alloc, chain, warnings))
}

/// The file that a word denotes.
fn file_asked<'k>(
    alloc: Global,
    known: &'k DiscoveredGraph,
    word: &[u8],
) -> Result<File<'k>, Failure>
    ensures picked { IfOk result (λ file.
        picked (edges_of known.entry.now.graph) word.now ≡ Ok (file_of file).path) }
    ensures of { IfOk result (λ file. (file_of file).graph ≡ known.entry.now.graph) }
    ensures refused { IfErr result (FailsBy Fault
        (SaysErr (picked (edges_of known.entry.now.graph) word.now))) }
{
    match known.graph.target(alloc, word) {
        Ok(file) => Ok(file),
        Err(fault) => Err(Failure::of_fault(alloc, &fault)),
    }
}

/// Refuses a file whose chains may follow an edge whose depfile has a fault. With `validations`, so
/// may the chains of files that needed edges validate.
fn check_needed(
    alloc: Global,
    known: &DiscoveredGraph,
    file: File<'_>,
    validations: bool,
) -> Result<(), Failure>
    requires { (file_of file).graph ≡ known.now.graph }
    ensures clear { IfOk result (λ _.
        IsClear known.now (needed_from known.now.graph validations (file_of file.entry).path)) }
    ensures refused { IfErr result (FailsBy Fault
        (HasDepfileFault known.now
        (needed_from known.now.graph validations (file_of file.entry).path))) }
{
    if validations {
        let grown = grow_targets(alloc, &known.graph, &[file.number()])?;
        return check_depfiles(alloc, known, &grown);
    }
    check_depfiles(alloc, known, &[file.number()])
}

/// The answer of a chain, or an empty one, with the given warnings.
fn chain_answer(alloc: Global, chain: Option<Vec<u8>>, warnings: Vec<u8>) -> Answer
    ensures output { result.output.items
        ≡ unwrap_or (option_map (λ lines. lines.items) chain) [] }
    ensures looks { result.looks ≡ is_none chain }
    ensures warnings { result.warnings ≡ warnings }
{
    match chain {
        Some(output) => Answer {
            output,
            warnings,
            looks: false,
        },
        None => Answer {
            output: Vec::new(alloc),
            warnings,
            looks: true,
        },
    }
}
