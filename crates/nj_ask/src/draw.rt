//! Drawings of targets.

ghost use Rattle.std.specs.Prelude.{◌≡◌, ◌⊎◌, ◌<◌, All, IfErr, IfOk, false, length, map, true};
ghost use Rattle.nj_ask.specs.Cited.{Fault, OfStatements, AnswersDraw, FailsBy, Gives, HasDepfileFault, HasEdges, draw_model, files_of, path_at, IsClear};

use crate::answer::Answer;
use crate::depfiles::check_depfiles;
use crate::discovered::DiscoveredGraph;
use crate::drawing::drawing_of;
use crate::failure::Failure;
use crate::keys::targets_asked;
use crate::shape::caveat_lines;
use nj_graph::FileNo;
use nj_questions::DrawOptions;
use std::alloc::Global;

/// The drawing of the edges that the targets need, or with `--affected` of those that a change of
/// them touches.
pub(crate) fn answer_draw(
    alloc: Global,
    known: &DiscoveredGraph,
    options: &DrawOptions,
) -> Result<Answer, Failure>
    requires { HasEdges known.now }
    ensures { OfStatements known.now.graph (λ entries.
        Gives (AnswersDraw known.now entries (draw_model options.now)) result) }
{
    let files = match targets_asked(alloc, known, &options.targets) {
        Ok(files) => files,
        Err(failure) => return Err(failure),
    };
    match check_drawn(alloc, known, files.numbers(), options.affected) {
        Ok(()) => {}
        Err(failure) => return Err(failure),
    }
    let output = drawing_of(alloc, known, &files, options)?;
    let warnings = caveat_lines(alloc, known)?;
    Ok(Answer {
        output,
        warnings,
        looks: false,
    })
}

/// Refuses files that need an edge whose depfile has a fault, if needed edges are drawn.
fn check_drawn(
    alloc: Global,
    known: &DiscoveredGraph,
    files: &[FileNo],
    affected: bool,
) -> Result<(), Failure>
    requires { All (λ file. file.0 < length (files_of known.now.graph)) files.now }
    ensures clear { IfOk result (λ _. (affected ≡ true)
        ⊎ IsClear known.now (map (path_at (files_of known.now.graph)) files.now)) }
    ensures refused { IfErr result (FailsBy Fault (λ line. (affected ≡ false)
        × HasDepfileFault known.now (map (path_at (files_of known.now.graph)) files.now) line)) }
{
    if affected {
        return Ok(());
    }
    check_depfiles(alloc, known, files)
}
