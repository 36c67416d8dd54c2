//! What is the same of two runs that end alike.

ghost use Rattle.nj_one_answer.specs.Cited.{AlikeRunsAreSame};

/// Two runs that end alike with one output wrote the same, with the same status, unless a sink
/// failed or memory ran out.
pub fn alike_runs_law()
    ensures { AlikeRunsAreSame }
{}
