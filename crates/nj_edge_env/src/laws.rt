//! Laws of late strings. A law is a theorem, stated as a function with an empty body.

ghost use Rattle.nj_edge_env.specs.Cited.{LateTextIsGiven, OneTextIsGiven, CycleGivesNothing, BlockWins, RuleWins, FileIsLast, ComputedCycleIsFound};

/// The values of an edge's names, independent of an order of evaluation: if the variables of the
/// rule do not refer to each other in a cycle, each name has its late string and no other value; a
/// variable on a cycle has no value ("Rule variables" in the Ninja manual).
pub fn late_strings_are_given()
    ensures meant { LateTextIsGiven }
    ensures one { OneTextIsGiven }
    ensures cycle { CycleGivesNothing }
{}

/// A binding of an edge's block takes precedence over the rule's line, which takes precedence over
/// the file's value ("Evaluation and scoping" in the Ninja manual).
pub fn block_before_rule_before_file()
    ensures block { BlockWins }
    ensures rule { RuleWins }
    ensures file { FileIsLast }
{}

/// The key on a cycle that `variable_cycle` returns is the least key, by bytes, that refers back to
/// itself; the result is `None` only if no key does ("Rule variables" in the Ninja manual).
pub fn computed_cycle_is_found()
    ensures { ComputedCycleIsFound }
{}
