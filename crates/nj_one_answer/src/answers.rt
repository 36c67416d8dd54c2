//! What the definitions of `nj_ask` leave open about the answer to a question.

ghost use Rattle.nj_one_answer.specs.Cited.{MisusedIsNotTaken, OneAffectedAnswer, OneAffectedDrawing, OneAnswer, OneAuditAnswer, OneDrawAnswer, OneJsonAnswer, OneKeysAnswer, OneMisuse, OneStaleAnswer, OneTestsAnswer, OneTimesAnswer, OneWhyAnswer, SameKnownHaveSameAnswers};

/// A graph, its statements, the options, the keys of an older manifest and the changed paths have one
/// report.
pub fn affected_answer_law()
    ensures { OneAffectedAnswer }
{
    nj_ask::report_law();
    nj_globs::one_reading();
    nj_keys::lines_law();
}

/// Options are refused with one line, or accepted.
pub fn misuse_law()
    ensures line { OneMisuse }
    ensures apart { MisusedIsNotTaken }
{
    nj_globs::good_patterns_are_read();
    nj_globs::one_fault();
}

/// A graph, its statements and the options have one list of findings, by times that are declared.
pub fn audit_answer_law()
    ensures { OneAuditAnswer }
{}

/// A graph, its statements and the options have one drawing, but for the order of edges that are
/// equally far from the targets; with `--affected` the order is fixed too.
pub fn draw_answer_law()
    ensures one { OneDrawAnswer }
    ensures affected { OneAffectedDrawing }
{}

/// A graph and its statements have one text of objects.
pub fn json_answer_law()
    ensures { OneJsonAnswer }
{}

/// A graph, its statements, the options and a mark have one page of keys.
pub fn keys_answer_law()
    ensures { OneKeysAnswer }
{
    nj_keys::lines_law();
}

/// A graph, its statements, a build log and the options have one list of stale edges, by times that
/// are declared.
pub fn stale_answer_law()
    ensures { OneStaleAnswer }
{
    nj_stale::some_state_fits();
}

/// A graph, its statements, the options, the list of tests and the changed paths have one choice of
/// tests.
pub fn tests_answer_law()
    ensures { OneTestsAnswer }
{
    nj_ask::report_law();
    nj_globs::one_reading();
    nj_keys::lines_law();
}

/// A graph, its statements, a build log and the options have one report of where the time went, and
/// one list of dead outputs, by times that are declared.
pub fn times_answer_law()
    ensures { OneTimesAnswer }
{
    nj_times::one_path_is_critical();
    nj_times::one_list_is_slowest();
}

/// A graph, its statements and the options have one chain, or none.
pub fn why_answer_law()
    ensures { OneWhyAnswer }
{}

/// The answers to a question depend on the values of a graph alone.
pub fn known_answer_law()
    ensures { SameKnownHaveSameAnswers }
{}

/// The same for any question.
pub fn answer_law()
    ensures { OneAnswer }
{
    affected_answer_law();
    audit_answer_law();
    draw_answer_law();
    json_answer_law();
    keys_answer_law();
    stale_answer_law();
    tests_answer_law();
    times_answer_law();
    why_answer_law();
}
