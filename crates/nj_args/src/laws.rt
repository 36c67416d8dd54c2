//! Laws of how a command line is read.

ghost use Rattle.nj_args.specs.Cited.{FirstFaultIsReported, FaultlessWordsAreRequests, RunMarksAreApart};

/// The marks of runs that follow validations differ from all other marks: a text is never a mark of
/// both kinds of runs.
pub fn run_marks_law()
    ensures { RunMarksAreApart }
{}

/// For arguments that are not a request, the fault of their first mistake is reported. If `clap`
/// refuses the arguments, nothing else is known of them. Otherwise the mistakes are, in this order:
/// the tool is missing or unknown; an option does not go with the tool (the first in the order of
/// `ToolOption`); the value of `--take` is not a number, or the value of `--resume` is not a mark;
/// the tool does not accept the arguments besides the options; the number of levels is not a
/// number. Each mistake is stated separately, whatever else is wrong. Arguments without a mistake
/// are a request, and so is an empty list of arguments.
pub fn first_fault_law()
    ensures reported { FirstFaultIsReported }
    ensures faultless { FaultlessWordsAreRequests }
{}
