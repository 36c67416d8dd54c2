//! The law of a run of `commands`.

ghost use Rattle.nj_cli.specs.Cited.{WritesTheNeeded, PageStringsJoin, StoppedRunsContinue, OneEnding};

/// A run of `commands` from the start that ends has written the commands of exactly the edges that
/// are not phony and that the targets need through any chain of inputs, without duplicates, each
/// after the commands of all edges that its edge needs, in the order of first completion from left
/// to right. Stopped after any number of commands, and resumed at the text that it wrote after
/// `mark `, it writes exactly the rest: the outputs of the runs, one after another, are the output
/// of a run that was not stopped.
pub fn commands_law()
    ensures needed { WritesTheNeeded }
    ensures pages { PageStringsJoin }
    ensures continues { StoppedRunsContinue }
    ensures ending { OneEnding }
{}
