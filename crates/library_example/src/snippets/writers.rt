//! The output of the tools.

use ninja::{
    FileList, InputsStyle, Sink, TargetsView, ToolFault, write_compdb, write_inputs, write_rules,
    write_targets,
};
use std::alloc::Global;

/// Writes four lists, as `-t targets all`, `-t inputs --dependency-order`, `-t rules` and
/// `-t compdb` do.
pub fn write_lists<S: Sink>(
    alloc: Global,
    targets: &FileList<'_>,
    out: &mut S,
) -> Result<(), ToolFault> {
    let graph = targets.graph();
    let style = InputsStyle {
        dependency_order: true,
        shell_escape: true,
        zero: false,
    };
    write_targets(alloc, graph, &TargetsView::All, out)?;
    write_inputs(alloc, graph, targets.numbers(), style, out)?;
    write_rules(alloc, graph, false, out)?;
    write_compdb(alloc, graph, "/src/hello", &[], false, out)
}
