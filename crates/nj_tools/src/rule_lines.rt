//! The rules of the main file.

ghost use Rattle.nj_tools.specs.Cited.{OfStatements, rules_text, WritesText};

use crate::output::Output;
use crate::sinks::Sink;
use crate::text_lines::append_line;
use crate::tool_fault::ToolFault;
use nj_graph::Graph;
use std::alloc::Global;

/// Writes the names of the rules of the main file's scope, `phony` among them, in byte order; with
/// `descriptions` also the values of their `description` lines, not expanded ("Extra tools" in the
/// Ninja manual, `rules`).
///
/// # Errors
///
/// `Write` if the sink failed, and `OutOfMemory` if an allocation failed. The sink has then
/// accepted a prefix of the text.
pub fn write_rules<S: Sink>(
    alloc: Global,
    graph: &Graph,
    descriptions: bool,
    out: &mut S,
) -> Result<(), ToolFault>
    ensures { OfStatements graph.now (λ entries.
        WritesText (S.state out.old) (S.state out.new) (rules_text entries descriptions) result) }
{
    let mut text = Vec::new(alloc);
    let mut output = Output::new(out, &mut text);
    'rules: for index in 0..graph.main_rule_count() {
        output.pending.extend_from_slice(graph.main_rule(index))?;
        if descriptions && graph.has_description(index) {
            let description = graph.description_text(alloc, index)?;
            append_line(output.pending, b": ", &description)?;
        } else {
            append_line(output.pending, b"", b"")?;
        }
        output.write_block()?;
    }
    output.flush()
}
