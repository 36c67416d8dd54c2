//! The commands that targets need, in order, and in pages.

use crate::snippets::lines::append_line;
use ninja::{Error, FileList, Mark, Needs, Sink, write_commands};
use std::alloc::{AllocError, Global};

/// Appends the rule of each edge that targets need, each after all that it needs itself.
pub fn append_order(
    alloc: Global,
    text: &mut Vec<u8>,
    targets: &FileList<'_>,
) -> Result<(), AllocError> {
    for edge in targets.needed_commands(alloc)? {
        append_line(text, &[b"then ", edge.rule_name()])?;
    }
    Ok(())
}

/// Writes two of the commands that targets need, from a mark on. Returns the mark of the next page,
/// if any.
pub fn write_page<S: Sink>(
    alloc: Global,
    targets: &FileList<'_>,
    mark: &Mark,
    out: &mut S,
) -> Result<Option<Mark>, Error> {
    let mut needs = Needs::resume(alloc, targets.graph(), targets.numbers(), mark)?;
    let next = write_commands(alloc, targets.graph(), &mut needs, Some(2), out)?;
    Ok(next)
}

/// A mark as a text, which `Mark::read` reads in another process too; `none` without a mark.
pub fn mark_text(alloc: Global, mark: Option<&Mark>) -> Result<String, AllocError> {
    match mark {
        Some(mark) => mark.to_text(alloc),
        None => String::from_str(alloc, "none"),
    }
}
