//! Findings, and their kinds, as lines.

ghost use Rattle.std.specs.Prelude.{◌≡◌, ◌++◌, IfOk, OnOk, codes};
ghost use Rattle.nj_ask.specs.Cited.{string, compact_text, utf8_lossy, finding_model, line, finding_line, finding_lines, finding_object, kind_line, kind_lines, line_about, lookup_lines};

use nj_audit::{Finding, Findings, Kind};
use serde_json::Value;
use std::alloc::{AllocError, Global};

/// A line for each finding, plain or in JSON.
pub(crate) fn finding_lines(
    alloc: Global,
    found: &Findings<'_>,
    is_json: bool,
) -> Result<Vec<u8>, AllocError>
    ensures { IfOk result (λ lines. lines.items ≡ finding_lines is_json found.now) }
{
    let mut lines = Vec::new(alloc);
    'findings: for finding in found.as_slice() {
        push_finding(&mut lines, *finding, is_json)?;
    }
    Ok(lines)
}

/// Appends the line of a finding.
fn push_finding(lines: &mut Vec<u8>, finding: Finding<'_>, is_json: bool) -> Result<(), AllocError>
    ensures { OnOk result (lines.new.items
        ≡ lines.old.items ++ finding_line is_json (finding_model finding.entry)) }
{
    if is_json {
        push_object(lines, finding)
    } else {
        push_line_about(lines, finding, finding.kind.phrase())
    }
}

/// A line for each source that cannot be looked up.
pub(crate) fn lookup_lines(alloc: Global, found: &Findings<'_>) -> Result<Vec<u8>, AllocError>
    ensures { IfOk result (λ lines. lines.items ≡ lookup_lines found.now) }
{
    let mut lines = Vec::new(alloc);
    'findings: for finding in found.as_slice() {
        push_line_about(&mut lines, *finding, "cannot look up source")?;
    }
    Ok(lines)
}

/// A line for each kind: its name, whether it is on by default, and its meaning.
pub(crate) fn kind_lines(alloc: Global) -> Result<Vec<u8>, AllocError>
    ensures { IfOk result (λ lines. lines.items ≡ kind_lines) }
{
    let mut lines = Vec::new(alloc);
    'all: for kind in Kind::ALL {
        push_kind(&mut lines, kind)?;
    }
    Ok(lines)
}

/// Appends a line: the place of the statement, what is said of it, and the name in quotes.
fn push_line_about(
    lines: &mut Vec<u8>,
    finding: Finding<'_>,
    phrase: &str,
) -> Result<(), AllocError>
    ensures { OnOk result (lines.new.items
        ≡ lines.old.items ++ line_about phrase.now (finding_model finding.entry)) }
{
    let alloc = *lines.allocator();
    let spot = finding.place.spot;
    lines.extend_from_slice(finding.place.file)?;
    let middle = format!(in alloc; ":{}:{}: {phrase} '", spot.line, spot.column)?;
    lines.extend_from_slice(middle.as_bytes())?;
    lines.extend_from_slice(finding.name)?;
    lines.extend_from_slice(b"'\n")?;
    Ok(())
}

/// Appends a line: an object in JSON with the place, the name of the kind, and the name.
fn push_object(lines: &mut Vec<u8>, finding: Finding<'_>) -> Result<(), AllocError>
    ensures { OnOk result (lines.new.items
        ≡ lines.old.items ++ line (compact_text (finding_object (finding_model finding.entry)))) }
{
    let alloc = *lines.allocator();
    let spot = finding.place.spot;
    lines.extend_from_slice(b"{\"file\":")?;
    push_bytes(lines, finding.place.file)?;
    let middle = format!(in alloc;
        ",\"line\":{},\"column\":{},\"kind\":",
        spot.line, spot.column
    )?;
    lines.extend_from_slice(middle.as_bytes())?;
    push_text(lines, finding.kind.name())?;
    lines.extend_from_slice(b",\"name\":")?;
    push_bytes(lines, finding.name)?;
    lines.extend_from_slice(b"}\n")?;
    Ok(())
}

/// Appends a text as a string in JSON, with U+FFFD for invalid UTF-8.
pub(crate) fn push_bytes(lines: &mut Vec<u8>, text: &[u8]) -> Result<(), AllocError>
    ensures { OnOk result (lines.new.items
        ≡ lines.old.items ++ compact_text (string (utf8_lossy text.now))) }
{
    let text = String::from_utf8_lossy(*lines.allocator(), text)?;
    push_text(lines, &text)
}

/// Appends a text as a string in JSON.
pub(crate) fn push_text(lines: &mut Vec<u8>, text: &str) -> Result<(), AllocError>
    ensures { OnOk result (lines.new.items ≡ lines.old.items ++ compact_text (string text.now)) }
{
    let alloc = *lines.allocator();
    let string = Value::try_from_str(alloc, text)?.to_vec(alloc)?;
    lines.extend_from_slice(&string)
}

/// Appends the line of a kind.
fn push_kind(lines: &mut Vec<u8>, kind: Kind) -> Result<(), AllocError>
    ensures { OnOk result (lines.new.items ≡ lines.old.items ++ kind_line kind) }
{
    let default = if kind.is_on_by_default() { "on" } else { "off" };
    let line = format!(in *lines.allocator();
        "{}, {default} by default: {}\n",
        kind.name(),
        kind.meaning(),
    )?;
    lines.extend_from_slice(line.as_bytes())
}
