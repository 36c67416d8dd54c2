//! The lines of a block.

ghost use Rattle.std.specs.Prelude.{◌≡◌, map, OnOk, ◌++◌, ◌∷◌, []};
ghost use Rattle.nj_manifest.specs.Cited.{word_model, TakesStep, allows, equals_value, line_next, block, gives, names, whole_rule, whole_pool, line_model, lines_model, ParsesFrom, Wholes};

use crate::cause::Wanted;
use crate::parse_fault::ParseFault;
use crate::statement::Line;
use crate::statement_buffers::empty_list;
use crate::steps::{expect_sign, name_next};
use nj_text::{Lexer, LineStart, Sign, Spot, Word};
use std::alloc::{AllocError, Global};

// The capacity for lines that a block gets with its first. Few blocks have more.
const LINES_AT_FIRST: usize = 8;

/// Which keys the lines of a block may have.
#[derive(Clone, Copy, Debug, PartialEq, Eq)]
pub enum Keys {
    /// The eleven keys of a rule.
    OfRule,
    /// `depth`
    OfPool,
    /// Every identifier.
    All,
}

/// Whether a line may have the given key.
fn allows(allowed: Keys, key: &[u8]) -> bool
    ensures { result ≡ allows allowed key.now }
{
    match allowed {
        Keys::OfRule => is_rule_key(key),
        Keys::OfPool => key == b"depth".as_slice(),
        Keys::All => true,
    }
}

/// Whether it is one of the eleven keys of a rule.
fn is_rule_key(key: &[u8]) -> bool
    ensures { result ≡ allows Keys.OfRule key.now }
{
    key == b"command".as_slice()
        || key == b"depfile".as_slice()
        || key == b"deps".as_slice()
        || key == b"msvc_deps_prefix".as_slice()
        || key == b"description".as_slice()
        || key == b"dyndep".as_slice()
        || key == b"generator".as_slice()
        || key == b"pool".as_slice()
        || key == b"restat".as_slice()
        || key == b"rspfile".as_slice()
        || key == b"rspfile_content".as_slice()
}

/// `= VALUE`, to the end of the line.
#[tactic(auto, unfolding(crate::specs::Statements::equals_value))]
pub fn equals_value<'a>(alloc: Global, lexer: &mut Lexer<'a>) -> Result<Word<'a>, ParseFault<'a>>
    ensures { TakesStep word_model result lexer.new (equals_value lexer.old) }
{
    expect_sign(lexer, Sign::Equals, Wanted::Equals)?;
    let value = lexer.value(alloc)?;
    expect_sign(lexer, Sign::LineEnd, Wanted::Newline)?;
    Ok(value)
}

/// A line of a block, after its leading spaces.
#[tactic(auto, unfolding(crate::specs::Statements::line_next))]
fn line_next<'a>(
    alloc: Global,
    lexer: &mut Lexer<'a>,
    allowed: Keys,
) -> Result<Line<'a>, ParseFault<'a>>
    ensures { TakesStep line_model result lexer.new (line_next allowed lexer.old) }
{
    if let Some(binding) = lexer.plain_binding(alloc) {
        if !allows(allowed, binding.name) {
            return Err(ParseFault::UnknownKey(binding.spot, binding.name));
        }
        return Ok(Line {
            spot: binding.spot,
            name: binding.name,
            value: binding.value,
        });
    }
    let key = name_next(lexer, Wanted::VariableName)?;
    if !allows(allowed, key.name) {
        return Err(ParseFault::UnknownKey(key.spot, key.name));
    }
    let value = equals_value(alloc, lexer)?;
    Ok(Line {
        spot: key.spot,
        name: key.name,
        value,
    })
}

/// Appends a line, with capacity for several.
fn push_line<'a>(lines: &mut Vec<Line<'a>>, line: Line<'a>) -> Result<(), AllocError>
    ensures { OnOk result (lines.new.items ≡ lines.old.items ++ line.entry ∷ []) }
{
    if lines.as_slice().is_empty() {
        lines.reserve(LINES_AT_FIRST)?;
    }
    lines.push(line)?;
    Ok(())
}

/// The lines of a block, from the start of a line on.
pub fn block<'a>(
    alloc: Global,
    lexer: &mut Lexer<'a>,
    allowed: Keys,
    kept: &mut Option<Vec<Line<'a>>>,
) -> Result<Vec<Line<'a>>, ParseFault<'a>>
    ensures { ParsesFrom (λ lines. lines_model lines.items) lexer.old lexer.new
        (block allowed) result }
{
    let mut lines = empty_list(alloc, kept);
    'lines: while let LineStart::Indented = lexer.start_line()? {
        push_line(&mut lines, line_next(alloc, lexer, allowed)?)?;
    }
    Ok(lines)
}

/// Whether the last line of the given key has a value with at least a part.
fn gives(lines: &[Line], key: &[u8]) -> bool
    ensures { result ≡ gives key.now (lines_model lines.now) }
{
    let mut given = false;
    'lines: for line in lines {
        if line.name == key {
            given = !line.value.parts.as_slice().is_empty();
        }
    }
    given
}

/// Whether a line has the given key.
fn names(lines: &[Line], key: &[u8]) -> bool
    ensures { result ≡ names key.now (lines_model lines.now) }
{
    lines.iter().any(|line| line.name == key)
}

/// The lines of a rule: it needs its command, and of a response file's two keys both or neither.
#[tactic(auto, unfolding(crate::specs::Inside::Heads::whole_rule))]
pub fn whole_rule<'a>(spot: Spot, lines: &[Line<'a>]) -> Result<(), ParseFault<'a>>
    ensures { Wholes (lines_model lines.now) (whole_rule spot (lines_model lines.now)) result }
{
    if gives(lines, b"rspfile") != gives(lines, b"rspfile_content") {
        return Err(ParseFault::RspPair(spot));
    }
    if !gives(lines, b"command") {
        return Err(ParseFault::MissingCommand(spot));
    }
    Ok(())
}

/// The lines of a pool: it needs its depth.
#[tactic(auto, unfolding(crate::specs::Inside::Heads::whole_pool))]
pub fn whole_pool<'a>(spot: Spot, lines: &[Line<'a>]) -> Result<(), ParseFault<'a>>
    ensures { Wholes (lines_model lines.now) (whole_pool spot (lines_model lines.now)) result }
{
    if !names(lines, b"depth") {
        return Err(ParseFault::MissingDepth(spot));
    }
    Ok(())
}
