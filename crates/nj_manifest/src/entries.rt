//! The lines of a dyndep file.

ghost use Rattle.std.specs.Prelude.{◌≡◌, IfOk, map};
ghost use Rattle.nj_manifest.specs.Cited.{word_model, part_model, words_model, expanded, no_values, TakesStep, LeadsTo, version_line, word_of_form, no_path, no_section, output_next, added_inputs, entry_line, has_text, restat_block, entry_model};

use crate::block_lines::equals_value;
use crate::cause::Wanted;
use crate::parse_fault::ParseFault;
use crate::steps::{expect_sign, name_next, section_next};
use nj_text::{Lexer, LineStart, Part, Sign, Word, version_of};
use std::alloc::{AllocError, Global};

/// A statement of a dyndep file: `build OUT | OUTS: dyndep | INS`.
#[derive(Debug, Drop)]
pub struct Entry<'a> {
    /// An output of the build statement to which the entry adds.
    pub out: Word<'a>,
    /// The additional outputs of that statement.
    pub outs: Vec<Word<'a>>,
    /// The additional inputs of that statement.
    pub ins: Vec<Word<'a>>,
    /// Whether its block gives `restat` a value that is not empty.
    pub restat: bool,
}

/// The bytes of a value in which each reference is empty.
fn value_bytes(alloc: Global, parts: &[Part]) -> Result<Vec<u8>, AllocError>
    ensures { IfOk result (λ bytes. bytes.items ≡ expanded no_values (map part_model parts.now)) }
{
    let mut bytes = Vec::new(alloc);
    'parts: for part in parts {
        match part {
            Part::Bytes(run) => bytes.extend_from_slice(run)?,
            Part::Name(_) => {}
        }
    }
    Ok(bytes)
}

/// Whether a value is not empty, with each reference in it empty.
fn has_text(alloc: Global, value: &Word) -> Result<bool, AllocError>
    ensures { IfOk result (λ has. has ≡ has_text (word_model value.now)) }
{
    let bytes = value_bytes(alloc, value.parts.as_slice())?;
    Ok(!bytes.as_slice().is_empty())
}

/// `ninja_dyndep_version = 1`
#[tactic(auto, unfolding(crate::specs::Dyndeps::version_line))]
pub fn version_line<'a>(alloc: Global, lexer: &mut Lexer<'a>) -> Result<(), ParseFault<'a>>
    ensures { LeadsTo result lexer.new (version_line lexer.old) }
{
    let name = name_next(lexer, Wanted::Statement)?;
    if name.name != b"ninja_dyndep_version".as_slice() {
        return Err(ParseFault::DyndepVersion(name.spot));
    }
    let value = equals_value(alloc, lexer)?;
    let bytes = value_bytes(alloc, value.parts.as_slice())?;
    let (major, minor) = version_of(&bytes);
    if major == 1 && minor == 0 {
        return Ok(());
    }
    Err(ParseFault::DyndepVersion(name.spot))
}

/// Takes this identifier.
#[tactic(auto, unfolding(crate::specs::Dyndeps::word_of_form))]
fn word_of_form<'a>(
    lexer: &mut Lexer<'a>,
    word: &[u8],
    wanted: Wanted,
) -> Result<(), ParseFault<'a>>
    ensures { LeadsTo result lexer.new (word_of_form word.now wanted lexer.old) }
{
    let name = name_next(lexer, wanted)?;
    if name.name != word {
        return Err(ParseFault::DyndepShape(name.spot));
    }
    Ok(())
}

/// Refuses a path here, at its first unit.
#[tactic(auto, unfolding(crate::specs::Dyndeps::no_path))]
fn no_path<'a>(alloc: Global, lexer: &mut Lexer<'a>) -> Result<(), ParseFault<'a>>
    ensures { LeadsTo result lexer.new (no_path lexer.old) }
{
    lexer.skip_blanks();
    let spot = lexer.spot();
    match lexer.path_word(alloc) {
        Ok(None) => Ok(()),
        Ok(Some(_)) => Err(ParseFault::DyndepShape(spot)),
        Err(fault) => match fault.spot() {
            Some(unit) if unit != spot => Err(ParseFault::DyndepShape(spot)),
            _ => Err(ParseFault::Lex(fault)),
        },
    }
}

/// Refuses a section that begins here with this sign.
#[tactic(auto, unfolding(crate::specs::Dyndeps::no_section))]
fn no_section<'a>(lexer: &mut Lexer<'a>, want: Sign) -> Result<(), ParseFault<'a>>
    ensures { LeadsTo result lexer.new (no_section want lexer.old) }
{
    lexer.skip_blanks();
    let spot = lexer.spot();
    if lexer.sign(want)? {
        return Err(ParseFault::DyndepShape(spot));
    }
    Ok(())
}

/// After `build`: the one explicit output.
#[tactic(auto, unfolding(crate::specs::Dyndeps::output_next))]
fn output_next<'a>(alloc: Global, lexer: &mut Lexer<'a>) -> Result<Word<'a>, ParseFault<'a>>
    ensures { TakesStep word_model result lexer.new (output_next lexer.old) }
{
    match lexer.path_word(alloc)? {
        Some(out) => {
            no_path(alloc, lexer)?;
            Ok(out)
        }
        None => {
            let spot = lexer.spot();
            if lexer.sign(Sign::Pipe)? {
                return Err(ParseFault::DyndepShape(spot));
            }
            Err(ParseFault::Expected(spot, Wanted::Path))
        }
    }
}

/// After the rule's name: the implicit inputs, up to the end of the line.
#[tactic(auto, unfolding(crate::specs::Dyndeps::added_inputs))]
fn added_inputs<'a>(alloc: Global, lexer: &mut Lexer<'a>) -> Result<Vec<Word<'a>>, ParseFault<'a>>
    ensures { TakesStep (λ words. words_model words.items) result lexer.new
        (added_inputs lexer.old) }
{
    no_path(alloc, lexer)?;
    let ins = section_next(alloc, lexer, Sign::Pipe, &mut None)?;
    no_section(lexer, Sign::Pipe2)?;
    no_section(lexer, Sign::PipeAt)?;
    expect_sign(lexer, Sign::LineEnd, Wanted::Newline)?;
    Ok(ins)
}

/// `build OUT | OUTS: dyndep | INS`, before the block.
#[tactic(auto, unfolding(crate::specs::Dyndeps::entry_line))]
pub fn entry_line<'a>(alloc: Global, lexer: &mut Lexer<'a>) -> Result<Entry<'a>, ParseFault<'a>>
    ensures { TakesStep entry_model result lexer.new (entry_line lexer.old) }
{
    word_of_form(lexer, b"build", Wanted::Statement)?;
    let out = output_next(alloc, lexer)?;
    let outs = section_next(alloc, lexer, Sign::Pipe, &mut None)?;
    expect_sign(lexer, Sign::Colon, Wanted::Colon)?;
    word_of_form(lexer, b"dyndep", Wanted::CommandName)?;
    let ins = added_inputs(alloc, lexer)?;
    Ok(Entry {
        out,
        outs,
        ins,
        restat: false,
    })
}

/// The block, at most `restat = VALUE`: whether it has a value that is not empty.
#[tactic(auto, unfolding(crate::specs::Dyndeps::restat_block))]
pub fn restat_block<'a>(alloc: Global, lexer: &mut Lexer<'a>) -> Result<bool, ParseFault<'a>>
    ensures { TakesStep (λ restat. restat) result lexer.new (restat_block lexer.old) }
{
    match lexer.start_line()? {
        LineStart::Indented => {}
        _ => return Ok(false),
    }
    word_of_form(lexer, b"restat", Wanted::VariableName)?;
    let value = equals_value(alloc, lexer)?;
    let restat = has_text(alloc, &value)?;
    match lexer.start_line()? {
        LineStart::Indented => {
            let key = name_next(lexer, Wanted::VariableName)?;
            Err(ParseFault::DyndepShape(key.spot))
        }
        _ => Ok(restat),
    }
}
