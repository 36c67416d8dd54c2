//! The first lines of statements.

ghost use Rattle.std.specs.Prelude.{◌≡◌, map};
ghost use Rattle.nj_manifest.specs.Cited.{word_model, words_model, outputs_next, targets_next, file_next, RuleHead, PoolHead, name_alone, as_head, build_head, head_after, head_next, TakesStep, name_model, outs_model, head_model};

use crate::block_lines::equals_value;
use crate::cause::Wanted;
use crate::parse_fault::ParseFault;
use crate::statement::{Build, Pool, Rule, Statement};
use crate::statement_buffers::Buffers;
use crate::steps::{PlacedName, expect_sign, name_next, section_next, words_next};
use nj_text::{Lexer, Sign, Word};
use std::alloc::Global;

/// After `rule` or `pool`: a name and the end of the line.
#[tactic(auto, unfolding(crate::specs::Inside::Heads::name_alone))]
fn name_alone<'a>(lexer: &mut Lexer<'a>, wanted: Wanted) -> Result<PlacedName<'a>, ParseFault<'a>>
    ensures { TakesStep name_model result lexer.new (name_alone wanted lexer.old) }
{
    let name = name_next(lexer, wanted)?;
    expect_sign(lexer, Sign::LineEnd, Wanted::Newline)?;
    Ok(name)
}

/// After `rule`: its name.
fn rule_next<'a>(alloc: Global, lexer: &mut Lexer<'a>) -> Result<Statement<'a>, ParseFault<'a>>
    ensures { TakesStep head_model result lexer.new
        (as_head RuleHead (name_alone Wanted.RuleName lexer.old)) }
{
    let PlacedName { spot, name } = name_alone(lexer, Wanted::RuleName)?;
    Ok(Statement::Rule(Rule {
        name,
        name_spot: spot,
        lines: Vec::new(alloc),
    }))
}

/// After `pool`: its name.
fn pool_next<'a>(alloc: Global, lexer: &mut Lexer<'a>) -> Result<Statement<'a>, ParseFault<'a>>
    ensures { TakesStep head_model result lexer.new
        (as_head PoolHead (name_alone Wanted.PoolName lexer.old)) }
{
    let PlacedName { spot, name } = name_alone(lexer, Wanted::PoolName)?;
    Ok(Statement::Pool(Pool {
        name,
        name_spot: spot,
        lines: Vec::new(alloc),
    }))
}

/// After `build`: `OUTPUTS | IMPLICIT-OUTPUTS`.
#[tactic(auto, unfolding(crate::specs::Statements::outputs_next))]
fn outputs_next<'a>(
    alloc: Global,
    lexer: &mut Lexer<'a>,
    buffers: &mut Buffers<'a>,
) -> Result<(Vec<Word<'a>>, Vec<Word<'a>>), ParseFault<'a>>
    ensures { TakesStep (λ outs. outs_model outs.0.items outs.1.items) result lexer.new
        (outputs_next lexer.old) }
{
    let explicit = words_next(alloc, lexer, &mut buffers.explicit_outs)?;
    let implicit = section_next(alloc, lexer, Sign::Pipe, &mut buffers.implicit_outs)?;
    if explicit.is_empty() && implicit.is_empty() {
        return Err(ParseFault::Expected(lexer.spot(), Wanted::Path));
    }
    Ok((explicit, implicit))
}

/// `OUTPUTS : RULE INPUTS | IMPLICIT || ORDER-ONLY |@ VALIDATIONS`.
#[tactic(auto, unfolding(crate::specs::Inside::Heads::build_head, crate::specs::Statements::inputs_next))]
fn build_next<'a>(
    alloc: Global,
    lexer: &mut Lexer<'a>,
    buffers: &mut Buffers<'a>,
) -> Result<Statement<'a>, ParseFault<'a>>
    ensures { TakesStep head_model result lexer.new (build_head lexer.old) }
{
    let (explicit_outs, implicit_outs) = outputs_next(alloc, lexer, buffers)?;
    expect_sign(lexer, Sign::Colon, Wanted::Colon)?;
    let rule = name_next(lexer, Wanted::CommandName)?;
    let explicit = words_next(alloc, lexer, &mut buffers.explicit)?;
    let implicit = section_next(alloc, lexer, Sign::Pipe, &mut buffers.implicit)?;
    let order_only = section_next(alloc, lexer, Sign::Pipe2, &mut buffers.order_only)?;
    let validations = section_next(alloc, lexer, Sign::PipeAt, &mut buffers.validations)?;
    expect_sign(lexer, Sign::LineEnd, Wanted::Newline)?;
    Ok(Statement::Build(Build {
        explicit_outs,
        implicit_outs,
        rule: rule.name,
        rule_spot: rule.spot,
        explicit,
        implicit,
        order_only,
        validations,
        lines: Vec::new(alloc),
    }))
}

/// After `default`: the targets.
#[tactic(auto, unfolding(crate::specs::Statements::targets_next))]
fn targets_next<'a>(alloc: Global, lexer: &mut Lexer<'a>) -> Result<Vec<Word<'a>>, ParseFault<'a>>
    ensures { TakesStep (λ words. words_model words.items) result lexer.new
        (targets_next lexer.old) }
{
    let words = words_next(alloc, lexer, &mut None)?;
    if words.is_empty() {
        return Err(ParseFault::Expected(lexer.spot(), Wanted::TargetName));
    }
    expect_sign(lexer, Sign::LineEnd, Wanted::Newline)?;
    Ok(words)
}

/// After `include` or `subninja`: the file.
#[tactic(auto, unfolding(crate::specs::Statements::file_next))]
fn file_next<'a>(alloc: Global, lexer: &mut Lexer<'a>) -> Result<Word<'a>, ParseFault<'a>>
    ensures { TakesStep word_model result lexer.new (file_next lexer.old) }
{
    match lexer.path_word(alloc)? {
        None => Err(ParseFault::Expected(lexer.spot(), Wanted::Path)),
        Some(word) => {
            expect_sign(lexer, Sign::LineEnd, Wanted::Newline)?;
            Ok(word)
        }
    }
}

/// The rest of a statement's first line, after the identifier with which it begins.
#[tactic(auto, unfolding(crate::specs::Inside::Heads::head_after))]
fn head_after<'a>(
    alloc: Global,
    lexer: &mut Lexer<'a>,
    buffers: &mut Buffers<'a>,
    word: &'a [u8],
) -> Result<Statement<'a>, ParseFault<'a>>
    ensures { TakesStep head_model result lexer.new (head_after word.now lexer.old) }
{
    if word == b"build".as_slice() {
        build_next(alloc, lexer, buffers)
    } else if word == b"rule".as_slice() {
        rule_next(alloc, lexer)
    } else if word == b"pool".as_slice() {
        pool_next(alloc, lexer)
    } else if word == b"default".as_slice() {
        let words = targets_next(alloc, lexer)?;
        Ok(Statement::Default { words })
    } else if word == b"include".as_slice() {
        let word = file_next(alloc, lexer)?;
        Ok(Statement::Include { word })
    } else if word == b"subninja".as_slice() {
        let word = file_next(alloc, lexer)?;
        Ok(Statement::Subninja { word })
    } else {
        let value = equals_value(alloc, lexer)?;
        Ok(Statement::Binding { name: word, value })
    }
}

/// The first line of a statement: the statement without its block.
#[tactic(auto, unfolding(crate::specs::Inside::Heads::head_next))]
pub fn head_next<'a>(
    alloc: Global,
    lexer: &mut Lexer<'a>,
    buffers: &mut Buffers<'a>,
) -> Result<Statement<'a>, ParseFault<'a>>
    ensures { TakesStep head_model result lexer.new (head_next lexer.old) }
{
    let word = name_next(lexer, Wanted::Statement)?;
    head_after(alloc, lexer, buffers, word.name)
}
