//! The next statement of a text.

ghost use Rattle.std.specs.Prelude.{◌≡◌, map, Some, option_map};
ghost use Rattle.nj_manifest.specs.Cited.{next_statement, with_block, statement_here, statement_model, placed_model, head_model, ParsesFrom, ParsesAt, ParsesNext, IsBetweenStatements};

use crate::block_lines::{Keys, block, whole_pool, whole_rule};
use crate::heads::head_next;
use crate::parse_fault::ParseFault;
use crate::statement::{Build, Placed, Pool, Rule, Statement};
use crate::statement_buffers::Buffers;
use crate::statement_start::find_statement;
use nj_text::{Lexer, Spot};
use std::alloc::Global;

/// A statement with its block, after its first line was read.
#[tactic(auto, unfolding(crate::specs::Inside::Heads::with_block))]
fn with_block<'a>(
    alloc: Global,
    lexer: &mut Lexer<'a>,
    buffers: &mut Buffers<'a>,
    spot: Spot,
    head: Statement<'a>,
) -> Result<Statement<'a>, ParseFault<'a>>
    ensures { ParsesFrom statement_model lexer.old lexer.new
        (with_block spot (head_model head.entry)) result }
{
    match head {
        Statement::Rule(rule) => {
            let lines = block(alloc, lexer, Keys::OfRule, &mut buffers.lines)?;
            whole_rule(spot, &lines)?;
            Ok(Statement::Rule(Rule { lines, ..rule }))
        }
        Statement::Pool(pool) => {
            let lines = block(alloc, lexer, Keys::OfPool, &mut buffers.lines)?;
            whole_pool(spot, &lines)?;
            Ok(Statement::Pool(Pool { lines, ..pool }))
        }
        Statement::Build(build) => {
            let lines = block(alloc, lexer, Keys::All, &mut buffers.lines)?;
            Ok(Statement::Build(Build { lines, ..build }))
        }
        alone => Ok(alone),
    }
}

/// The statement that begins here, with its block.
#[tactic(auto, unfolding(crate::specs::Inside::Heads::statement_here))]
fn statement_at<'a>(
    alloc: Global,
    lexer: &mut Lexer<'a>,
    buffers: &mut Buffers<'a>,
) -> Result<Option<Placed<Statement<'a>>>, ParseFault<'a>>
    ensures { ParsesAt (option_map placed_model) lexer.old lexer.new statement_here result }
{
    let spot = lexer.spot();
    let head = head_next(alloc, lexer, buffers)?;
    let item = with_block(alloc, lexer, buffers, spot, head)?;
    Ok(Some(Placed { spot, item }))
}

/// The next statement, from the start of a line on.
pub fn next_statement<'a>(
    alloc: Global,
    lexer: &mut Lexer<'a>,
    buffers: &mut Buffers<'a>,
) -> Result<Option<Placed<Statement<'a>>>, ParseFault<'a>>
    requires { IsBetweenStatements lexer.old }
    ensures { ParsesNext (option_map placed_model) lexer.old lexer.new next_statement result }
{
    if find_statement(lexer)? {
        return statement_at(alloc, lexer, buffers);
    }
    Ok(None)
}
