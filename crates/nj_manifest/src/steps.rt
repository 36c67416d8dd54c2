//! Reading on along a line.

ghost use Rattle.std.specs.Prelude.{◌≡◌, map};
ghost use Rattle.nj_manifest.specs.Cited.{word_model, TakesStep, LeadsTo, name_model, name_next, expect_sign, words_next, section_next};

use crate::cause::Wanted;
use crate::parse_fault::ParseFault;
use crate::statement_buffers::empty_list;
use nj_text::{Lexer, PlainWord, Sign, Spot, Word};
use std::alloc::Global;

/// A name and the place of its first byte.
#[derive(Clone, Copy, Debug)]
pub struct PlacedName<'a> {
    pub spot: Spot,
    pub name: &'a [u8],
}

/// An identifier.
#[tactic(auto, unfolding(crate::specs::LineSteps::name_next))]
pub fn name_next<'a>(
    lexer: &mut Lexer<'a>,
    wanted: Wanted,
) -> Result<PlacedName<'a>, ParseFault<'a>>
    ensures { TakesStep name_model result lexer.new (name_next wanted lexer.old) }
{
    lexer.skip_blanks();
    let spot = lexer.spot();
    match lexer.ident()? {
        Some(name) => Ok(PlacedName { spot, name }),
        None => Err(ParseFault::Expected(spot, wanted)),
    }
}

/// Takes a required sign.
#[tactic(auto, unfolding(crate::specs::LineSteps::expect_sign))]
#[inline(always)]
pub fn expect_sign<'a>(
    lexer: &mut Lexer<'a>,
    want: Sign,
    wanted: Wanted,
) -> Result<(), ParseFault<'a>>
    ensures { LeadsTo result lexer.new (expect_sign want wanted lexer.old) }
{
    if lexer.sign(want)? {
        return Ok(());
    }
    Err(ParseFault::Expected(lexer.spot(), wanted))
}

/// The words from here on, up to the first element that is not a word.
pub fn words_next<'a>(
    alloc: Global,
    lexer: &mut Lexer<'a>,
    kept: &mut Option<Vec<Word<'a>>>,
) -> Result<Vec<Word<'a>>, ParseFault<'a>>
    ensures { TakesStep (λ words. map word_model words.items) result lexer.new
        (words_next lexer.old) }
{
    let mut words = empty_list(alloc, kept);
    'words: loop {
        match lexer.plain_word() {
            PlainWord::Word(spot, bytes) => words.push(Word::plain(alloc, spot, bytes))?,
            PlainWord::NoWord => return Ok(words),
            PlainWord::Unknown => match lexer.path_word(alloc)? {
                Some(word) => words.push(word)?,
                None => return Ok(words),
            },
        }
    }
}

/// The words of a section that begins with the given sign; none if the sign is absent.
#[tactic(auto, unfolding(crate::specs::LineSteps::section_next))]
#[inline(always)]
pub fn section_next<'a>(
    alloc: Global,
    lexer: &mut Lexer<'a>,
    want: Sign,
    kept: &mut Option<Vec<Word<'a>>>,
) -> Result<Vec<Word<'a>>, ParseFault<'a>>
    ensures { TakesStep (λ words. map word_model words.items) result lexer.new
        (section_next want lexer.old) }
{
    if lexer.sign(want)? {
        return words_next(alloc, lexer, kept);
    }
    Ok(empty_list(alloc, kept))
}
