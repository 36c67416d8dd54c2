//! The lexer.

ghost use Rattle.std.specs.Prelude.{◌≡◌, List, ℕ, Some, MatchOption};
ghost use Rattle.nj_text.specs.Cited.{option_map, word_model, Answers, ReturnsOrLacksMemory, at_front, start_line_of, ident_of, sign_of, path_word_of, value_of, spot_of, skip_blanks_of, TakesPlainWord, TakesBinding, Failed, unit_of, FinishesValue};

use crate::blanks::skip_blanks;
use crate::cursor::Cursor;
use crate::fault::{LexFault, UnitFault, WordFault};
use crate::line_start::{Begun, LineStart, begin_line};
use crate::line_words::{identifier, value, word};
use crate::plain_bindings::{PlainBinding, plain_binding};
use crate::plain_words::{PlainWord, plain_word};
use crate::sign::{Sign, SignTaken, take_sign};
use crate::spot::Spot;
use crate::state::State;
use crate::word::Word;
use smallvec::SmallVec;
use std::alloc::Global;
use std::marker::Model;

/// Reads a text line by line ("Lexical syntax" in the Ninja manual).
///
/// Each line is begun by [`Lexer::start_line`], and ended by [`Lexer::sign`] with [`Sign::LineEnd`]
/// or by [`Lexer::plain_binding`]. A bad unit is reported by the call that meets it, and by every
/// call but [`Lexer::spot`] from then on. Only [`Lexer::path_word`] and [`Lexer::value`] allocate,
/// inside a line: out of memory leaves the lexer unchanged.
#[derive(Drop)]
pub struct Lexer<'a> {
    cursor: Cursor<'a>,
    state: State<'a>,
}

impl<'a> Model for Lexer<'a> {
    ghost use Rattle.nj_text.specs.Calls.{State};

    ghost Value = { State };

    ghost use Rattle.nj_text.specs.Inside.States.{state_at};

    ghost view = { λ s. state_at s.state s.cursor.spot s.cursor.rest.now };
}

impl<'a> Lexer<'a> {
    /// A lexer before the first line of a text.
    pub fn new(text: &'a [u8]) -> Lexer<'a>
        ensures { result ≡ at_front text.now }
    {
        Lexer {
            cursor: Cursor::at_front(text),
            state: State::Between,
        }
    }

    /// Begins the next line that is not a comment. Skips a blank line, and the leading spaces of an
    /// indented one. Returns [`LineStart::End`] at the end of the text, and [`LineStart::Middle`]
    /// inside a line.
    ///
    /// # Errors
    /// [`LexFault::Tab`] if a tab is the first byte after the line's leading spaces.
    pub fn start_line(&mut self) -> Result<LineStart, LexFault>
        ensures { Answers (λ start. start) result self.new (start_line_of self.old) }
    {
        match self.state {
            State::Failed(fault) => Err(fault.reported()),
            State::OpeningJoin(_, _) => Ok(LineStart::Middle),
            State::Inside => Ok(LineStart::Middle),
            State::Between => match begin_line(self.cursor) {
                Begun::Start(start, state, cursor) => {
                    self.cursor = cursor;
                    self.state = state;
                    Ok(start)
                }
                Begun::Fault(fault) => Err(self.fail(fault)),
            },
        }
    }

    /// Makes every later call report this fault.
    fn fail(&mut self, fault: UnitFault) -> LexFault
        ensures fault { unit_of result ≡ Some fault }
        ensures failed { self.new ≡ Failed fault }
    {
        self.state = State::Failed(fault);
        fault.reported()
    }

    /// Skips blanks, so that [`Lexer::spot`] is the place of the text after them. Skips nothing
    /// between lines.
    #[inline(always)]
    pub fn skip_blanks(&mut self)
        ensures { self.new ≡ skip_blanks_of self.old }
    {
        match self.state {
            State::Failed(_) => {}
            State::Between => {}
            State::OpeningJoin(_, _) => {}
            State::Inside => self.cursor = skip_blanks(self.cursor),
        }
    }

    /// Skips blanks and takes the longest identifier, if any. Skips nothing between lines.
    ///
    /// # Errors
    /// The fault of a bad unit that comes next.
    #[inline(always)]
    pub fn ident(&mut self) -> Result<Option<&'a [u8]>, LexFault>
        ensures { Answers (option_map (λ bytes. bytes.now)) result self.new (ident_of self.old) }
    {
        match self.state {
            State::Failed(fault) => Err(fault.reported()),
            State::Between => Ok(None),
            State::OpeningJoin(_, _) => Ok(None),
            State::Inside => match identifier(self.cursor) {
                Ok((name, after)) => {
                    self.cursor = after;
                    Ok(name)
                }
                Err(fault) => Err(self.fail(fault)),
            },
        }
    }

    /// Takes a plain binding at once, as [`Lexer::skip_blanks`], [`Lexer::ident`], [`Lexer::sign`],
    /// [`Lexer::value`] and [`Lexer::sign`] do one by one; `None` if it took nothing.
    #[inline(always)]
    pub fn plain_binding(&mut self, alloc: Global) -> Option<PlainBinding<'a>>
        ensures { MatchOption result (self.new ≡ self.old) (λ found.
            TakesBinding self.old self.new found.spot found.name.now (word_model found.value)) }
    {
        match self.state {
            State::Failed(_) => None,
            State::Between => None,
            State::OpeningJoin(_, _) => None,
            State::Inside => match plain_binding(alloc, self.cursor) {
                Some((binding, after)) => {
                    self.cursor = after;
                    self.state = State::Between;
                    Some(binding)
                }
                None => None,
            },
        }
    }

    /// Skips blanks and takes the wanted sign, and returns whether it was there. [`Sign::LineEnd`]
    /// ends the line; the end of the text ends a line too. Skips nothing between lines.
    ///
    /// # Errors
    /// The fault of a bad unit that comes next.
    #[inline(always)]
    pub fn sign(&mut self, want: Sign) -> Result<bool, LexFault>
        ensures { Answers (λ there. there) result self.new (sign_of want self.old) }
    {
        match self.state {
            State::Failed(fault) => Err(fault.reported()),
            State::Between => Ok(false),
            State::OpeningJoin(_, _) => Ok(false),
            State::Inside => match take_sign(want, self.cursor) {
                SignTaken::No(after) => {
                    self.cursor = after;
                    Ok(false)
                }
                SignTaken::InLine(after) => {
                    self.cursor = after;
                    Ok(true)
                }
                SignTaken::LineEnd(after) => {
                    self.cursor = after;
                    self.state = State::Between;
                    Ok(true)
                }
                SignTaken::Fault(fault) => Err(self.fail(fault)),
            },
        }
    }

    /// Takes the word that [`Lexer::path_word`] takes, if that word is plain or no word begins;
    /// else takes nothing.
    #[inline(always)]
    pub fn plain_word(&mut self) -> PlainWord<'a>
        ensures { TakesPlainWord result self.old self.new }
    {
        match self.state {
            State::Failed(_) => PlainWord::Unknown,
            State::Between => PlainWord::Unknown,
            State::OpeningJoin(_, _) => PlainWord::Unknown,
            State::Inside => {
                let (word, after) = plain_word(self.cursor);
                self.cursor = after;
                word
            }
        }
    }

    /// Skips blanks and takes a word; `None` if none begins there. Skips nothing between lines.
    ///
    /// # Errors
    /// The fault of a bad unit that comes next, or of the bad unit at which the word stops;
    /// [`LexFault::OutOfMemory`], which leaves the lexer unchanged.
    pub fn path_word(&mut self, alloc: Global) -> Result<Option<Word<'a>>, LexFault>
        ensures { ReturnsOrLacksMemory (option_map word_model) result self.old self.new
            (path_word_of self.old) }
    {
        let start = self.cursor;
        match self.state {
            State::Failed(fault) => Err(fault.reported()),
            State::Between => Ok(None),
            State::OpeningJoin(_, _) => Ok(None),
            State::Inside => match word(alloc, start) {
                Ok((word, after)) => {
                    self.cursor = after;
                    Ok(word)
                }
                Err(WordFault::OutOfMemory) => Err(LexFault::OutOfMemory),
                Err(WordFault::Unit(fault)) => Err(self.fail(fault)),
            },
        }
    }

    /// Skips blanks and takes all up to the line's end. Between lines it skips nothing, and the
    /// value has no parts.
    ///
    /// # Errors
    /// The fault of the first bad unit of the line; [`LexFault::OutOfMemory`], which leaves the
    /// lexer unchanged.
    #[inline(always)]
    pub fn value(&mut self, alloc: Global) -> Result<Word<'a>, LexFault>
        ensures { ReturnsOrLacksMemory word_model result self.old self.new (value_of self.old) }
    {
        let cursor = self.cursor;
        match self.state {
            State::Failed(fault) => Err(fault.reported()),
            State::Between => {
                let spot = cursor.spot;
                let parts = SmallVec::new(alloc);
                Ok(Word { spot, parts })
            }
            State::OpeningJoin(_, _) => self.finish_value(value(alloc, cursor)),
            State::Inside => self.finish_value(value(alloc, cursor)),
        }
    }

    /// Moves to the end of a value that was read, or to its fault; out of memory leaves the lexer
    /// unchanged.
    #[inline(always)]
    fn finish_value(
        &mut self,
        step: Result<(Word<'a>, Cursor<'a>), WordFault>,
    ) -> Result<Word<'a>, LexFault>
        ensures { FinishesValue step.entry self.old self.new result }
    {
        match step {
            Ok((value, after)) => {
                self.cursor = after;
                self.state = State::Inside;
                Ok(value)
            }
            Err(WordFault::OutOfMemory) => Err(LexFault::OutOfMemory),
            Err(WordFault::Unit(fault)) => Err(self.fail(fault)),
        }
    }

    /// The place of the next byte; after a fault, the fault's place.
    pub fn spot(&self) -> Spot
        ensures { result ≡ spot_of self.now }
    {
        match self.state {
            State::Between => self.cursor.spot,
            State::OpeningJoin(spot, _) => spot,
            State::Inside => self.cursor.spot,
            State::Failed(fault) => fault.spot(),
        }
    }
}
