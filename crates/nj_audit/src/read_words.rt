//! Which words of a command name files that it reads, and in which directory.

ghost use Rattle.std.specs.Prelude.{◌≡◌, ◌++◌, OnOk};
ghost use Rattle.nj_audit.specs.Cited.{after_operator, after_part, after_word, begins_command, ends_in_option, entered, first_word, is_assignment, is_cd, is_copy, is_option, is_output_option, is_read, is_script, is_script_part, is_shell, is_tee, names_output, part_after, part_in_shell};

use crate::named_paths::{push_below, without_here};
use crate::word_names::after_sign;
use std::alloc::AllocError;
use std::marker::Model;

/// The number of bytes that the system allows in a path.
const LONGEST_PATH: usize = 4096;

/// The part of a word in its command.
#[derive(Clone, Copy)]
pub enum Part {
    /// The program of the command.
    Program,
    /// The directory argument of `cd`.
    Directory,
    /// An argument of `tee`.
    Copy,
    /// An argument of a shell.
    Shell,
    /// The command that a shell is given by `-c`.
    Script,
    /// Any other argument.
    Argument,
}

/// What is known of the next word of a command from the words before it.
#[derive(Drop)]
pub struct NextWord {
    part: Part,
    // whether `>` or `-o` comes before it
    is_written: bool,
    // the directory that `cd` entered
    folder: Vec<u8>,
}

impl Model for NextWord {
    ghost use Rattle.nj_audit.specs.ReadWords.{NextWordModel};

    ghost Value = { NextWordModel };

    ghost view = { λ n. record {
      part = n.part;
      is_written = n.is_written;
      folder = n.folder.items;
    } };
}

impl NextWord {
    /// Returns the state before the first word of a command that begins in a directory.
    pub fn first(folder: Vec<u8>) -> NextWord
        ensures { result ≡ first_word folder.items }
    {
        NextWord {
            part: Part::Program,
            is_written: false,
            folder,
        }
    }

    /// Returns the directory that `cd` entered before the word; empty before the first `cd`.
    pub fn folder(&self) -> &[u8]
        ensures { result.now ≡ self.now.folder }
    {
        &self.folder
    }

    /// Whether the given next word may name a file that the command reads.
    pub fn is_read(&self, word: &[u8]) -> bool
        ensures { result ≡ is_read self.now word.now }
    {
        !(self.is_written || is_copy(self.part) || names_output(word))
    }

    /// Whether the next word is a command that a shell is given by `-c`.
    pub fn is_script(&self) -> bool
        ensures { result ≡ is_script self.now }
    {
        !self.is_written && is_script_part(self.part)
    }

    /// Advances over a byte of an operator.
    pub fn pass_operator(&mut self, byte: u8)
        ensures { self.new ≡ after_operator self.old byte }
    {
        match byte {
            b'>' => self.is_written = true,
            b'<' => self.is_written = false,
            b'&' | b'|' if self.is_written => {}
            _ => self.begin_command(),
        }
    }

    /// Begins a command.
    fn begin_command(&mut self)
        ensures { self.new ≡ begins_command self.old }
    {
        self.part = Part::Program;
        self.is_written = false;
    }

    /// Advances over a word.
    pub fn pass_word(&mut self, word: &[u8]) -> Result<(), AllocError>
        ensures { OnOk result (self.new ≡ after_word self.old word.now) }
    {
        if self.is_written {
            self.is_written = false;
            return Ok(());
        }
        self.pass_read(word)
    }

    /// Advances over a word that does not come after `>` or `-o`.
    fn pass_read(&mut self, word: &[u8]) -> Result<(), AllocError>
        ensures { OnOk result (self.new ≡ after_part self.old.part self.old word.now) }
    {
        match self.part {
            Part::Program => {
                self.part = part_after(word);
                self.is_written = is_output_option(word);
            }
            Part::Directory => {
                if !is_option(word) {
                    enter(&mut self.folder, word)?;
                    self.part = Part::Argument;
                }
            }
            Part::Copy => {}
            Part::Shell => {
                self.part = part_in_shell(word);
                self.is_written = ends_in_option(b"o", word);
            }
            Part::Script => self.part = Part::Argument,
            Part::Argument => self.is_written = is_output_option(word),
        }
        Ok(())
    }
}

/// Returns the part of the word after a program, or after a word that sets a variable.
fn part_after(program: &[u8]) -> Part
    ensures { result ≡ part_after program.now }
{
    if is_assignment(program) {
        Part::Program
    } else if is_cd(program) {
        Part::Directory
    } else if is_tee(program) {
        Part::Copy
    } else if is_shell(program) {
        Part::Shell
    } else {
        Part::Argument
    }
}

/// Returns the part of the word after a word of a shell.
fn part_in_shell(word: &[u8]) -> Part
    ensures { result ≡ part_in_shell word.now }
{
    if ends_in_option(b"c", word) {
        Part::Script
    } else if is_option(word) {
        Part::Shell
    } else {
        Part::Argument
    }
}

/// Whether a word in place of the program sets a variable of the command.
fn is_assignment(word: &[u8]) -> bool
    ensures { result ≡ is_assignment word.now }
{
    !is_option(word) && after_sign(word).is_some()
}

/// Whether a word is `cd`.
fn is_cd(word: &[u8]) -> bool
    ensures { result ≡ is_cd word.now }
{
    matches!(word, [b'c', b'd'])
}

/// Whether a program is `tee`.
fn is_tee(program: &[u8]) -> bool
    ensures { result ≡ is_tee program.now }
{
    program == b"tee".as_slice() || program.ends_with(b"/tee")
}

/// Whether a program is a shell, whose option `-c` takes a command.
fn is_shell(program: &[u8]) -> bool
    ensures { result ≡ is_shell program.now }
{
    program == b"sh".as_slice()
        || program.ends_with(b"/sh")
        || program == b"bash".as_slice()
        || program.ends_with(b"/bash")
        || program == b"dash".as_slice()
        || program.ends_with(b"/dash")
}

/// Whether a word has options of one letter, of which the last is the given letter.
fn ends_in_option(letter: &[u8], word: &[u8]) -> bool
    ensures { result ≡ ends_in_option letter.now word.now }
{
    is_option(word) && !word.starts_with(b"--") && word.ends_with(letter)
}

/// Whether a word begins with `-`.
fn is_option(word: &[u8]) -> bool
    ensures { result ≡ is_option word.now }
{
    matches!(word, [b'-', ..])
}

/// Whether a word is `-o`.
fn is_output_option(word: &[u8]) -> bool
    ensures { result ≡ is_output_option word.now }
{
    matches!(word, [b'-', b'o'])
}

/// Whether a word begins with `-o`.
fn names_output(word: &[u8]) -> bool
    ensures { result ≡ names_output word.now }
{
    matches!(word, [b'-', b'o', ..])
}

/// Whether a word is an argument of `tee`.
fn is_copy(part: Part) -> bool
    ensures { result ≡ is_copy part }
{
    matches!(part, Part::Copy)
}

/// Whether a word is the command that a shell is given by `-c`.
fn is_script_part(part: Part) -> bool
    ensures { result ≡ is_script_part part }
{
    matches!(part, Part::Script)
}

/// Enters the directory after `cd`, as seen from the directory before, unless its path is too long.
fn enter(folder: &mut Vec<u8>, name: &[u8]) -> Result<(), AllocError>
    ensures { OnOk result (folder.new.items ≡ entered folder.old.items name.now) }
{
    let mut path = Vec::new(*folder.allocator());
    push_below(&mut path, folder, without_here(name))?;
    if path.len() <= LONGEST_PATH {
        *folder = path;
    }
    Ok(())
}
