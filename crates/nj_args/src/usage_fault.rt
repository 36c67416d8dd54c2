//! Why arguments are not a valid request.

ghost use Rattle.std.specs.Prelude.{◌≡◌, Some, IfOk};
ghost use Rattle.nj_args.specs.Cited.{fault_text, option_text, OutOfMemory};

use nj_text::OUT_OF_MEMORY_TEXT;
use std::alloc::{AllocError, AllocFailed, Global};
use std::error::Error;
use std::fmt;
use std::marker::Model;

/// An argument of the command line, or the value of an option in it.
#[derive(Debug, Drop)]
pub struct Word {
    text: String,
}

impl Model for Word {
    ghost use Rattle.std.specs.Prelude.{ℕ, List, string_bytes};

    ghost Value = { List ℕ };

    ghost view = { λ word. string_bytes word.text };
}

impl Word {
    /// The argument with the given text.
    pub fn new(alloc: Global, text: &str) -> Result<Word, AllocError>
        ensures { IfOk result (λ word. word ≡ text.now) }
    {
        let text = String::from_str(alloc, text)?;
        Ok(Word { text })
    }

    /// Its text.
    pub fn as_str(&self) -> &str
        ensures { result.now ≡ self.now }
    {
        self.text.as_str()
    }
}

impl fmt::Display for Word {
    ghost output = { λ word. Some word };

    fn fmt<W: fmt::Write>(&self, f: &mut fmt::Formatter<W>) -> fmt::Result {
        f.write_str(self.as_str())
    }
}

/// An option that does not go with every tool.
#[derive(Clone, Copy, Debug, PartialEq, Eq)]
pub enum ToolOption {
    /// `-s`
    Single,
    /// `-d`
    Descriptions,
    /// `-x`
    Expand,
    /// `--directory TEXT`
    Directory,
    /// `--take K`
    Take,
    /// `--resume MARK`
    Resume,
    /// `--validations`
    Validations,
    /// `--dependency-order`
    DependencyOrder,
    /// `--no-shell-escape`
    NoShellEscape,
    /// `--print0`
    Print0,
}

impl ToolOption {
    /// The option as it is written on the command line.
    pub fn text(self) -> &'static str
        ensures { result.now ≡ option_text self }
    {
        match self {
            ToolOption::Single => "-s",
            ToolOption::Descriptions => "-d",
            ToolOption::Expand => "-x",
            ToolOption::Directory => "--directory",
            ToolOption::Take => "--take",
            ToolOption::Resume => "--resume",
            ToolOption::Validations => "--validations",
            ToolOption::DependencyOrder => "--dependency-order",
            ToolOption::NoShellEscape => "--no-shell-escape",
            ToolOption::Print0 => "--print0",
        }
    }
}

impl fmt::Display for ToolOption {
    ghost output = { λ option. Some (option_text option) };

    fn fmt<W: fmt::Write>(&self, f: &mut fmt::Formatter<W>) -> fmt::Result {
        let option = *self;
        f.write_str(option.text())
    }
}

/// Why the arguments of a command line are not a valid request.
#[derive(Debug, Drop)]
pub enum UsageFault {
    /// The arguments cannot be read: an option is unknown, is repeated, or lacks its value; or the
    /// tool is missing. The argument after an option is not its value if it begins with `-`, unless
    /// it is `-` itself.
    Unparsed,
    /// A tool with the given name does not exist ("Extra tools").
    UnknownTool(Word),
    /// The option does not go with the tool, or not with `-s`.
    ForeignOption { option: ToolOption, tool: Word },
    /// The text is not a valid number: below 2 to the power of 64 for `--take`, and at most
    /// 2147483647 for `depth N`.
    BadNumber(Word),
    /// The text is not a mark, or not a mark of the requested kind of run: with `--validations`,
    /// marks begin with `v`.
    BadMark(Word),
    /// The tool with the given name does not accept the arguments given besides the options ("Extra
    /// tools").
    BadWords(Word),
    /// An allocation failed.
    OutOfMemory,
}

impl fmt::Display for UsageFault {
    ghost output = { λ fault. Some (fault_text fault) };

    fn fmt<W: fmt::Write>(&self, f: &mut fmt::Formatter<W>) -> fmt::Result {
        match self {
            UsageFault::Unparsed => f.write_str("cannot read the arguments"),
            UsageFault::UnknownTool(tool) => write!(f, "unknown tool '{tool}'"),
            UsageFault::ForeignOption { option, tool } => {
                write!(f, "option {option} does not go with tool '{tool}'")
            }
            UsageFault::BadNumber(text) => write!(f, "not a number: '{text}'"),
            UsageFault::BadMark(text) => write!(f, "bad mark '{text}'"),
            UsageFault::BadWords(tool) => write!(f, "wrong words for tool '{tool}'"),
            UsageFault::OutOfMemory => f.write_str(OUT_OF_MEMORY_TEXT),
        }
    }
}

impl Error for UsageFault {}

impl From<AllocError> for UsageFault {
    ghost from_gives = { λ _ e. e ≡ OutOfMemory };

    fn from(_e: AllocError) -> UsageFault {
        UsageFault::OutOfMemory
    }
}

impl<T: Drop> From<AllocFailed<T>> for UsageFault {
    ghost from_gives = { λ _ e. e ≡ OutOfMemory };

    fn from(_e: AllocFailed<T>) -> UsageFault {
        UsageFault::OutOfMemory
    }
}
