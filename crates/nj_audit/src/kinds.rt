//! The kinds of findings, and which of them are requested.

ghost use Rattle.std.specs.Prelude.{◌≡◌, ◌++◌, None, Some, IfErr, IfOk, OnOk, find, option_map};
ghost use Rattle.nj_audit.specs.Cited.{is_among, AskFor, contains, first_unknown, is_asked_for, is_on_by_default, is_taken, is_unknown, name_of, selection_of, texts, meaning_of, phrase_of};

/// A kind of finding.
#[derive(Clone, Copy)]
pub enum Kind {
    UnusedOutput,
    MissingSource,
    UnusedRule,
    UnusedPool,
    UnusedVariable,
    RepeatedCommand,
    DepfileWithoutDeps,
    RepeatedInput,
    UndeclaredInput,
}

impl Kind {
    /// All kinds, in the order in which their findings are written.
    pub const ALL: [Kind; 9] = [
        Kind::UnusedOutput,
        Kind::MissingSource,
        Kind::UnusedRule,
        Kind::UnusedPool,
        Kind::UnusedVariable,
        Kind::RepeatedCommand,
        Kind::DepfileWithoutDeps,
        Kind::RepeatedInput,
        Kind::UndeclaredInput,
    ];

    /// Returns the name of the kind on the command line and in JSON.
    pub fn name(self) -> &'static str
        ensures { result.now ≡ name_of self }
    {
        match self {
            Kind::UnusedOutput => "unused-output",
            Kind::MissingSource => "missing-source",
            Kind::UnusedRule => "unused-rule",
            Kind::UnusedPool => "unused-pool",
            Kind::UnusedVariable => "unused-variable",
            Kind::RepeatedCommand => "repeated-command",
            Kind::DepfileWithoutDeps => "depfile-without-deps",
            Kind::RepeatedInput => "repeated-input",
            Kind::UndeclaredInput => "undeclared-input",
        }
    }

    /// Returns the name of the kind in a plain line.
    pub fn phrase(self) -> &'static str
        ensures { result.now ≡ phrase_of self }
    {
        match self {
            Kind::UnusedOutput => "unused output",
            Kind::MissingSource => "missing source",
            Kind::UnusedRule => "unused rule",
            Kind::UnusedPool => "unused pool",
            Kind::UnusedVariable => "unused variable",
            Kind::RepeatedCommand => "repeated command",
            Kind::DepfileWithoutDeps => "depfile without deps",
            Kind::RepeatedInput => "repeated input",
            Kind::UndeclaredInput => "undeclared input",
        }
    }

    /// Returns the meaning of a finding of this kind.
    pub fn meaning(self) -> &'static str
        ensures { result.now ≡ meaning_of self }
    {
        match self {
            Kind::UnusedOutput => "an output that is neither a default, an input nor a validation",
            Kind::MissingSource => "a source that a command needs and that is not on disk",
            Kind::UnusedRule => "a rule that no edge uses",
            Kind::UnusedPool => "a pool that no edge uses",
            Kind::UnusedVariable => "a variable of an edge that neither its rule nor Ninja reads",
            Kind::RepeatedCommand => "an edge with the command of an earlier edge",
            Kind::DepfileWithoutDeps => "an edge with a depfile and no deps",
            Kind::RepeatedInput => "an input that is given to its edge again",
            Kind::UndeclaredInput =>
                "a generated file that a command or the deps log uses, with no dependency on the edge that makes it",
        }
    }

    /// Whether the kind is reported without any option.
    pub fn is_on_by_default(self) -> bool
        ensures { result ≡ is_on_by_default self }
    {
        matches!(self, Kind::UndeclaredInput)
    }
}

/// The requested kinds, with a flag for each kind.
#[derive(Clone, Copy)]
pub struct Kinds {
    pub unused_output: bool,
    pub missing_source: bool,
    pub unused_rule: bool,
    pub unused_pool: bool,
    pub unused_variable: bool,
    pub repeated_command: bool,
    pub depfile_without_deps: bool,
    pub repeated_input: bool,
    pub undeclared_input: bool,
}

impl Kinds {
    /// Returns the kinds that the flag `--all` and the values of `--only` and of `--except` select.
    ///
    /// # Errors
    ///
    /// The first value that does not name a kind.
    pub fn from_words<'a>(all: bool, only: &[&'a str], except: &[&'a str]) -> Result<Kinds, &'a str>
        ensures asked { IfOk result (λ kinds.
            AskFor kinds (selection_of all only.now except.now)) }
        ensures known { OnOk result (first_unknown (selection_of all only.now except.now) ≡ None) }
        ensures unknown { IfErr result
            (λ word. first_unknown (selection_of all only.now except.now) ≡ Some word.now) }
    {
        match first_unknown(only, except) {
            Some(word) => Err(word),
            None => Ok(Kinds::known_from_words(all, only, except)),
        }
    }

    /// Returns the kinds that options select, where each value names a kind.
    fn known_from_words(all: bool, only: &[&str], except: &[&str]) -> Kinds
        ensures { AskFor result (selection_of all only.now except.now) }
    {
        Kinds {
            unused_output: is_asked_for(all, only, except, Kind::UnusedOutput),
            missing_source: is_asked_for(all, only, except, Kind::MissingSource),
            unused_rule: is_asked_for(all, only, except, Kind::UnusedRule),
            unused_pool: is_asked_for(all, only, except, Kind::UnusedPool),
            unused_variable: is_asked_for(all, only, except, Kind::UnusedVariable),
            repeated_command: is_asked_for(all, only, except, Kind::RepeatedCommand),
            depfile_without_deps: is_asked_for(all, only, except, Kind::DepfileWithoutDeps),
            repeated_input: is_asked_for(all, only, except, Kind::RepeatedInput),
            undeclared_input: is_asked_for(all, only, except, Kind::UndeclaredInput),
        }
    }

    /// Whether the kinds include a kind.
    pub fn contains(self, kind: Kind) -> bool
        ensures { result ≡ contains self kind }
    {
        match kind {
            Kind::UnusedOutput => self.unused_output,
            Kind::MissingSource => self.missing_source,
            Kind::UnusedRule => self.unused_rule,
            Kind::UnusedPool => self.unused_pool,
            Kind::UnusedVariable => self.unused_variable,
            Kind::RepeatedCommand => self.repeated_command,
            Kind::DepfileWithoutDeps => self.depfile_without_deps,
            Kind::RepeatedInput => self.repeated_input,
            Kind::UndeclaredInput => self.undeclared_input,
        }
    }
}

/// Returns the first value that does not name a kind, if any.
fn first_unknown<'a>(only: &[&'a str], except: &[&'a str]) -> Option<&'a str>
    ensures { option_map (λ word. word.now) result
        ≡ find is_unknown (texts only.now ++ texts except.now) }
{
    only.iter()
        .chain(except.iter())
        .copied()
        .find(|word| is_unknown(word))
}

/// Whether a word does not name a kind.
fn is_unknown(word: &str) -> bool
    ensures { result ≡ is_unknown word.now }
{
    !Kind::ALL.iter().any(|kind| word == kind.name())
}

/// Whether options select a kind.
fn is_asked_for(all: bool, only: &[&str], except: &[&str], kind: Kind) -> bool
    ensures { result ≡ is_asked_for (selection_of all only.now except.now) kind }
{
    is_taken(all, only, kind) && !is_named(except, kind)
}

/// Whether `--all` or `--only` selects a kind. Without them the kinds that are on by default are
/// selected.
fn is_taken(all: bool, only: &[&str], kind: Kind) -> bool
    ensures { result ≡ is_taken all (texts only.now) kind }
{
    if all {
        true
    } else if only.is_empty() {
        kind.is_on_by_default()
    } else {
        is_named(only, kind)
    }
}

/// Whether one of the given words names a kind.
fn is_named(words: &[&str], kind: Kind) -> bool
    ensures { result ≡ is_among (texts words.now) (name_of kind) }
{
    let name = kind.name();
    words.iter().any(|word| name == *word)
}
