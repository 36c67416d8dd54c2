//! Questions about the graph of a build.

ghost use Rattle.std.specs.Prelude.{◌≡◌, option_copied};
ghost use Rattle.nj_questions.specs.Cited.{question_model, subject_model, entered_folder, reads_nothing, takes_folder, takes_input};

/// A question about a graph.
#[derive(Drop)]
pub struct Question {
    /// `-C DIR`: the directory to change to before anything else.
    pub folder: Option<String>,
    pub graph: GraphOptions,
    pub subject: Subject,
}

impl Question {
    /// Whether it reads nothing, not even the directory of `-C`: the kinds of findings are listed.
    pub fn reads_nothing(&self) -> bool
        ensures { result ≡ reads_nothing (subject_model self.now.subject) }
    {
        match &self.subject {
            Subject::Audit(options) => options.list,
            _ => false,
        }
    }

    /// Returns the directory to change to before anything else: that of `-C`, unless nothing is
    /// read.
    pub fn entered_folder(&self) -> Option<&str>
        ensures { option_copied result ≡ entered_folder (question_model self.entry.now) }
    {
        match &self.folder {
            Some(folder) if !self.reads_nothing() => Some(folder.as_str()),
            _ => None,
        }
    }

    /// Whether it reads standard input: `affected` and `tests` do.
    pub fn takes_input(&self) -> bool
        ensures { result ≡ takes_input (subject_model self.now.subject) }
    {
        matches!(self.subject, Subject::Affected(_) | Subject::Tests(_))
    }

    /// Whether it uses the path of the working directory: `affected` and `tests` do, and so does
    /// `audit`, unless nothing is read.
    pub fn takes_folder(&self) -> bool
        ensures { result ≡ takes_folder (subject_model self.now.subject) }
    {
        match &self.subject {
            Subject::Affected(_) | Subject::Tests(_) => true,
            Subject::Audit(options) => !options.list,
            _ => false,
        }
    }
}

/// The graph of a question.
#[derive(Drop)]
pub struct GraphOptions {
    /// `-f FILE`: the main file's name; by default `build.ninja`.
    pub file: String,
    /// `--dyndep`: whether what dyndep files discover is joined.
    pub dyndep: bool,
    /// `--deps`: whether the inputs that builds discovered are joined. `stale` joins them even without
    /// it, and so does `times` without `--dead`.
    pub deps: bool,
    /// `--deps-log-file FILE`: the same, with this deps log.
    pub log: Option<String>,
}

/// What is asked, by subcommand. Targets, paths, names and marks are as on the command line.
#[derive(Drop)]
pub enum Subject {
    /// `affected`: the outputs that a change of files affects.
    Affected(AffectedOptions),
    /// `audit`: findings about the manifest.
    Audit(AuditOptions),
    /// `draw`: a drawing of edges.
    Draw(DrawOptions),
    /// `json`: the edges as objects of JSON.
    Json,
    /// `keys`: a key for each command that targets need.
    Keys(KeysOptions),
    /// `stale`: what Ninja would run now.
    Stale(StaleOptions),
    /// `tests`: the tests that a change of files reaches.
    Tests(TestsOptions),
    /// `times`: where the time of a build went.
    Times(TimesOptions),
    /// `why`: a chain by which a file needs another file.
    Why(WhyOptions),
}

/// The options of `affected`.
#[derive(Drop)]
pub struct AffectedOptions {
    /// `--source-dir DIR`: the directories that changed paths may be in; without any, the paths are
    /// used as they are.
    pub source_dirs: Vec<String>,
    /// `-z`: changed paths are each ended by a zero byte; without that option they are lines.
    pub zero_ended: bool,
    /// `--ignore GLOB`: the patterns of the changed paths that are ignored.
    pub ignored: Vec<String>,
    /// `--rule NAME`: only outputs of edges with one of the given rules; without any, of all edges.
    pub rules: Vec<String>,
    /// `--prefix TEXT`: only outputs whose paths begin with the text; by default it is empty.
    pub prefix: String,
    /// `--no-phony`: outputs of phony edges are left out.
    pub no_phony: bool,
    /// `--ignore-unknown`: paths that no edge names are not reported.
    pub ignore_unknown: bool,
    /// `--allow-empty`: an empty list of paths is not a caveat.
    pub allow_empty: bool,
    /// `--since FILE`: a file with the keys of an older manifest, as `keys` writes them; commands with
    /// other keys count as changed.
    pub since: Option<String>,
    /// `--base DIR`: the directories that numbers stand for in those keys.
    pub bases: Vec<String>,
}

/// The options of `audit`.
#[derive(Drop)]
pub struct AuditOptions {
    /// `--all`: all kinds are found.
    pub all: bool,
    /// `--only KIND`: the words of the kinds to find; without any, the kinds that are on by
    /// default.
    pub only: Vec<String>,
    /// `--except KIND`: the words of kinds not to find.
    pub except: Vec<String>,
    /// `--json`: findings are objects of JSON.
    pub json: bool,
    /// `--list`: the kinds are listed, and nothing is read.
    pub list: bool,
}

/// The options of `draw`.
#[derive(Drop)]
pub struct DrawOptions {
    /// The files; without any, the default targets.
    pub targets: Vec<String>,
    /// `--affected`: the edges that a change of the files affects, instead of those that they need.
    pub affected: bool,
    /// `--fold`: each phony edge is a point.
    pub fold: bool,
    /// `--limit N`: at most this many nodes.
    pub limit: Option<usize>,
    /// `--inputs K`: at most this many inputs of an edge.
    pub inputs: Option<usize>,
}

/// The options of `keys`.
#[derive(Drop)]
pub struct KeysOptions {
    /// `--base DIR`: paths of directories for which numbers stand, in their order.
    pub bases: Vec<String>,
    /// `--with TEXT`: texts that go into every key, in their order.
    pub additions: Vec<String>,
    /// `--with-file FILE`: paths of the files whose contents go into every key, in their order.
    pub files: Vec<String>,
    /// `--take N`: at most this many commands.
    pub take: Option<u64>,
    /// `--resume MARK`: the text of the mark of the previous run.
    pub resume: Option<String>,
    /// `--all`: every command of the manifest, whatever targets need.
    pub all: bool,
    /// `--json`: commands are objects of JSON.
    pub json: bool,
    /// The targets; without any, the default targets.
    pub targets: Vec<String>,
}

/// The options of `stale`.
#[derive(Drop)]
pub struct StaleOptions {
    /// The targets; without any, the default targets.
    pub targets: Vec<String>,
    /// `--why`: each edge with its first reason.
    pub why: bool,
    /// `--json`: stale edges are objects of JSON.
    pub json: bool,
    /// `--no-manifest`: what the manifest itself is made from is left out.
    pub no_manifest: bool,
}

/// The options of `tests`.
#[derive(Drop)]
pub struct TestsOptions {
    /// The options of the change, as for `affected`, without those that choose outputs.
    pub change: AffectedOptions,
    /// `--ctest FILE`: what `ctest --show-only=json-v1` wrote.
    pub ctest: Option<String>,
    /// `--meson DIR`: a build directory of Meson, whose `meson-info` has the list of tests.
    pub meson: Option<String>,
    /// `--format FORMAT`: the word for how the tests are written.
    pub format: Option<String>,
    /// `--why`: each line has the reason too.
    pub why: bool,
    /// `--json`: tests are objects of JSON.
    pub json: bool,
    /// `--unnamed WORD`: what to do with the tests of which nothing is known.
    pub unnamed: Option<String>,
}

/// The options of `times`.
#[derive(Drop)]
pub struct TimesOptions {
    /// The targets; without any, the default targets.
    pub targets: Vec<String>,
    /// `--top N`: at most this many commands, the slowest ones, instead of the critical path.
    pub top: Option<usize>,
    /// `--by-rule`: a line for each rule, instead of the critical path.
    pub by_rule: bool,
    /// `--dead`: the outputs of the log that the manifest no longer has, instead.
    pub dead: bool,
    /// `--json`: the lines are objects of JSON.
    pub json: bool,
}

/// The options of `why`.
#[derive(Drop)]
pub struct WhyOptions {
    /// The file that needs the other.
    pub from: String,
    /// The file that is needed.
    pub to: String,
    /// `--validations`: validations are inputs too.
    pub validations: bool,
    /// `--no-order-only`: chains do not use order-only inputs.
    pub no_order_only: bool,
}
