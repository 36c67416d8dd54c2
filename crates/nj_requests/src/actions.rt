//! Requests about a file and its graph.

use crate::style::InputsStyle;
use crate::view::TargetsView;
use nj_needs::Mark;

/// The request of a command line.
#[derive(Drop)]
pub struct Request {
    /// The main file's name ("Running Ninja").
    pub file: String,
    /// Whether the main file is standard input.
    pub from_stdin: bool,
    /// Whether discoveries of dyndep files are joined first.
    pub dyndep: bool,
    pub action: Action,
}

/// A tool with its options and targets ("Extra tools"). Targets, files and names of rules are the
/// arguments that are not options, verbatim. Without targets, the file determines them ("Default
/// target statements").
#[derive(Drop)]
pub enum Action {
    /// `commands`: the commands of the edges that the targets need, from a mark on.
    Commands {
        targets: Vec<String>,
        /// Whether the validations of the edges that the targets need count as targets too
        /// ("Validations").
        validations: bool,
        /// The maximum number of commands, if it is limited.
        take: Option<u64>,
        start: Mark,
    },
    /// `commands` with `-s`: the commands of the edges that make the targets.
    SingleCommands {
        targets: Vec<String>,
    },
    /// `inputs`: the inputs of the edges whose commands the targets need.
    Inputs {
        targets: Vec<String>,
        /// As for `Commands`.
        validations: bool,
        style: InputsStyle,
    },
    /// `targets`: files of the graph, by rule, by depth or all.
    Targets {
        view: TargetsView,
    },
    /// `query`: the files from which each given file is made, and the files made from it. At least
    /// one file is given.
    Query {
        files: Vec<String>,
    },
    /// `rules`: the names of the rules.
    Rules {
        /// Whether the description of each rule is included.
        descriptions: bool,
    },
    /// `compdb`: a compilation database.
    Compdb {
        /// The rules whose edges are included; if empty, all rules.
        rules: Vec<String>,
        /// The directory that it reports for each command.
        directory: String,
        /// Whether response files are expanded in the commands.
        expand: bool,
    },
}
