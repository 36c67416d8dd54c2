//! Tests, as CTest and Meson list them.

/// A test.
#[derive(Drop)]
pub struct Test {
    /// Its name, which need not be unique.
    pub name: String,
    /// The words of its command, the program first; `None` if the command is not known.
    pub command: Option<Vec<String>>,
    /// Other texts that may name files: variables of its environment with their values, files that it
    /// requires or attaches, and outputs of the targets that have to be built before.
    pub texts: Vec<String>,
    /// The directory that it runs in; if `None`, the build directory.
    pub folder: Option<String>,
    /// The names of fixtures that it requires, sets up and cleans up.
    pub required_fixtures: Vec<String>,
    pub set_up_fixtures: Vec<String>,
    pub cleaned_fixtures: Vec<String>,
    /// The names of the tests after which it runs.
    pub predecessors: Vec<String>,
}
