//! How chosen tests are written.

/// How the chosen tests are written.
#[derive(Clone, Copy, Debug, PartialEq, Eq)]
pub enum Style {
    /// A name in each line, as `ctest --tests-from-file` reads them.
    Names,
    /// A line for each test: the name, a tab, the word of the reason, and after a space the path of
    /// the reason, if any.
    Reasons,
    /// A line for each test: an object in JSON with the keys `name`, `reason` and `path`.
    Objects,
    /// One line: a regular expression for `ctest -R` that matches exactly the names.
    CTest,
    /// A line for each test: a pattern for `meson test` that matches only its name, in any project.
    Meson,
}
