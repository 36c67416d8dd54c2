//! The lists of `targets`.

use nj_faults::Name;

/// The files that `targets` lists ("Extra tools" in the Ninja manual).
#[derive(Debug, PartialEq, Eq, Drop)]
pub enum TargetsView {
    /// `rule NAME`: the outputs of the edges whose rule has the given name.
    OfRule(Name),
    /// `rule`: the sources, that is, inputs that no edge makes.
    Sources,
    /// `depth N`: the roots with their trees of inputs, to N levels; 0 for all levels.
    Depth(u32),
    /// `all`: all outputs.
    All,
}
