//! Laws of the state of a build.

ghost use Rattle.nj_stale.specs.Cited.{SomeStateFits, OneStateFits, StaleEdgesHaveReasons, TouchesMakeDirtyEdgesStale, OtherTimesSayNothing};

/// A build without dependency cycles has a state.
pub fn some_state_fits()
    ensures { SomeStateFits }
{}

/// It has no other state.
pub fn one_state_fits()
    ensures { OneStateFits }
{}

/// An edge is stale exactly if it has a chain of reasons that ends at a file or a line of the log.
pub fn stale_edges_have_reasons()
    ensures { StaleEdgesHaveReasons }
{}

/// If nothing is stale, touching source files makes stale exactly the edges with a command that are
/// dirty by the touched files.
pub fn touches_make_dirty_edges_stale()
    ensures { TouchesMakeDirtyEdgesStale }
{}

/// If a set of edges contains the makers of all its inputs that count, the times of other files do
/// not change the reasons of its edges.
pub fn other_times_say_nothing()
    ensures { OtherTimesSayNothing }
{}
