//! Laws of critical paths and of slowest edges.

ghost use Rattle.nj_times.specs.Cited.{BuildsTakeTheCriticalPath, NoneIsSlower, OneListIsSlowest, OnePathIsCritical};

/// However many edges run at once, a build in which each edge takes its duration and starts after
/// the makers of its inputs end takes at least the sum of the critical path.
pub fn builds_take_the_critical_path()
    ensures { BuildsTakeTheCriticalPath }
{}

/// Files that are needed, and durations, have one critical path.
pub fn one_path_is_critical()
    ensures { OnePathIsCritical }
{}

/// Edges and their durations have one list of slowest edges.
pub fn one_list_is_slowest()
    ensures { OneListIsSlowest }
{}

/// The slowest command of a rule is one of its commands, and none of them took longer.
pub fn none_is_slower()
    ensures { NoneIsSlower }
{}
