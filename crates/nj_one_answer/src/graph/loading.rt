//! The loading of the files of a run, and of its dyndep files.

ghost use Rattle.std.specs.Prelude.{◌≡◌};
ghost use Rattle.nj_one_answer.specs.Cited.{AgreeUpTo, DeclareSame, IsUnread, OfStatements, SameLoaded, TellAll};

use nj_graph::{FileSource, FileTimes, GraphFault, Loaded};
use std::alloc::Global;

/// For sources that declare the same at all paths. Free: whether memory lacks; where a source fails;
/// the numbers of files; what scopes without a statement lie in.
pub fn load<S: FileSource>(
    alloc: Global,
    one: &mut S,
    other: &mut S,
    main: &str,
) -> (Result<Loaded, GraphFault>, Result<Loaded, GraphFault>)
    requires { DeclareSame (S.state one.old) (S.state other.old) }
    ensures { AgreeUpTo SameLoaded IsUnread result.0 result.1 }
{
    (
        nj_graph::load(alloc, one, main),
        nj_graph::load(alloc, other, main),
    )
}

/// For a graph of statements, and for sources that declare the same at all paths. Free: as of
/// [`load`].
pub fn join_dyndeps<S: FileSource>(
    alloc: Global,
    loaded: Loaded,
    same: Loaded,
    one: &mut S,
    other: &mut S,
) -> (Result<Loaded, GraphFault>, Result<Loaded, GraphFault>)
    requires loaded { loaded ≡ same }
    requires files { DeclareSame (S.state one.old) (S.state other.old) }
    ensures { OfStatements loaded.graph (λ entries.
        AgreeUpTo SameLoaded IsUnread result.0 result.1) }
{
    (
        nj_graph::join_dyndeps(alloc, loaded, one),
        nj_graph::join_dyndeps(alloc, same, other),
    )
}

/// For a graph of statements, for sources that declare the same at all paths, and for times that
/// are declared for all paths. Free: as of [`load`].
pub fn join_present_dyndeps<S: FileSource, T: FileTimes>(
    alloc: Global,
    loaded: Loaded,
    same: Loaded,
    one: &mut S,
    other: &mut S,
    times: &T,
) -> (Result<Loaded, GraphFault>, Result<Loaded, GraphFault>)
    requires loaded { loaded ≡ same }
    requires files { DeclareSame (S.state one.old) (S.state other.old) }
    requires times { TellAll (T.times times.now) }
    ensures { OfStatements loaded.graph (λ entries.
        AgreeUpTo SameLoaded IsUnread result.0 result.1) }
{
    (
        nj_graph::join_present_dyndeps(alloc, loaded, one, times),
        nj_graph::join_present_dyndeps(alloc, same, other, times),
    )
}
