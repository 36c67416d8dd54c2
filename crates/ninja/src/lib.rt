//! Ninja build files for programs that query them: the graph of a manifest and of all that it
//! includes, the edges that targets need and that a change affects, and the output of the tools of
//! `ninja-explain`. It re-exports every name that a client needs; the crates that declare the names
//! are an implementation detail.
#![tactic(auto)]

pub use nj_deps::{DepsLog, DepsLogFault, LoggedOutput, PathNo, Paths};
pub use nj_disk::{DiskFiles, DiskTimes};
pub use nj_graph::{
    AllEdges, AllFiles, Cause, ChainKinds, DepfileError, Discoveries, Edge, EdgeList, EdgeNo,
    Edges, File, FileList, FileNo, FileSource, FileTable, FileTimes, Files, Graph, GraphFault,
    HashKeys, Kind, LateValue, Loaded, MAIN_SCOPE, MemoryFiles, Name, NeededCommands, NeedsSearch,
    Opening, Part, Place, PlaceRef, Rule, RuleNo, ScopeNo, SourceFault, Spot, Step, SyntaxCause,
    TextFault, TimeFound, UndeclaredInput, Unknown, Verdict, Wanted, clean_path, join_dyndeps,
    join_present_dyndeps, load, pick_target, quote_into, undeclared_inputs,
};
pub use nj_needs::{Mark, MarkFault, Needs, grow_targets};
pub use nj_tools::{
    DiscoveryState, EdgeDiscovery, Error, InputsStyle, MemorySink, Sink, SinkFault, TargetsView,
    ToolFault, WriteSink, write_commands, write_compdb, write_edge_objects, write_inputs,
    write_query, write_rules, write_single_commands, write_targets, write_whole,
};
