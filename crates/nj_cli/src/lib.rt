//! A run of `ninja-explain`: from its arguments and the files of a build to its output.
#![tactic(auto)]

mod laws;
mod perform;
mod report;
mod run;
mod run_targets;
mod status;

pub use laws::commands_law;
pub use nj_args::{
    Action, InputsStyle, Request, TargetsView, ToolOption, UsageFault, Word, read_words,
};
pub use nj_disk::DiskFiles;
pub use nj_graph::{Loaded, Name};
pub use nj_needs::Mark;
pub use nj_scope::{FileSource, FileTable, HashKeys, MemoryFiles, SourceFault};
pub use nj_tools::{MemorySink, Sink, SinkFault, WriteSink};
pub use report::{OUT_OF_MEMORY, refuse_words, report_out_of_memory};
pub use run::{Ended, run_read_words, run_tool, run_words, run_words_and_keep};
pub use status::Status;
