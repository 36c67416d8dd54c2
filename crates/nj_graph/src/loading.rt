//! Loads the files of a run.

ghost use Rattle.std.specs.Prelude.{◌≡◌, ℕ, None, List, IfOk};
ghost use Rattle.nj_graph.specs.Cited.{parent_at, ReadStatement, Faultless, Loads, main_of, Has, FinishesReading};

use crate::graph::{Declared, Graph, rules_of_main};
use crate::reader::Reader;
use nj_faults::GraphFault;
use nj_scope::{FileSource, FileTable};
use std::alloc::Global;
use std::marker::Model;
use std::mem::drop;

/// The files of a run, and their graph.
#[derive(Drop)]
pub struct Loaded {
    pub(crate) files: FileTable,
    pub(crate) graph: Graph,
}

impl Model for Loaded {
    ghost use Rattle.nj_graph.specs.Loads.{LoadedModel};

    ghost Value = { LoadedModel };

    ghost view = { λ l. record { files = l.files; graph = l.graph } };

    ghost use Rattle.std.specs.Prelude.{List};
    ghost use Rattle.nj_scope.specs.Readings.{EachPathOnce};
    ghost use Rattle.nj_scope.specs.ReadingList.{ReadStatement};
    ghost use Rattle.nj_graph.specs.Graph.{IsGraphOf};

    // each path was read once, and the graph is that of some statements
    ghost invariant = { λ l. EachPathOnce l.files
        × ((entries : List ReadStatement) × IsGraphOf l.graph entries) };
}

impl Loaded {
    /// The graph of its statements.
    pub fn graph(&self) -> &Graph
        ensures { result.now ≡ self.now.graph }
    {
        &self.graph
    }

    /// The files that were read, each path once, including paths without a file.
    pub fn files(&self) -> &FileTable
        ensures { result.now ≡ self.now.files }
    {
        &self.files
    }

    /// The graph alone, without the files that were read.
    pub fn into_graph(self) -> Graph
        ensures { result ≡ self.graph }
    {
        self.graph
    }
}

/// Reads the main file and all files that it includes ("Ninja file reference" in the Ninja manual).
///
/// # Errors
///
/// The first fault in reading order, with its place: a statement comes before the statements below
/// it, and the statements of an included file before the statements after the `include`. After all
/// reading, a dependency cycle, at the lowest-numbered edge that lies on a cycle. A file that
/// cannot be read, or a failed allocation, ends the reading where it happens. Where the source
/// fails at a file, that is the fault, at the place of the word that names the file; the file is
/// not tried again.
pub fn load<S: FileSource>(alloc: Global, source: &mut S, main: &str) -> Result<Loaded, GraphFault>
    ensures loads { Loads main.now (S.state source.old) (S.state source.new) result }
    ensures main { IfOk result (λ loaded. main_of loaded.graph.origins ≡ main.now) }
{
    let mut reader = Reader::new(alloc, source.hash_keys(), main)?;
    match reader.read_main(alloc, source, main) {
        Ok(()) => reader.finish(alloc),
        Err(fault) => {
            drop(reader);
            Err(fault)
        }
    }
}

impl Reader {
    // The files that were read, and the graph of their statements. What it needs on the stack is not
    // there while files are read, which is recursive.
    #[inline(never)]
    fn finish(self, alloc: Global) -> Result<Loaded, GraphFault>
        requires outermost { parent_at self.declarations.scopes 0 ≡ None }
        requires read { (main : List ℕ) × (entries : List ReadStatement)
            × Has main self entries × Faultless entries }
        ensures { (main : List ℕ) (entries : List ReadStatement)
            → Has main self entries → Faultless entries → FinishesReading main self entries result }
    {
        let main_rules = match rules_of_main(alloc, self.declarations.rules()) {
            Ok(main_rules) => main_rules,
            Err(failure) => {
                drop(self);
                return Err(GraphFault::from(failure));
            }
        };
        let Reader {
            declarations,
            building,
            files,
            origins,
        } = self;
        let declared = Declared {
            declarations,
            origins,
            main_rules,
        };
        match building.finish(alloc) {
            Ok(built) => {
                let graph = Graph { built, declared };
                Ok(Loaded { files, graph })
            }
            Err(fault) => {
                drop((files, declared));
                Err(fault)
            }
        }
    }
}
