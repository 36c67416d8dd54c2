//! The graph that a question is about.

ghost use Rattle.std.specs.Prelude.{◌≡◌, List, Err, IfErr, IfOk, Ok, map, option_copied, string_bytes};
ghost use Rattle.nj_scope.specs.ReadingList.{ReadStatement};
ghost use Rattle.nj_ask.specs.Cited.{AreStatedInputs, implicit_counts, FindsUndeclared, undeclared_in, AreInputsIn, KnowsByLog, LacksByLog, SourceState, IsGraphOf, OfStatements, files_of, Loads, input_of_edge, asked_graph, Fault, line, HasEdges, IsDeclared, IsDiscovered, KnowsGraph, LacksGraph, ReadsManifest, asks_discovered, discovered_line, FailsBy, Discovers, LacksDiscovered, LacksMain, LacksManifest, HasStatements, sources_of};

use crate::deps_log::{ReadLog, read_log};
use crate::discovered::{Discovered, DiscoveredGraph, with_discovered};
use crate::doubts::Doubts;
use crate::failure::{Failure, refused};
use crate::status::Status;
use nj_deps::DepsLog;
use nj_graph::{
    Cause, EdgeGraph, EdgeNo, FileSource, FileTimes, Graph, GraphFault, HashKeys, Loaded,
    UndeclaredInput, join_dyndeps, join_present_dyndeps, load, undeclared_inputs,
};
use nj_questions::GraphOptions;
use std::alloc::{AllocError, Global};

/// Reads the main file and all that it includes; then, if requested, dyndep files and what builds
/// discovered. Manifests and dyndep files come from `files`, and the deps log and depfiles from
/// `built`. With `seeks_undeclared`, also finds the inputs in the deps log that edges do not
/// declare.
///
/// # Errors
///
/// A fault of the manifest, of a dyndep file or of the deps log, or a dependency cycle by the
/// inputs that builds discovered; or an allocation failed.
#[inline(never)]
pub fn known_graph<S: FileSource, B: FileSource, T: FileTimes>(
    alloc: Global,
    files: &mut S,
    built: &mut B,
    times: &T,
    asked: &GraphOptions,
    seeks_undeclared: bool,
) -> Result<Box<DiscoveredGraph>, Failure>
    ensures known { IfOk result (λ known. KnowsGraph (asked_graph asked.now) seeks_undeclared
        (T.times times.now) (sources_of (S.state files.old) (B.state built.old))
        (sources_of (S.state files.new) (B.state built.new)) known.value) }
    ensures stated { IfOk result (λ known. HasStatements known.value.graph) }
    ensures edges { IfOk result (λ known. HasEdges known.value) }
    ensures lacks { IfErr result (FailsBy Fault (LacksGraph (asked_graph asked.now)
        (T.times times.now) (sources_of (S.state files.old) (B.state built.old))
        (sources_of (S.state files.new) (B.state built.new)))) }
{
    let read = match read_manifest(alloc, files, times, asked) {
        Ok(read) => read,
        Err(failure) => return Err(failure),
    };
    let keys = files.hash_keys();
    match known_by(alloc, read, keys, built, times, asked, seeks_undeclared) {
        Ok(known) => Ok(Box::new(alloc, known)?),
        Err(failure) => Err(failure),
    }
}

/// A manifest with the dyndep files that were joined, and how many implicit inputs it has for each
/// edge without them.
#[derive(Drop)]
struct ReadManifest {
    loaded: Box<Loaded>,
    stated_inputs: Vec<usize>,
}

/// The main file and all that it includes; with `--dyndep` joined with all dyndep files, and where
/// discovered inputs are requested, with the dyndep files that are present.
#[inline(never)]
fn read_manifest<S: FileSource, T: FileTimes>(
    alloc: Global,
    files: &mut S,
    times: &T,
    asked: &GraphOptions,
) -> Result<ReadManifest, Failure>
    ensures reads { IfOk result (λ read. ReadsManifest (asked_graph asked.now)
        (T.times times.now) (S.state files.old) (S.state files.new) (Ok read.loaded.value)) }
    ensures stated { IfOk result (λ read. AreStatedInputs (asked_graph asked.now)
        (S.state files.old) read.stated_inputs.items) }
    ensures lacks { IfErr result (FailsBy Fault (LacksManifest (asked_graph asked.now)
        (T.times times.now) (S.state files.old) (S.state files.new))) }
{
    let loaded = match load_main(alloc, files, &asked.file) {
        Ok(loaded) => loaded,
        Err(failure) => return Err(failure),
    };
    let stated_inputs = implicit_counts(alloc, loaded.graph())?;
    match with_dyndeps(alloc, files, times, asked, loaded) {
        Ok(loaded) => Ok(read_manifest_of(alloc, loaded, stated_inputs)?),
        Err(fault) => Err(Failure::of_fault(alloc, &fault)),
    }
}

/// The manifest that was read, on the heap.
fn read_manifest_of(
    alloc: Global,
    loaded: Loaded,
    stated_inputs: Vec<usize>,
) -> Result<ReadManifest, AllocError>
    ensures loaded { IfOk result (λ read. read.loaded.value ≡ loaded) }
    ensures stated { IfOk result (λ read. read.stated_inputs ≡ stated_inputs) }
{
    let loaded = boxed(alloc, loaded)?;
    Ok(ReadManifest {
        loaded,
        stated_inputs,
    })
}

/// How many implicit inputs each edge has, by number.
fn implicit_counts(alloc: Global, graph: &EdgeGraph) -> Result<Vec<usize>, AllocError>
    ensures { IfOk result (λ counts. counts.items ≡ implicit_counts graph.now.edges) }
{
    let mut counts = Vec::new(alloc);
    'edges: for number in 0..graph.edge_count() {
        counts.push(graph.implicit_input_files(EdgeNo(number)).len())?;
    }
    Ok(counts)
}

/// The main file and all that it includes. Included files are read by recursion, so few functions
/// are above this call, and none of them has a graph on the stack.
#[inline(never)]
fn load_main<S: FileSource>(
    alloc: Global,
    files: &mut S,
    main: &str,
) -> Result<Box<Loaded>, Failure>
    ensures loads { IfOk result (λ loaded.
        Loads main.now (S.state files.old) (S.state files.new) (Ok loaded.value)) }
    ensures lacks { IfErr result (FailsBy Fault
        (LacksMain main.now (S.state files.old) (S.state files.new))) }
{
    match load(alloc, files, main) {
        Ok(loaded) => Ok(boxed(alloc, loaded)?),
        Err(fault) => Err(Failure::of_fault(alloc, &fault)),
    }
}

/// The loaded files on the heap.
#[inline(never)]
fn boxed(alloc: Global, loaded: Loaded) -> Result<Box<Loaded>, AllocError>
    ensures { IfOk result (λ at. at.value ≡ loaded) }
{
    Ok(Box::new(alloc, loaded)?)
}

/// The loaded files with the dyndep files that the options request.
#[inline(never)]
fn with_dyndeps<S: FileSource, T: FileTimes>(
    alloc: Global,
    files: &mut S,
    times: &T,
    asked: &GraphOptions,
    loaded: Box<Loaded>,
) -> Result<Loaded, GraphFault>
    ensures { (before : SourceState)
        → Loads (string_bytes asked.now.file) before (S.state files.old) (Ok loaded.value)
        → ReadsManifest (asked_graph asked.now) (T.times times.now) before (S.state files.new)
        result }
{
    let loaded = Box::into_inner(loaded);
    if asked.dyndep {
        return join_dyndeps(alloc, loaded, files);
    }
    if asks_discovered(asked) {
        return join_present_dyndeps(alloc, loaded, files, times);
    }
    Ok(loaded)
}

/// Whether the inputs that builds discovered are requested.
fn asks_discovered(asked: &GraphOptions) -> bool
    ensures { result ≡ asks_discovered (asked_graph asked.now) }
{
    asked.deps || asked.log.is_some()
}

/// The path of the deps log that the options name, if any.
fn named_log(asked: &GraphOptions) -> Option<&str>
    ensures { option_copied result ≡ (asked_graph asked.now).log }
{
    match &asked.log {
        Some(path) => Some(path.as_str()),
        None => None,
    }
}

/// The graph of the loaded files, with what builds discovered if that is requested.
#[inline(never)]
fn known_by<B: FileSource, T: FileTimes>(
    alloc: Global,
    read: ReadManifest,
    keys: HashKeys,
    built: &mut B,
    times: &T,
    asked: &GraphOptions,
    seeks_undeclared: bool,
) -> Result<DiscoveredGraph, Failure>
    ensures known { (old new : SourceState) → ReadsManifest (asked_graph asked.now)
        (T.times times.now) old new (Ok read.loaded.value)
        → AreStatedInputs (asked_graph asked.now) old read.stated_inputs.items
        → IfOk result (KnowsGraph (asked_graph asked.now) seeks_undeclared (T.times times.now)
        (sources_of old (B.state built.old)) (sources_of new (B.state built.new))) }
    ensures edges { IfOk result HasEdges }
    ensures lacks { (old new : SourceState) → ReadsManifest (asked_graph asked.now)
        (T.times times.now) old new (Ok read.loaded.value)
        → IfErr result (FailsBy Fault (LacksGraph (asked_graph asked.now) (T.times times.now)
        (sources_of old (B.state built.old)) (sources_of new (B.state built.new)))) }
{
    let ReadManifest {
        loaded,
        stated_inputs,
    } = read;
    let graph = Box::into_inner(loaded).into_graph();
    if asks_discovered(asked) {
        let named = named_log(asked);
        return match with_log(alloc, graph, keys, built, times, named, seeks_undeclared) {
            Ok(known) => Ok(with_stated_inputs(known, stated_inputs)),
            Err(failure) => Err(failure),
        };
    }
    let known = undiscovered(alloc, graph, keys);
    Ok(with_stated_inputs(known, stated_inputs))
}

/// A graph with the counts of the implicit inputs that the manifest itself has.
fn with_stated_inputs(known: DiscoveredGraph, stated_inputs: Vec<usize>) -> DiscoveredGraph
    ensures { result ≡ record known { stated_inputs = stated_inputs } }
{
    let mut known = known;
    known.stated_inputs = stated_inputs;
    known
}

/// A graph with what builds discovered, by the named deps log or Ninja's own.
#[inline(never)]
fn with_log<B: FileSource, T: FileTimes>(
    alloc: Global,
    graph: Graph,
    keys: HashKeys,
    built: &mut B,
    times: &T,
    named: Option<&str>,
    seeks_undeclared: bool,
) -> Result<DiscoveredGraph, Failure>
    ensures known { (stated : List ReadStatement) → IsGraphOf graph stated
        → IfOk result (KnowsByLog (option_copied named.entry) seeks_undeclared
        (B.state built.old) (B.state built.new) (T.times times.now) stated) }
    ensures edges { IfOk result HasEdges }
    ensures lacks { (stated : List ReadStatement) → IsGraphOf graph stated
        → IfErr result (FailsBy Fault (LacksByLog (option_copied named.entry)
        (B.state built.old) (B.state built.new) (T.times times.now) stated)) }
{
    match read_log(alloc, built, &graph, named) {
        Ok(log) => with_log_read(alloc, graph, keys, log, built, times, seeks_undeclared),
        Err(failure) => Err(failure),
    }
}

/// The same, by a log that was read.
#[inline(never)]
fn with_log_read<B: FileSource, T: FileTimes>(
    alloc: Global,
    graph: Graph,
    keys: HashKeys,
    log: ReadLog,
    built: &mut B,
    times: &T,
    seeks_undeclared: bool,
) -> Result<DiscoveredGraph, Failure>
    ensures joins { (stated : List ReadStatement) → IsGraphOf graph stated
        → IfOk result (Discovers (B.state built.old) (B.state built.new) (T.times times.now)
        log.log log.caveat.items stated) }
    ensures undeclared { (stated : List ReadStatement) → IsGraphOf graph stated
        → IfOk result (λ known. FindsUndeclared seeks_undeclared log.log stated
        (undeclared_in known)) }
    ensures edges { IfOk result HasEdges }
    ensures lacks { (stated : List ReadStatement) → IsGraphOf graph stated
        → IfErr result (FailsBy Fault (LacksDiscovered (string_bytes log.path)
        (B.state built.old) (B.state built.new) (T.times times.now) log.log stated)) }
{
    let undeclared = undeclared_of(alloc, &graph, &log.log, seeks_undeclared)?;
    discover(alloc, graph, log, undeclared, built, times, keys)
}

/// A graph without the inputs that builds discovered.
fn undiscovered(alloc: Global, graph: Graph, keys: HashKeys) -> DiscoveredGraph
    ensures declared { IsDeclared graph result }
    ensures edges { HasEdges result }
{
    DiscoveredGraph {
        graph,
        has_discovered: false,
        unknown: Vec::new(alloc),
        faults: Vec::new(alloc),
        discoveries: Vec::new(alloc),
        stated_inputs: Vec::new(alloc),
        caveats: Vec::new(alloc),
        undeclared: Vec::new(alloc),
        keys,
    }
}

/// The inputs in the deps log that edges do not declare, if they are requested.
#[inline(never)]
fn undeclared_of(
    alloc: Global,
    graph: &Graph,
    log: &DepsLog,
    seeks_undeclared: bool,
) -> Result<Vec<UndeclaredInput>, AllocError>
    ensures found { OfStatements graph.now (λ stated. IfOk result (λ inputs.
        FindsUndeclared seeks_undeclared log.now stated
        (map (input_of_edge (files_of graph.now)) inputs.items))) }
    ensures of { IfOk result (λ inputs. AreInputsIn graph.now inputs.items) }
{
    if seeks_undeclared {
        return undeclared_inputs(alloc, graph, log);
    }
    Ok(Vec::new(alloc))
}

/// The graph with the inputs that builds discovered, by the deps log, depfiles and times, and with
/// the given undeclared inputs.
#[inline(never)]
fn discover<B: FileSource, T: FileTimes>(
    alloc: Global,
    graph: Graph,
    log: ReadLog,
    undeclared: Vec<UndeclaredInput>,
    built: &mut B,
    times: &T,
    keys: HashKeys,
) -> Result<DiscoveredGraph, Failure>
    requires { AreInputsIn graph undeclared.items }
    ensures joins { (stated : List ReadStatement) → IsGraphOf graph stated
        → IfOk result (Discovers (B.state built.old) (B.state built.new) (T.times times.now)
        log.log log.caveat.items stated) }
    ensures undeclared { IfOk result (λ known.
        undeclared_in known ≡ map (input_of_edge (files_of graph)) undeclared.items) }
    ensures edges { IfOk result HasEdges }
    ensures lacks { (stated : List ReadStatement) → IsGraphOf graph stated
        → IfErr result (FailsBy Fault (LacksDiscovered (string_bytes log.path)
        (B.state built.old) (B.state built.new) (T.times times.now) log.log stated)) }
{
    let ReadLog { path, log, caveat } = log;
    match with_discovered(alloc, graph, &log, built, times) {
        Ok(discovered) => Ok(with_doubts(alloc, discovered, caveat, undeclared, keys)?),
        Err(fault) => Err(of_discovered(alloc, &path, &fault)),
    }
}

/// A graph with discovered inputs, and what is not known of the inputs and of the deps log.
fn with_doubts(
    alloc: Global,
    discovered: Discovered,
    caveat: Vec<u8>,
    undeclared: Vec<UndeclaredInput>,
    keys: HashKeys,
) -> Result<DiscoveredGraph, AllocError>
    ensures is { IfOk result (IsDiscovered discovered caveat.items) }
    ensures undeclared { IfOk result (λ known. known.undeclared ≡ undeclared) }
{
    let Discovered { graph, doubts } = discovered;
    let Doubts {
        edges,
        faults,
        lines,
        discoveries,
    } = doubts;
    let mut caveats = caveat;
    caveats.extend_from_slice(&lines)?;
    Ok(DiscoveredGraph {
        graph,
        has_discovered: true,
        unknown: edges,
        faults,
        discoveries,
        stated_inputs: Vec::new(alloc),
        caveats,
        undeclared,
        keys,
    })
}

/// The failure where the inputs of the deps log at a path and of depfiles do not form a graph.
fn of_discovered(alloc: Global, path: &str, fault: &GraphFault) -> Failure
    ensures { FailsBy Fault (λ line. line ≡ discovered_line path.now fault.now) result }
{
    if matches!(fault.cause, Cause::OutOfMemory) {
        return Failure::OutOfMemory;
    }
    match discovered_text(alloc, path, fault) {
        Ok(text) => refused(text, Status::Fault),
        Err(_) => Failure::OutOfMemory,
    }
}

/// The text of that failure.
fn discovered_text(alloc: Global, path: &str, fault: &GraphFault) -> Result<Vec<u8>, AllocError>
    ensures { IfOk result (λ text. line text.items ≡ discovered_line path.now fault.now) }
{
    let mut text = fault.line_for(alloc, "ninja-graph")?;
    let by = format!(in alloc; ", by the inputs of {path} and of depfiles")?;
    text.extend_from_slice(by.as_bytes())?;
    Ok(text)
}
