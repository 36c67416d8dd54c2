//! The keys of commands, in pages.

ghost use Rattle.std.specs.Prelude.{◌≡◌, ◌≢◌, ◌<◌, ◌++◌, ◌∷◌, [], true, false, None, Ok, Some, All, IfErr, IfOk, OnOk, length, map, not, option_copied, string_bytes, codes};
ghost use Rattle.nj_needs.specs.MarkFaults.{fault_text};
ghost use Rattle.nj_ask.specs.Cited.{Fault, Usage, OfStatements, clean_path_of, edges_of, edges_stated, is_absolute, is_empty, given_mark, leads, caveat_text, mark_line, program_line, AnswersAllKeys, AnswersKeys, AnswersTargetKeys, all_misuse, keys_text, single_base, FailsBy, Gives, IsPageOf, SaysErr, asked_mark, asked_targets, base_misuse, keys_misuse, keys_model, mark_misuse};

use crate::answer::Answer;
use crate::depfiles::check_depfiles;
use crate::discovered::DiscoveredGraph;
use crate::failure::Failure;
use crate::key_objects::key_objects;
use crate::pages::mark_line;
use crate::shape::caveat_lines;
use crate::status::Status;
use crate::test_options::misuse;
use nj_graph::FileList;
use nj_keys::{Bases, EdgeKey, KeyPage, all_keys, key_lines, keys_from};
use nj_needs::{Mark, MarkFault};
use nj_questions::KeysOptions;
use nj_tools::EdgeDiscovery;
use std::alloc::{AllocError, Global};

/// What the options of `keys` specify before any file is read.
#[derive(Drop)]
pub(crate) struct PageAsked {
    /// The directories that numbers stand for.
    pub bases: Bases,
    /// Where the page begins.
    pub mark: Mark,
}

// ---- the options

/// The bases and the mark of the options; by default the mark of the start.
pub(crate) fn page_asked(alloc: Global, options: &KeysOptions) -> Result<PageAsked, Failure>
    ensures allowed { IfOk result (λ _. keys_misuse (keys_model options.now) ≡ None) }
    ensures bases { IfOk result (λ asked.
        asked.bases ≡ map clean_path_of (keys_model options.now).bases) }
    ensures mark { IfOk result (λ asked.
        asked_mark (keys_model options.now) ≡ Some asked.mark) }
    ensures refused { IfErr result (FailsBy Usage
        (λ line. keys_misuse (keys_model options.now) ≡ Some line)) }
{
    let bases = match bases_of(alloc, &options.bases) {
        Ok(bases) => bases,
        Err(failure) => return Err(failure),
    };
    match check_all(alloc, options) {
        Ok(()) => {}
        Err(failure) => return Err(failure),
    }
    let text = match &options.resume {
        Some(text) => text.as_str(),
        None => "start",
    };
    match mark_of(alloc, text) {
        Ok(mark) => Ok(PageAsked { bases, mark }),
        Err(failure) => Err(failure),
    }
}

/// Refuses what `--all` excludes.
fn check_all(alloc: Global, options: &KeysOptions) -> Result<(), Failure>
    ensures allowed { IfOk result (λ _. all_misuse (keys_model options.now) ≡ None) }
    ensures refused { IfErr result (FailsBy Usage
        (λ line. all_misuse (keys_model options.now) ≡ Some line)) }
{
    if options.all && has_words(&options.targets) {
        return Err(misuse(alloc, b"--all excludes targets"));
    }
    if options.all && options.take.is_some() {
        return Err(misuse(alloc, b"--all excludes --take"));
    }
    if options.all && options.resume.is_some() {
        return Err(misuse(alloc, b"--all excludes --resume"));
    }
    Ok(())
}

/// Whether there are any words.
fn has_words(words: &[String]) -> bool
    ensures { result ≡ not (is_empty (map string_bytes words.now)) }
{
    matches!(words, [_, ..])
}

/// The directories at the given paths, which have to be absolute.
pub(crate) fn bases_of(alloc: Global, paths: &[String]) -> Result<Bases, Failure>
    ensures bases { IfOk result (λ bases.
        bases ≡ map clean_path_of (map string_bytes paths.now)) }
    ensures absolute { IfOk result (λ _. base_misuse (map string_bytes paths.now) ≡ None) }
    ensures refused { IfErr result (FailsBy Usage
        (λ line. base_misuse (map string_bytes paths.now) ≡ Some line)) }
{
    let mut bases = Bases::new(alloc);
    'paths: for path in paths {
        match add_base(alloc, &mut bases, path.as_bytes()) {
            Ok(()) => {}
            Err(failure) => return Err(failure),
        }
    }
    Ok(bases)
}

/// Adds the directory at a path, which has to be absolute.
fn add_base(alloc: Global, bases: &mut Bases, path: &[u8]) -> Result<(), Failure>
    ensures added { OnOk result (bases.new ≡ bases.old ++ clean_path_of path.now ∷ []) }
    ensures absolute { IfOk result (λ _. is_absolute path.now ≡ true) }
    ensures refused { IfErr result (FailsBy Usage (λ line. (is_absolute path.now ≡ false)
        × (line ≡ program_line
        (codes "'" ++ path.now ++ codes "' of --base is not absolute")))) }
{
    if bases.add(alloc, path)? {
        return Ok(());
    }
    Err(Failure::in_words(
        alloc,
        b"'",
        path,
        b"' of --base is not absolute",
        Status::Usage,
    ))
}

/// The mark in a text.
fn mark_of(alloc: Global, text: &str) -> Result<Mark, Failure>
    ensures mark { IfOk result (λ mark. given_mark text.now ≡ Some mark) }
    ensures refused { IfErr result (FailsBy Usage (λ line.
        mark_misuse text.now (given_mark text.now) ≡ Some line)) }
{
    match Mark::read(alloc, text) {
        Ok(mark) => Ok(mark),
        Err(fault) => Err(unread_mark(alloc, text, fault)),
    }
}

/// The refusal of a text that cannot be read as a mark.
fn unread_mark(alloc: Global, text: &str, fault: MarkFault) -> Failure
    ensures { FailsBy Usage (λ line. (fault ≢ MarkFault.OutOfMemory)
        × (line ≡ program_line (codes "bad mark '" ++ text.now ++ codes "'"))) result }
{
    match fault {
        MarkFault::BadMark | MarkFault::MarkOutOfRange => {
            Failure::in_words(alloc, b"bad mark '", text.as_bytes(), b"'", Status::Usage)
        }
        MarkFault::OutOfMemory => Failure::OutOfMemory,
    }
}

/// The failure for a mark with the given fault.
fn mark_failure(alloc: Global, fault: MarkFault, status: Status) -> Failure
    ensures { FailsBy status (λ line. (fault ≢ MarkFault.OutOfMemory)
        × (line ≡ program_line (fault_text fault))) result }
{
    match fault {
        MarkFault::BadMark => Failure::in_words(alloc, b"", b"bad mark", b"", status),
        MarkFault::MarkOutOfRange => {
            Failure::in_words(alloc, b"", b"mark out of range", b"", status)
        }
        MarkFault::OutOfMemory => Failure::OutOfMemory,
    }
}

// ---- the keys

/// The keys that the options request. `contents` are the additions for the contents of files.
pub(crate) fn answer_keys(
    alloc: Global,
    known: &DiscoveredGraph,
    options: &KeysOptions,
    contents: &[Vec<u8>],
    asked: &PageAsked,
) -> Result<Answer, Failure>
    requires { asked.now.bases ≡ map clean_path_of (keys_model options.now).bases }
    ensures { OfStatements known.now.graph (λ entries.
        Gives (AnswersKeys known.now entries (keys_model options.now)
        (map (λ content. content.items) contents.now) asked.now.mark) result) }
{
    if options.all {
        answer_all_keys(alloc, known, options, contents, &asked.bases)
    } else {
        answer_target_keys(alloc, known, options, contents, asked)
    }
}

/// The keys of all commands.
fn answer_all_keys(
    alloc: Global,
    known: &DiscoveredGraph,
    options: &KeysOptions,
    contents: &[Vec<u8>],
    bases: &Bases,
) -> Result<Answer, Failure>
    requires { bases.now ≡ map clean_path_of (keys_model options.now).bases }
    ensures { OfStatements known.now.graph (λ entries.
        Gives (AnswersAllKeys known.now entries (keys_model options.now)
        (map (λ content. content.items) contents.now)) result) }
{
    if let Some(fault) = known.faults.first() {
        return Err(Failure::in_words(alloc, b"", &fault.text, b"", Status::Fault));
    }
    let additions = additions_of(alloc, &options.additions, contents)?;
    let counts = stated_counts(alloc, &known.discoveries)?;
    let keys = all_keys(alloc, &known.graph, bases, &additions, &counts)?;
    Ok(keys_answer(alloc, known, options, &counts, &keys, None)?)
}

/// The page that the options request of the keys of the commands that targets need.
fn answer_target_keys(
    alloc: Global,
    known: &DiscoveredGraph,
    options: &KeysOptions,
    contents: &[Vec<u8>],
    asked: &PageAsked,
) -> Result<Answer, Failure>
    requires { asked.now.bases ≡ map clean_path_of (keys_model options.now).bases }
    ensures { OfStatements known.now.graph (λ entries.
        Gives (AnswersTargetKeys known.now entries (keys_model options.now)
        (map (λ content. content.items) contents.now) asked.now.mark) result) }
{
    let targets = match targets_asked(alloc, known, &options.targets) {
        Ok(targets) => targets,
        Err(failure) => return Err(failure),
    };
    match check_depfiles(alloc, known, targets.numbers()) {
        Ok(()) => {}
        Err(failure) => return Err(failure),
    }
    let additions = additions_of(alloc, &options.additions, contents)?;
    let counts = stated_counts(alloc, &known.discoveries)?;
    let page = match page_of(alloc, asked, &additions, &counts, &targets, options.take) {
        Ok(page) => page,
        Err(failure) => return Err(failure),
    };
    let rest = page.mark.as_ref();
    Ok(keys_answer(alloc, known, options, &counts, &page.keys, rest)?)
}

/// The files that words denote; without words, the defaults.
pub(crate) fn targets_asked<'k>(
    alloc: Global,
    known: &'k DiscoveredGraph,
    words: &[String],
) -> Result<FileList<'k>, Failure>
    ensures targets { IfOk result (λ files. asked_targets known.entry.now.graph
        (map string_bytes words.now) ≡ Ok files.paths) }
    ensures of { IfOk result (λ files. files.graph ≡ known.entry.now.graph) }
    ensures refused { IfErr result (FailsBy Fault
        (SaysErr (asked_targets known.entry.now.graph (map string_bytes words.now)))) }
{
    let texts = texts_of(alloc, words)?;
    match known.graph.targets(alloc, &texts) {
        Ok(targets) => Ok(targets),
        Err(fault) => Err(Failure::of_fault(alloc, &fault)),
    }
}

/// The texts of words.
pub(crate) fn texts_of<'w>(alloc: Global, words: &'w [String]) -> Result<Vec<&'w str>, AllocError>
    ensures { IfOk result (λ texts.
        map (λ text. text.now) texts.items ≡ map string_bytes words.entry.now) }
{
    let mut texts = Vec::new(alloc);
    'words: for word in words {
        texts.push(word.as_str())?;
    }
    Ok(texts)
}

/// The additions of texts, and after them those for the contents of files.
fn additions_of<'w>(
    alloc: Global,
    texts: &'w [String],
    contents: &'w [Vec<u8>],
) -> Result<Vec<&'w [u8]>, AllocError>
    ensures { IfOk result (λ additions. map (λ text. text.now) additions.items
        ≡ map string_bytes texts.entry.now
        ++ map (λ content. content.items) contents.entry.now) }
{
    let mut additions = bytes_of(alloc, texts)?;
    push_contents(&mut additions, contents)?;
    Ok(additions)
}

/// Appends the additions for the contents of files.
fn push_contents<'w>(
    additions: &mut Vec<&'w [u8]>,
    contents: &'w [Vec<u8>],
) -> Result<(), AllocError>
    ensures { OnOk result (map (λ text. text.now) additions.new.items
        ≡ map (λ text. text.now) additions.old.items
        ++ map (λ content. content.items) contents.entry.now) }
{
    'contents: for content in contents {
        additions.push(content.as_slice())?;
    }
    Ok(())
}

/// The bytes of words.
fn bytes_of<'w>(alloc: Global, words: &'w [String]) -> Result<Vec<&'w [u8]>, AllocError>
    ensures { IfOk result (λ bytes.
        map (λ text. text.now) bytes.items ≡ map string_bytes words.entry.now) }
{
    let mut bytes = Vec::new(alloc);
    'words: for word in words {
        bytes.push(word.as_bytes())?;
    }
    Ok(bytes)
}

/// How many implicit inputs the manifest itself states for each edge, by number; empty if nothing was
/// joined to its graph.
pub(crate) fn stated_counts(
    alloc: Global,
    discoveries: &[EdgeDiscovery],
) -> Result<Vec<usize>, AllocError>
    ensures { IfOk result (λ counts.
        counts.items ≡ map (λ discovery. discovery.stated_inputs) discoveries.now) }
{
    let mut counts = Vec::new(alloc);
    'edges: for discovery in discoveries {
        counts.push(discovery.stated_inputs)?;
    }
    Ok(counts)
}

/// The page of keys from a mark on, which have additions. `counts` says how many implicit inputs the
/// manifest itself states for each edge.
fn page_of(
    alloc: Global,
    asked: &PageAsked,
    additions: &[&[u8]],
    counts: &[usize],
    targets: &FileList<'_>,
    take: Option<u64>,
) -> Result<KeyPage, Failure>
    ensures page { OfStatements targets.now.graph (λ entries.
        IfOk result (IsPageOf targets.now (edges_stated counts.now (edges_of targets.now.graph))
        entries (map (λ text. text.now) additions.now) asked.now.bases asked.now.mark take)) }
    ensures known { IfOk result (λ page.
        All (λ next. next.edge.0 < length (edges_of targets.now.graph)) page.keys.items) }
    ensures refused { IfErr result (FailsBy Fault
        (λ line. (leads targets.now asked.now.mark ≡ false)
        × (line ≡ program_line (codes "mark out of range")))) }
{
    match keys_from(
        alloc,
        &asked.bases,
        additions,
        counts,
        targets,
        &asked.mark,
        take,
    ) {
        Ok(page) => Ok(page),
        Err(fault) => Err(mark_failure(alloc, fault, Status::Fault)),
    }
}

/// The answer with the given keys, and with the mark of the rest, if any are left. `counts` says how
/// many implicit inputs each edge has without those that builds discovered.
fn keys_answer(
    alloc: Global,
    known: &DiscoveredGraph,
    options: &KeysOptions,
    counts: &[usize],
    keys: &[EdgeKey],
    rest: Option<&Mark>,
) -> Result<Answer, AllocError>
    requires counts { counts.now
        ≡ map (λ discovery. discovery.stated_inputs) known.now.discoveries.items }
    requires keys { All (λ next. next.edge.0 < length (edges_of known.now.graph)) keys.now }
    ensures output { OfStatements known.now.graph (λ entries. IfOk result (λ answer.
        answer.output.items ≡ keys_text known.now entries (keys_model options.now) keys.now)) }
    ensures looks { IfOk result (λ answer. answer.looks ≡ false) }
    ensures warnings { OfStatements known.now.graph (λ entries.
        IfOk result (λ answer. answer.warnings.items
        ≡ mark_line (option_copied rest.entry) ++ caveat_text known.now entries)) }
{
    let output = keys_text(alloc, known, options, counts, keys)?;
    let mut warnings = mark_line(alloc, rest)?;
    warnings.extend_from_slice(&caveat_lines(alloc, known)?)?;
    Ok(Answer {
        output,
        warnings,
        looks: false,
    })
}

/// Keys as text: with `--json` objects, else lines.
fn keys_text(
    alloc: Global,
    known: &DiscoveredGraph,
    options: &KeysOptions,
    counts: &[usize],
    keys: &[EdgeKey],
) -> Result<Vec<u8>, AllocError>
    requires counts { counts.now
        ≡ map (λ discovery. discovery.stated_inputs) known.now.discoveries.items }
    requires keys { All (λ next. next.edge.0 < length (edges_of known.now.graph)) keys.now }
    ensures { OfStatements known.now.graph (λ entries. IfOk result (λ text.
        text.items ≡ keys_text known.now entries (keys_model options.now) keys.now)) }
{
    if !options.json {
        return key_lines(alloc, &known.graph, keys);
    }
    let bases = single_bases(alloc, &options.bases)?;
    key_objects(alloc, known, counts, &bases, keys)
}

/// The directory at each of the given paths by itself.
fn single_bases(alloc: Global, paths: &[String]) -> Result<Vec<Bases>, AllocError>
    ensures { IfOk result (λ bases.
        bases.items ≡ map single_base (map string_bytes paths.now)) }
{
    let mut bases = Vec::new(alloc);
    'paths: for path in paths {
        bases.push(single_base(alloc, path.as_bytes())?)?;
    }
    Ok(bases)
}

/// The directory at a path by itself.
fn single_base(alloc: Global, path: &[u8]) -> Result<Bases, AllocError>
    ensures { IfOk result (λ base. base ≡ single_base path.now) }
{
    let mut base = Bases::new(alloc);
    base.add(alloc, path)?;
    Ok(base)
}
