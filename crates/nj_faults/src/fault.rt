//! Why files do not make a graph, or why a request about their graph has no answer.

ghost use Rattle.std.specs.Prelude.{◌≡◌, Some, IfOk, nat_eq};
ghost use Rattle.std.specs.Cmp.{partial_equiv_from_equiv};
ghost use Rattle.std.specs.Cmp.Lexicographic.{nat_list_eq_equiv, pointwise};
ghost use Rattle.nj_manifest.specs.Faults.{named_by};
ghost use Rattle.nj_manifest.specs.Faults as parsed;
ghost use Rattle.nj_faults.specs.Faults.{IsFault, fault_at, fault_in, no_memory, unplaced};

use nj_manifest::{ParseFault, Spot, SyntaxCause};
use std::alloc::{AllocError, AllocFailed, Global};
use std::convert::AsSlice;
use std::marker::Model;

/// A name, a path or a text, as its bytes, which need not be UTF-8.
#[derive(Debug, Drop)]
pub struct Name {
    bytes: Vec<u8>,
}

impl Model for Name {
    ghost use Rattle.std.specs.Prelude.{ℕ, List};

    ghost Value = { List ℕ };

    ghost view = { λ name. name.bytes.items };
}

impl Name {
    /// A name of the given bytes.
    pub fn new(alloc: Global, bytes: &[u8]) -> Result<Name, AllocError>
        ensures { IfOk result (λ name. name ≡ bytes.now) }
    {
        let bytes = Vec::from_slice(alloc, bytes)?;
        Ok(Name { bytes })
    }

    /// Its bytes.
    pub fn as_bytes(&self) -> &[u8]
        ensures { result.now ≡ self.now }
    {
        self.bytes.as_slice()
    }
}

impl AsSlice<u8> for Name {
    ghost items = { λ name. name };

    fn as_slice(&self) -> &[u8] {
        self.as_bytes()
    }
}

impl From<Vec<u8>> for Name {
    ghost from_gives = { λ bytes name. name ≡ bytes.items };

    fn from(bytes: Vec<u8>) -> Name {
        Name { bytes }
    }
}

impl PartialEq for Name {
    ghost eq = { pointwise nat_eq };

    ghost laws = { partial_equiv_from_equiv nat_list_eq_equiv };

    fn eq(&self, other: &Name) -> bool {
        self.as_bytes() == other.as_bytes()
    }
}

impl Eq for Name {
    ghost laws = { nat_list_eq_equiv };
}

/// A place in a file.
#[derive(Debug, PartialEq, Eq, Drop)]
pub struct Place {
    /// The name under which the file was opened: the main file's name as given, another file's as
    /// in the statement that names it.
    pub file: Name,
    pub spot: Spot,
}

/// A place in a file whose name is lent.
#[derive(Clone, Copy, Debug, PartialEq, Eq)]
pub struct PlaceRef<'a> {
    /// The name under which the file was opened.
    pub file: &'a [u8],
    pub spot: Spot,
}

impl PlaceRef<'_> {
    /// The place, with a copy of the name.
    pub fn to_place(self, alloc: Global) -> Result<Place, AllocError>
        ensures { IfOk result (λ place. place
            ≡ record { file = self.entry.file.now; spot = self.entry.spot }) }
    {
        let file = Name::new(alloc, self.file)?;
        Ok(Place {
            file,
            spot: self.spot,
        })
    }

    /// The fault of this cause at the place; out of memory if the name could not be copied.
    pub fn fault(self, alloc: Global, cause: Cause) -> GraphFault
        ensures { IsFault (Some (fault_at self.entry.file.now self.entry.spot cause)) result }
    {
        match self.to_place(alloc) {
            Ok(place) => GraphFault {
                place: Some(place),
                cause,
            },
            Err(_) => GraphFault::out_of_memory(),
        }
    }
}

/// The cause of a fault.
#[derive(Debug, PartialEq, Eq, Drop)]
pub enum Cause {
    /// The text of a file is not a list of statements, or not of those of a dyndep file.
    Syntax(SyntaxCause<Name>),
    /// A path that is empty once its variables are expanded.
    EmptyPath,
    /// A depth that is not a number, or greater than 2147483647.
    BadDepth,
    /// A second rule with the same name in a scope, or a rule named `phony`.
    DuplicateRule(Name),
    /// A second pool with the same name, or a pool named `console`.
    DuplicatePool(Name),
    /// `ninja_required_version` requires this version, which is newer than 1.12.
    VersionTooNew(Name),
    /// No file is at the path.
    Missing(Name),
    /// The path of an `include` or `subninja` is not UTF-8.
    PathNotText,
    /// More than [`MOST_OPEN`](crate::MOST_OPEN) files would be open at once.
    TooDeep,
    /// More than [`MOST_OPENED`](crate::MOST_OPENED) files would be opened in one run.
    TooManyOpenings,
    /// The file at the path exists, or may exist, and reading it failed.
    Io(Name),
    /// A rule that no scope declares, at its name ("Build statements").
    UnknownRule(Name),
    /// A path that two build statements make, or that is repeated in the outputs of one, at the
    /// second word that names it ("Build outputs").
    TwoMakers(Name),
    /// A path that no build statement names: at the word of a `default` statement ("Default target
    /// statements"), or without a place for a requested path.
    UnknownTarget(Name),
    /// A variable of a rule whose value for an edge refers to itself, directly or through others,
    /// at the build statement ("Rule variables").
    RuleVariableCycle(Name),
    /// A pool that no statement declares, at the build statement that uses it ("Pools").
    UnknownPool(Name),
    /// A dyndep file that is not an input of its edge, at the build statement ("Dynamic
    /// Dependencies").
    DyndepNotInput(Name),
    /// An edge that its dyndep file does not mention, at its build statement: its first output, and
    /// the path of the dyndep file ("Dynamic Dependencies").
    DyndepNoStatement(Name, Name),
    /// A path whose build statement has an earlier entry already, at the word of the dyndep file.
    DyndepTwice(Name),
    /// A path that no build statement bound to this dyndep file makes, at the word of the dyndep
    /// file.
    DyndepExtra(Name),
    /// A path on a dependency cycle, at the build statement that makes it ("Build statements").
    Cycle(Name),
    /// A file that no build statement has as an input, where the first output made from it was
    /// requested ("Running Ninja"); the fault has no place.
    NoOutEdge(Name),
    /// A command or a path that JSON cannot contain, at the build statement of its edge ("Extra
    /// tools").
    TextNotUtf8,
    /// An allocation failed; the fault has no place.
    OutOfMemory,
}

// The cause, with a copy of its name.
fn owned(alloc: Global, cause: SyntaxCause<&[u8]>) -> Result<SyntaxCause<Name>, AllocError>
    ensures { IfOk result (λ made. made ≡ named_by (λ key. key.now) cause.entry) }
{
    cause.try_map(|key| Name::new(alloc, key))
}

/// The first fault of a run: of its files in reading order, else of the request about their graph.
#[derive(Debug, PartialEq, Eq, Drop)]
pub struct GraphFault {
    /// `None` if the fault has no location.
    pub place: Option<Place>,
    pub cause: Cause,
}

impl GraphFault {
    /// The fault that the parser of the file returned.
    pub fn of_text(
        alloc: Global,
        file: &str,
        fault: ParseFault<'_>,
    ) -> Result<GraphFault, AllocError>
        ensures { IfOk result (λ f. f ≡ fault_in file.now (parsed.fault_text fault.entry)) }
    {
        let (Some(spot), Some(cause)) = (fault.spot(), fault.cause()) else {
            return Ok(GraphFault::out_of_memory());
        };
        let cause = owned(alloc, cause)?;
        let file = file.as_bytes();
        let place = PlaceRef { file, spot }.to_place(alloc)?;
        Ok(GraphFault {
            place: Some(place),
            cause: Cause::Syntax(cause),
        })
    }

    /// A fault of this cause without a location.
    pub fn unplaced(cause: Cause) -> GraphFault
        ensures { result ≡ unplaced cause }
    {
        GraphFault { place: None, cause }
    }

    /// Out of memory.
    pub fn out_of_memory() -> GraphFault
        ensures { result ≡ no_memory }
    {
        GraphFault::unplaced(Cause::OutOfMemory)
    }
}

impl From<AllocError> for GraphFault {
    ghost from_gives = { λ _ e. e ≡ no_memory };

    fn from(_e: AllocError) -> GraphFault {
        GraphFault::out_of_memory()
    }
}

impl<T: Drop> From<AllocFailed<T>> for GraphFault {
    ghost from_gives = { λ _ e. e ≡ no_memory };

    fn from(_e: AllocFailed<T>) -> GraphFault {
        GraphFault::out_of_memory()
    }
}
