//! The calls of `nj_audit`.

ghost use Rattle.std.specs.Prelude.{◌≡◌, OnOk};
ghost use Rattle.nj_one_answer.specs.Cited.{AgreeBoth, AgreeIfOk, OfEdge, OfStatements, SameKinds, edge_of};

use nj_audit::{Findings, Kind, Kinds};
use nj_graph::{Edge, Graph, PlaceRef, UndeclaredInput};
use std::alloc::{AllocError, Global};

/// For a graph of statements. Free: whether memory lacks.
pub fn audit<'a>(
    alloc: Global,
    graph: &'a Graph,
    missing: &[bool],
    folder: &[u8],
    logged: &[UndeclaredInput],
    kinds: Kinds,
) -> (
    Result<Findings<'a>, AllocError>,
    Result<Findings<'a>, AllocError>,
)
    ensures { OfStatements graph.now (λ entries.
        AgreeIfOk (λ one other. one ≡ other) result.0 result.1) }
{
    (
        nj_audit::audit(alloc, graph, missing, folder, logged, kinds),
        nj_audit::audit(alloc, graph, missing, folder, logged, kinds),
    )
}

/// Free: whether memory lacks, and what the findings are then.
pub fn findings_push<'a>(
    one: &mut Findings<'a>,
    other: &mut Findings<'a>,
    place: PlaceRef<'a>,
    kind: Kind,
    name: &'a [u8],
) -> (Result<(), AllocError>, Result<(), AllocError>)
    requires { one.old ≡ other.old }
    ensures { OnOk result.0 (OnOk result.1 (one.new ≡ other.new)) }
{
    (one.push(place, kind, name), other.push(place, kind, name))
}

/// Free: whether memory lacks, and what the findings are then.
pub fn findings_push_at<'a>(
    one: &mut Findings<'a>,
    other: &mut Findings<'a>,
    edge: Edge<'a>,
    kind: Kind,
    name: &'a [u8],
) -> (Result<(), AllocError>, Result<(), AllocError>)
    requires { one.old ≡ other.old }
    ensures { OnOk result.0 (OnOk result.1 (one.new ≡ other.new)) }
{
    (
        one.push_at(edge, kind, name),
        other.push_at(edge, kind, name),
    )
}

/// Free: whether memory lacks, and what the findings are then.
pub fn findings_extend<'a>(
    one: &mut Findings<'a>,
    other: &mut Findings<'a>,
    others: &Findings<'a>,
) -> (Result<(), AllocError>, Result<(), AllocError>)
    requires { one.old ≡ other.old }
    ensures { OnOk result.0 (OnOk result.1 (one.new ≡ other.new)) }
{
    (one.extend(others), other.extend(others))
}

/// For a graph of statements. Free: whether memory lacks.
pub fn has_generator<'g>(
    alloc: Global,
    edge: Edge<'g>,
) -> (Result<bool, AllocError>, Result<bool, AllocError>)
    ensures { OfEdge (edge_of edge.entry) (λ entries number.
        AgreeIfOk (λ one other. one ≡ other) result.0 result.1) }
{
    (
        nj_audit::has_generator(alloc, edge),
        nj_audit::has_generator(alloc, edge),
    )
}

/// Nothing is free.
pub fn kinds_from_words<'a>(
    all: bool,
    only: &[&'a str],
    except: &[&'a str],
) -> (Result<Kinds, &'a str>, Result<Kinds, &'a str>)
    ensures { AgreeBoth SameKinds (λ one other. one.now ≡ other.now) result.0 result.1 }
{
    (
        Kinds::from_words(all, only, except),
        Kinds::from_words(all, only, except),
    )
}
