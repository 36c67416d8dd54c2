//! Findings and their places.

ghost use Rattle.std.specs.Prelude.{◌≡◌, [], ◌∷◌, ◌++◌, OnOk, map};
ghost use Rattle.nj_audit.specs.Cited.{edge_of, place_text, finding_model, edge_finding};

use crate::kinds::Kind;
use nj_graph::{Edge, PlaceRef};
use std::alloc::{AllocError, Global};
use std::marker::Model;

/// A finding at the statement of a place, and the name that it is about.
#[derive(Clone, Copy)]
pub struct Finding<'a> {
    pub place: PlaceRef<'a>,
    pub kind: Kind,
    pub name: &'a [u8],
}

/// Findings about a manifest.
#[derive(Drop)]
pub struct Findings<'a> {
    list: Vec<Finding<'a>>,
}

impl<'a> Model for Findings<'a> {
    ghost use Rattle.std.specs.Prelude.{List, map};
    ghost use Rattle.nj_audit.specs.Findings.{FindingModel, finding_model};

    ghost Value = { List FindingModel };

    ghost view = { λ f. map finding_model f.list.items };
}

impl<'a> Findings<'a> {
    /// Returns an empty list of findings.
    pub fn new(alloc: Global) -> Findings<'a>
        ensures { result ≡ [] }
    {
        Findings {
            list: Vec::new(alloc),
        }
    }

    /// Returns all findings, in order.
    pub fn as_slice(&self) -> &[Finding<'a>]
        ensures { map finding_model result.now ≡ self.now }
    {
        self.list.as_slice()
    }

    /// Appends a finding at the statement of a place.
    pub fn push(
        &mut self,
        place: PlaceRef<'a>,
        kind: Kind,
        name: &'a [u8],
    ) -> Result<(), AllocError>
        ensures { OnOk result (self.new ≡ self.old ++ record {
          place = place_text place.entry;
          kind = kind;
          name = name.entry.now;
        } ∷ []) }
    {
        self.list.push(Finding { place, kind, name })?;
        Ok(())
    }

    /// Appends a finding at the statement of an edge.
    pub fn push_at(&mut self, edge: Edge<'a>, kind: Kind, name: &'a [u8]) -> Result<(), AllocError>
        ensures { OnOk result (self.new ≡ self.old ++ edge_finding (edge_of edge.entry).graph
            (edge_of edge.entry).number kind name.entry.now ∷ []) }
    {
        self.push(edge.place(), kind, name)
    }

    /// Appends all findings of another list.
    pub fn extend(&mut self, others: &Findings<'a>) -> Result<(), AllocError>
        ensures { OnOk result (self.new ≡ self.old ++ others.now) }
    {
        self.list.extend_from_slice(&others.list)?;
        Ok(())
    }
}
