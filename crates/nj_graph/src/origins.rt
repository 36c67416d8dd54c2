//! The origins of statements: the places of rules and pools, and the files that were opened.

ghost use Rattle.std.specs.Prelude.{◌≡◌, ◌<◌, [], ◌∷◌, ◌++◌, Some, None, length, option_map, slice_get, IfOk, OnOk};
ghost use Rattle.nj_graph.specs.Cited.{IsPrefix, place_text, rule_place_at, opening_model, origins_read, place_held};

use nj_faults::PlaceRef;
use nj_names::{HashKeys, Names};
use nj_scope::{MAIN_SCOPE, RuleNo, ScopeNo};
use nj_text::Spot;
use std::alloc::{AllocError, Global};
use std::marker::Model;

/// An opened file. A file that is opened again counts again.
#[derive(Clone, Copy, Debug, PartialEq, Eq)]
pub struct Opening<'a> {
    /// The path as it was opened: as given for the main file, else as the statement that names the
    /// file expands it.
    pub path: &'a [u8],
    /// The place of the `include` or `subninja` that names it; `None` for the main file.
    pub named_at: Option<PlaceRef<'a>>,
    /// The number of the scope of its statements.
    pub scope: ScopeNo,
}

// A place in a file, with the number of the file's name.
#[derive(Clone, Copy)]
pub(crate) struct HeldPlace {
    pub(crate) file: usize,
    pub(crate) spot: Spot,
}

// A pool, without its name.
#[derive(Clone, Copy)]
pub(crate) struct HeldPool {
    pub(crate) place: HeldPlace,
    pub(crate) depth: u64,
}

// An opened file, with the number of its name.
#[derive(Clone, Copy)]
pub(crate) struct HeldOpening {
    pub(crate) file: usize,
    pub(crate) named_at: Option<HeldPlace>,
    pub(crate) scope: ScopeNo,
}

/// Where each rule and pool read so far was declared, and which statement opened each file.
#[derive(Drop)]
pub(crate) struct Origins {
    // The names under which files were opened, without duplicates.
    names: Names,
    // The rules except `phony`.
    rules: Vec<HeldPlace>,
    pools: Vec<HeldPool>,
    openings: Vec<HeldOpening>,
}

impl Model for Origins {
    ghost use Rattle.nj_graph.specs.Origins.{OriginsModel};
    ghost use Rattle.nj_graph.specs.Inside.OriginsHeld.{origins_held, AreNamed};

    ghost Value = { OriginsModel };

    ghost view = { λ o. origins_held o.names o.rules.items o.pools.items o.openings.items };

    ghost invariant = { λ o. AreNamed o.names o.rules.items o.pools.items o.openings.items };
}

impl Origins {
    /// The origins once the main file is opened and nothing of it is read yet. Names are hashed
    /// with the given keys.
    pub(crate) fn new(alloc: Global, keys: HashKeys, main: &str) -> Result<Origins, AllocError>
        ensures { IfOk result (λ o. o ≡ origins_read main.now []) }
    {
        let mut names = Names::new(alloc, keys);
        let file = names.add(main.as_bytes())?;
        let mut openings = Vec::new(alloc);
        openings.push(HeldOpening {
            file,
            named_at: None,
            scope: MAIN_SCOPE,
        })?;
        Ok(Origins {
            names,
            rules: Vec::new(alloc),
            pools: Vec::new(alloc),
            openings,
        })
    }

    /// Adds the rule that the statement at the given place declares.
    pub(crate) fn add_rule(&mut self, place: PlaceRef<'_>) -> Result<(), AllocError>
        ensures { OnOk result (self.new ≡ record self.old {
          rules = self.old.rules ++ Some (place_text place.entry) ∷ [];
        }) }
    {
        let place = keep_place(&mut self.names, place)?;
        self.rules.push(place)?;
        Ok(())
    }

    /// Adds the pool of the given depth that the statement at the given place declares.
    pub(crate) fn add_pool(&mut self, place: PlaceRef<'_>, depth: u64) -> Result<(), AllocError>
        ensures { OnOk result (self.new ≡ record self.old {
          pools = self.old.pools
              ++ record { place = place_text place.entry; depth = depth } ∷ [];
        }) }
    {
        let place = keep_place(&mut self.names, place)?;
        self.pools.push(HeldPool { place, depth })?;
        Ok(())
    }

    /// Adds the file at the path, which the statement at the given place opens, and whose
    /// statements are in the scope with the given number.
    pub(crate) fn add_opening(
        &mut self,
        place: PlaceRef<'_>,
        path: &str,
        scope: ScopeNo,
    ) -> Result<(), AllocError>
        ensures { OnOk result (self.new ≡ record self.old {
          openings = self.old.openings
              ++ record { path = path.now; named_at = Some (place_text place.entry); scope = scope.0 }
              ∷ [];
        }) }
    {
        let place = keep_place(&mut self.names, place)?;
        let file = self.names.add(path.as_bytes())?;
        self.openings.push(HeldOpening {
            file,
            named_at: Some(place),
            scope,
        })?;
        Ok(())
    }

    /// The place of the statement that declares the rule with the given number.
    pub(crate) fn rule_place(&self, rule: RuleNo) -> Option<PlaceRef<'_>>
        ensures { option_map place_text result ≡ rule_place_at self.now.rules rule.0 }
    {
        let place = self.rules.get(rule.0.checked_sub(1)?)?;
        Some(lend_place(&self.names, *place))
    }

    /// The place of the statement that declares the pool at the given index.
    pub(crate) fn pool_place(&self, index: usize) -> Option<PlaceRef<'_>>
        ensures { option_map place_text result
            ≡ option_map (λ p. p.place) (slice_get self.now.pools index) }
    {
        let pool = self.pools.get(index)?;
        Some(lend_place(&self.names, pool.place))
    }

    /// The depth of the pool at the given index.
    pub(crate) fn pool_depth(&self, index: usize) -> Option<u64>
        ensures { result ≡ option_map (λ p. p.depth) (slice_get self.now.pools index) }
    {
        let pool = self.pools.get(index)?;
        Some(pool.depth)
    }

    /// The number of opened files.
    pub(crate) fn opening_count(&self) -> usize
        ensures { result ≡ length self.now.openings }
    {
        self.openings.len()
    }

    /// The opened file at the given index.
    pub(crate) fn opening(&self, index: usize) -> Option<Opening<'_>>
        ensures { option_map opening_model result ≡ slice_get self.now.openings index }
    {
        let opening = self.openings.get(index)?;
        Some(Opening {
            path: self.names.name(opening.file),
            named_at: match opening.named_at {
                Some(place) => Some(lend_place(&self.names, place)),
                None => None,
            },
            scope: opening.scope,
        })
    }
}

// The place, with its file's name replaced by a number.
fn keep_place(names: &mut Names, place: PlaceRef<'_>) -> Result<HeldPlace, AllocError>
    ensures held { IfOk result (λ held. place_held names.new held ≡ place_text place.entry) }
    ensures known { IfOk result (λ held. held.file < length names.new) }
    ensures grows { IsPrefix names.old names.new }
{
    Ok(HeldPlace {
        file: names.add(place.file)?,
        spot: place.spot,
    })
}

// The place, with the name of its file.
fn lend_place(names: &Names, place: HeldPlace) -> PlaceRef<'_>
    requires { place.file < length names.now }
    ensures { place_text result ≡ place_held names.now place }
{
    PlaceRef {
        file: names.name(place.file),
        spot: place.spot,
    }
}
