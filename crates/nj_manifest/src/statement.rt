//! Statements ("Ninja file reference" in the Ninja manual).

use nj_text::{Spot, Word};

/// Something and the place of its first byte.
#[derive(Debug, Drop)]
pub struct Placed<T> {
    pub spot: Spot,
    pub item: T,
}

/// A line of a block: `name = value`.
#[derive(Debug, Drop)]
pub struct Line<'a> {
    /// The place of the name.
    pub spot: Spot,
    pub name: &'a [u8],
    pub value: Word<'a>,
}

/// `rule name` ("Rules" in the Ninja manual).
#[derive(Debug, Drop)]
pub struct Rule<'a> {
    pub name: &'a [u8],
    pub name_spot: Spot,
    /// The lines of its block.
    pub lines: Vec<Line<'a>>,
}

/// `pool name` ("Pools" in the Ninja manual).
#[derive(Debug, Drop)]
pub struct Pool<'a> {
    pub name: &'a [u8],
    pub name_spot: Spot,
    /// The lines of its block.
    pub lines: Vec<Line<'a>>,
}

/// `build explicit_outs | implicit_outs : rule explicit | implicit || order_only |@ validations`
/// ("Build statements" in the Ninja manual).
#[derive(Debug, Drop)]
pub struct Build<'a> {
    pub explicit_outs: Vec<Word<'a>>,
    pub implicit_outs: Vec<Word<'a>>,
    pub rule: &'a [u8],
    pub rule_spot: Spot,
    pub explicit: Vec<Word<'a>>,
    pub implicit: Vec<Word<'a>>,
    pub order_only: Vec<Word<'a>>,
    pub validations: Vec<Word<'a>>,
    /// The lines of its block.
    pub lines: Vec<Line<'a>>,
}

/// A statement with its block.
#[derive(Debug, Drop)]
pub enum Statement<'a> {
    /// `name = value`
    Binding { name: &'a [u8], value: Word<'a> },
    Rule(Rule<'a>),
    Pool(Pool<'a>),
    Build(Build<'a>),
    /// `default targets`
    Default { words: Vec<Word<'a>> },
    /// `include path`
    Include { word: Word<'a> },
    /// `subninja path`
    Subninja { word: Word<'a> },
}
