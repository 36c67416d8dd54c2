//! The state of a lexer.

use crate::fault::UnitFault;
use crate::spot::Spot;

/// The state of a lexer.
#[derive(Clone, Copy)]
pub enum State<'a> {
    /// Before a line.
    Between,
    /// After the join that opens a line, which no call has skipped yet: its place and its bytes.
    OpeningJoin(Spot, &'a [u8]),
    /// In a line.
    Inside,
    /// At a fault, which every later call reports.
    Failed(UnitFault),
}
