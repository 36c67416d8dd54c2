//! The parts of a glob.

ghost use Rattle.std.specs.Prelude.{◌≡◌};
ghost use Rattle.nj_globs.specs.Cited.{is_in_ranges, begins_after, part_model, takes, may_be_empty};

/// The bytes from one to another, and both of them.
#[derive(Clone, Copy, Debug, PartialEq, Eq)]
pub(crate) struct ByteRange {
    pub(crate) low: u8,
    pub(crate) high: u8,
}

/// A part of a glob.
#[derive(Drop)]
pub(crate) enum Part {
    /// This byte.
    Byte(u8),
    /// `?`.
    AnyByte,
    /// `*`.
    Star,
    /// `**`.
    DoubleStar,
    /// `**/` where a directory begins.
    Directories,
    /// `[..]`, or `[!..]`, which is negated.
    Set {
        is_negated: bool,
        ranges: Vec<ByteRange>,
    },
}

impl Part {
    /// Whether it stands for the given byte, and for one byte only.
    pub(crate) fn takes(&self, byte: u8) -> bool
        ensures { result ≡ takes (part_model self.now) byte }
    {
        match self {
            Part::Byte(other) => byte == *other,
            Part::AnyByte => byte != b'/',
            Part::Set { is_negated, ranges } => {
                byte != b'/' && contain(ranges, byte) != *is_negated
            }
            _ => false,
        }
    }

    /// Whether it may stand for no bytes.
    pub(crate) fn may_be_empty(&self) -> bool
        ensures { result ≡ may_be_empty (part_model self.now) }
    {
        match self {
            Part::Star | Part::DoubleStar | Part::Directories => true,
            _ => false,
        }
    }

    /// Whether a directory begins after it.
    pub(crate) fn begins_after(&self) -> bool
        ensures { result ≡ begins_after (part_model self.now) }
    {
        match self {
            Part::Byte(byte) => *byte == b'/',
            Part::Directories => true,
            _ => false,
        }
    }
}

// Whether the byte is in one of the ranges.
fn contain(ranges: &[ByteRange], byte: u8) -> bool
    ensures { result ≡ is_in_ranges ranges.now byte }
{
    ranges
        .iter()
        .any(|range| range.low <= byte && byte <= range.high)
}
