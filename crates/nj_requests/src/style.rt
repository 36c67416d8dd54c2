//! How `inputs` writes its list.

/// How `inputs` writes its list ("Extra tools" in the Ninja manual). By default the list is sorted
/// and quoted for a shell, with one path per line.
#[derive(Clone, Copy, Debug, PartialEq, Eq)]
pub struct InputsStyle {
    /// Whether the paths are in the order of the edges that need them; otherwise they are sorted by
    /// the bytes of the written texts.
    pub dependency_order: bool,
    /// Whether each path is quoted for a shell; otherwise it is written verbatim.
    pub shell_escape: bool,
    /// Whether each path is followed by the byte 0; otherwise it is followed by a line feed.
    pub zero: bool,
}
