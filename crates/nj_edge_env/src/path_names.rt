//! Names with a meaning of their own.

ghost use Rattle.std.specs.Prelude.{◌≡◌};
ghost use Rattle.nj_edge_env.specs.Cited.{names_paths, is_of_command, is_quoted};

/// Whether the name denotes paths of an edge.
pub(crate) fn names_paths(name: &[u8]) -> bool
    ensures { result ≡ names_paths name.now }
{
    name == b"in".as_slice() || name == b"in_newline".as_slice() || name == b"out".as_slice()
}

/// Whether the name determines an edge's command.
pub(crate) fn is_of_command(name: &[u8]) -> bool
    ensures { result ≡ is_of_command name.now }
{
    name == b"command".as_slice()
        || name == b"rspfile".as_slice()
        || name == b"rspfile_content".as_slice()
}

/// Whether paths are quoted for a shell in the value of the name.
pub(crate) fn is_quoted(asked: &[u8]) -> bool
    ensures { result ≡ is_quoted asked.now }
{
    !(asked == b"rspfile".as_slice()
        || asked == b"depfile".as_slice()
        || asked == b"dyndep".as_slice())
}
