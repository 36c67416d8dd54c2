//! The numbers of a command line.

ghost use Rattle.std.specs.Prelude.{◌≡◌};
ghost use Rattle.nj_args.specs.Cited.{given_number, given_depth, begins_with_plus};

const GREATEST_DEPTH: u64 = 2_147_483_647;

/// The number that decimal digits denote, with or without leading zeros.
pub fn number_in(text: &str) -> Option<u64>
    ensures { result ≡ given_number text.now }
{
    if has_plus(text.as_bytes()) {
        return None;
    }
    match text.parse::<u64>() {
        Ok(number) => Some(number),
        Err(_no_number) => None,
    }
}

/// The number of levels that decimal digits denote, with or without leading zeros.
pub fn depth_in(text: &str) -> Option<u32>
    ensures { result ≡ given_depth text.now }
{
    match number_in(text) {
        Some(depth) if depth <= GREATEST_DEPTH => Some(depth as u32),
        Some(_) | None => None,
    }
}

// Whether the text begins with a plus sign, which `parse` would accept.
fn has_plus(text: &[u8]) -> bool
    ensures { result ≡ begins_with_plus text.now }
{
    match text {
        [first, ..] => *first == b'+',
        [] => false,
    }
}
