//! Numbers in a text, as C reads them.

ghost use Rattle.std.specs.Prelude.{◌≡◌, ◌≤◌, ◌+◌, ◌*◌, ◌^◌, min};
ghost use Rattle.nj_build_log.specs.Cited.{is_blank, without_blanks, leading_value, long_of, int_of, without_prefix, hash_of, starts_with_minus, without_leading_sign};

/// The first number that does not fit into 64 bits.
const TOO_GREAT: u128 = 1 << 64;

/// The number at the front of a text, as `atoi` reads it.
pub(crate) fn int_in(text: &[u8]) -> i32
    ensures { result ≡ int_of text.now }
{
    let low = long_in(text).rem_euclid(1 << 32) as u32;
    low.cast_signed()
}

/// The number at the front of a text, as `strtoll` reads it in base ten.
pub(crate) fn long_in(text: &[u8]) -> i64
    ensures { result ≡ long_of text.now }
{
    let (is_negative, digits) = split_sign(without_blanks(text));
    let size = leading_value(10, digits);
    if is_negative {
        -(size.min(1 << 63) as i128) as i64
    } else {
        size.min(i64::MAX as u128) as i64
    }
}

/// The number at the front of a text, as `strtoull` reads it in base sixteen.
pub(crate) fn hash_in(text: &[u8]) -> u64
    ensures { result ≡ hash_of text.now }
{
    let (is_negative, number) = split_sign(without_blanks(text));
    match u64::try_from(leading_value(16, without_prefix(number))) {
        Ok(size) if is_negative => size.wrapping_neg(),
        Ok(size) => size,
        Err(_) => u64::MAX,
    }
}

// A text without the blanks at its front.
fn without_blanks(text: &[u8]) -> &[u8]
    ensures { result.now ≡ without_blanks text.now }
{
    let mut rest = text;
    'blanks: while let [byte, others @ ..] = rest {
        if !is_blank(*byte) {
            return rest;
        }
        rest = others;
    }
    rest
}

fn is_blank(byte: u8) -> bool
    ensures { result ≡ is_blank byte }
{
    matches!(byte, b' ' | 9..=13)
}

// Whether a number begins with a minus, and the number without its sign.
fn split_sign(number: &[u8]) -> (bool, &[u8])
    ensures is_negative { result.0 ≡ starts_with_minus number.now }
    ensures without_sign { result.1.now ≡ without_leading_sign number.now }
{
    match number {
        [b'-', rest @ ..] => (true, rest),
        [b'+', rest @ ..] => (false, rest),
        _ => (false, number),
    }
}

// A number without `0x` at its front.
fn without_prefix(number: &[u8]) -> &[u8]
    ensures { result.now ≡ without_prefix number.now }
{
    match number {
        [b'0', b'x' | b'X', rest @ ..] => rest,
        _ => number,
    }
}

/// The number that the digits at the front of a text write in the given base, or the first number
/// that does not fit into 64 bits if it is greater than that.
pub(crate) fn leading_value(base: u32, text: &[u8]) -> u128
    requires lower { 2 ≤ base }
    requires upper { base ≤ 36 }
    ensures { result ≡ min (leading_value base text.now) (2 ^ 64) }
{
    let mut value = 0;
    'digits: for byte in text {
        match (*byte as char).to_digit(base) {
            Some(digit) => value = with_digit(value, base, digit),
            None => return value,
        }
    }
    value
}

// The number with one more digit at its end, or the first number that does not fit into 64 bits if
// it is greater than that.
fn with_digit(value: u128, base: u32, digit: u32) -> u128
    ensures { result ≡ min (value * base + digit) (2 ^ 64) }
{
    value
        .saturating_mul(u128::from(base))
        .saturating_add(u128::from(digit))
        .min(TOO_GREAT)
}
