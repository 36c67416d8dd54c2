//! Numbers and versions in texts.

ghost use Rattle.std.specs.Prelude.{◌≡◌, ◌+◌, ◌-◌, ◌*◌, ◌==◌, true, min};
ghost use Rattle.nj_text.specs.Cited.{after_first, is_digit, greatest, leading_number_of, version_pair_of};

/// Returns the number that the digits at the front of the text write, in base ten, capped at
/// 18446744073709551615; `None` if the text does not begin with a digit.
pub fn leading_number(text: &[u8]) -> Option<u64>
    ensures { result ≡ leading_number_of text.now }
{
    let mut number = None;
    for byte in text {
        if !is_digit(*byte) {
            return number;
        }
        number = Some(with_digit(number.unwrap_or(0), *byte));
    }
    number
}

/// The major and the minor number of a version, as `ninja_required_version` states it ("Version
/// requirements" in the Ninja manual): the numbers at the front of the texts before and after the
/// first `.`, each 0 if there are no digits. For `1.8.2` that is `(1, 8)`.
pub fn version_of(text: &[u8]) -> (u64, u64)
    ensures { result ≡ version_pair_of text.now }
{
    let major = leading_number(text).unwrap_or(0);
    let minor = leading_number(after_dot(text)).unwrap_or(0);
    (major, minor)
}

fn is_digit(byte: u8) -> bool
    ensures { result ≡ is_digit byte }
{
    matches!(byte, b'0'..=b'9')
}

/// The number with one more digit at its end, or the greatest number if it is greater than that.
fn with_digit(number: u64, digit: u8) -> u64
    requires { is_digit digit ≡ true }
    ensures { result ≡ min (number * 10 + (digit - 48)) greatest }
{
    number
        .saturating_mul(10)
        .saturating_add(u64::from(digit - b'0'))
}

/// The text after the first `.`; empty if the text has no `.`.
fn after_dot(text: &[u8]) -> &[u8]
    ensures { result.now ≡ after_first (λ b. b == 46) text.now }
{
    let mut rest = text;
    'bytes: while let [byte, remainder @ ..] = rest {
        if *byte == b'.' {
            return remainder;
        }
        rest = remainder;
    }
    rest
}
