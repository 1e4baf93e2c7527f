//! Decimal numbers as IDs and offsets are spelt.
ghost use Rattle.std.specs.Prelude.{◌≡◌, ◌≢◌, ℕ, ◌≤◌, IfSome, IfNone, decimal};
ghost use Rattle.std.specs.Str.{all_ascii_digits};
ghost use Rattle.mark_base.specs.AnnIds.{is_canonical, number_read};

/// Whether these are decimal digits, or nothing.
fn all_digits(digits: &[u8]) -> bool
    ensures { result ≡ all_ascii_digits digits.now }
{
    for digit in digits {
        if !digit.is_ascii_digit() {
            return false;
        }
    }
    true
}

/// Whether these are one to nine decimal digits without a leading zero: how the number of an ID, an
/// offset and a bound of a repetition are spelt. Cost: the digits.
pub fn is_canonical(digits: &[u8]) -> bool
    ensures { result ≡ is_canonical digits.now }
{
    let count = digits.len();
    if count == 0 || count >= 10 {
        return false;
    }
    let leads = count == 1 || digits[0] != b'0';
    all_digits(digits) && leads
}

/// The number that digits spell: one to nine of them, without a leading zero. Other bytes spell none.
/// Cost: the digits.
pub fn number_read(digits: &[u8]) -> Option<u32>
    ensures read { result ≡ number_read digits.now }
    ensures some { IfSome result (λ number. (digits.now ≡ decimal number) × (number ≤ 999999999)) }
    ensures none { IfNone result ((number : ℕ) → number ≤ 999999999 → digits.now ≢ decimal number) }
{
    if !is_canonical(digits) {
        return None;
    }
    match str::from_utf8(digits) {
        Ok(text) => text.parse::<u32>().ok(),
        Err(_) => None,
    }
}
