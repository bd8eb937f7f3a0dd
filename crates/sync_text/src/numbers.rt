ghost use Rattle.std.specs.Prelude.{◌≡◌, ℕ, ◌<◌, ◌^◌, ◌==◌, ◌||◌, IfSome, slice_index};
ghost use Rattle.std.specs.Fmt.{decimal};
ghost use Rattle.sync_text.specs.Number.{is_padded, number_of};

use std::str;

/// The number that the bytes spell.
///
/// `None` exactly where they are no decimal number of this form: digits alone, at least one of them,
/// no sign, no leading zero but in `0` itself, and at most 2^64 - 1.
/// This project's own.
#[tactic(auto, using(crate::proofs::Decimals::number_from_parse, crate::proofs::Decimals::decimal_number_of, crate::proofs::Decimals::number_of_decimal))]
pub fn read_number(bytes: &[u8]) -> Option<u64>
    ensures number { result ≡ number_of bytes.now }

    // The two laws between reading a number and writing it.
    ensures writes_back { IfSome result (λ number. bytes.now ≡ decimal number) }
    ensures reads_back { (n : ℕ) → n < 2 ^ 64 → bytes.now ≡ decimal n → result ≡ Some n }
{
    if begins_wrongly(bytes) {
        return None;
    }
    match str::from_utf8(bytes) {
        Ok(text) => text.parse().ok(),
        Err(_) => None,
    }
}

/// Whether a sign stands first, or a zero before another byte.
fn begins_wrongly(bytes: &[u8]) -> bool
    ensures { result ≡ (is_padded bytes.now || (slice_index bytes.now 0 == 43)) }
{
    match bytes.first() {
        Some(b'0') => bytes.len() > 1,
        Some(first) => *first == b'+',
        None => false,
    }
}
