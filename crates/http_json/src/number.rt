//! Numbers of bodies, which parsed JSON has as texts.
ghost use Rattle.std.specs.Prelude.{◌≡◌, ◌==◌, ◌<◌, false, is_some, length, option_and_then, slice_index, true, IsTrue};
ghost use Rattle.serde_json.specs.Find.{as_u64};
ghost use Rattle.serde_json.specs.Read.{float_of, number_from, number_of};

use fast_float::Numeral;

/// Reports whether a number fits into 64 bits or is at most the largest float. Others are not read.
pub(crate) fn is_in_range(text: &str) -> bool
    ensures { result ≡ is_some (number_of text.now) }
{
    let bytes = text.as_bytes();
    if has_minus(bytes) {
        is_negative_in_range(&Numeral::scan(&bytes[1..]))
    } else {
        is_unsigned_in_range(&Numeral::scan(bytes))
    }
}

/// Returns a number that is an integer from 0 to 2^64 - 1.
pub(crate) fn unsigned(text: &str) -> Option<u64>
    ensures { result ≡ option_and_then as_u64 (number_of text.now) }
{
    let bytes = text.as_bytes();
    if has_minus(bytes) {
        None
    } else {
        whole(&Numeral::scan(bytes))
    }
}

fn whole(numeral: &Numeral<'_>) -> Option<u64>
    ensures { result ≡ option_and_then as_u64 (number_from false numeral.now) }
{
    match numeral.to_u64() {
        Some(number) => Some(number),
        None => None,
    }
}

fn is_negative_in_range(numeral: &Numeral<'_>) -> bool
    ensures { result ≡ is_some (number_from true numeral.now) }
{
    match numeral.to_i64(true) {
        Some(number) if number < 0 => true,
        _ => is_finite(true, numeral),
    }
}

fn is_unsigned_in_range(numeral: &Numeral<'_>) -> bool
    ensures { result ≡ is_some (number_from false numeral.now) }
{
    match numeral.to_u64() {
        Some(_) => true,
        None => is_finite(false, numeral),
    }
}

fn is_finite(negative: bool, numeral: &Numeral<'_>) -> bool
    ensures { result ≡ is_some (float_of negative numeral.now) }
{
    let nearest: f64 = numeral.to_float(negative);
    nearest.is_finite()
}

fn has_minus(bytes: &[u8]) -> bool
    ensures value { result ≡ (slice_index bytes.now 0 == 45) }
    ensures some { IsTrue result → 0 < length bytes.now }
{
    !bytes.is_empty() && bytes[0] == b'-'
}
