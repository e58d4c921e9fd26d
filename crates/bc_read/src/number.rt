//! The number that a token says: digits without a leading zero, with `-` before them where it is below 0, and at most
//! 8,388,607 in size.
ghost use Rattle.std.specs.Prelude.{◌≡◌};
ghost use Rattle.bc_read.specs.Numbers.{is_numeral as numeral, leads_zero as zero_leads, size_of as size, value_of as value};

use bc_num::read_digits;

/// Whether a token is a number, by its first byte.
pub fn is_numeral(text: &[u8]) -> bool
    ensures { result ≡ numeral text.now }
{
    match text {
        [first, ..] => *first >= b'0' && *first <= b'9' || *first == b'-',
        [] => false,
    }
}

fn leads_zero(digits: &[u8]) -> bool
    ensures { result ≡ zero_leads digits.now }
{
    match digits {
        [b'0', rest @ ..] => !rest.is_empty(),
        _ => false,
    }
}

// The number that digits say with no leading zero, at most 8,388,607.
fn size_of(digits: &[u8]) -> Option<u64>
    ensures { result ≡ size digits.now }
{
    if leads_zero(digits) {
        return None;
    }
    match read_digits(digits) {
        Some(n) if n <= 8_388_607 => Some(n),
        _ => None,
    }
}

/// The number that a token says; `None` where it has a leading zero, is `-0`, or is past 8,388,607 in size.
pub fn value_of(text: &[u8]) -> Option<i64>
    ensures { result ≡ value text.now }
{
    match text {
        [b'-', digits @ ..] => match size_of(digits) {
            Some(n) if n > 0 => Some(-(n as i64)),
            _ => None,
        },
        [] => None,
        digits => match size_of(digits) {
            Some(n) => Some(n as i64),
            None => None,
        },
    }
}
