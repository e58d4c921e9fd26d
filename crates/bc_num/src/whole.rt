//! Whole numbers from the bytes of a text: the value of a word with a sign and a point, the value of digits alone, and
//! how many bytes the number at the front of some bytes has. A value is cut at 2^62. `specs/Numbers` says what a
//! number is, and `specs/Whole` what its value is.
ghost use Rattle.std.specs.Prelude.{◌≡◌, ◌+◌, ◌-◌, ◌*◌, ◌≤◌, ◌^◌, length, min};
ghost use Rattle.bc_num.specs.Tokens.{is_digit};
ghost use Rattle.bc_num.specs.Numbers.{digits, unsigned, ends_number, has_nonzero, value, more, unsigned_length, number_length};
ghost use Rattle.bc_num.specs.Whole.{is_minus, with_minus, whole, capped_digits};

/// Why a word has no whole value.
#[derive(Clone, Copy, Debug, PartialEq, Eq)]
pub enum NumFault {
    /// The word is no number.
    BadWord,
    /// The word is a number, and a digit behind its point is not 0.
    NotWhole,
}

// Where a value stops to grow, so that it stays within 64 bits.
const MOST: u64 = 1 << 62;

fn digit_at(b: u8) -> bool
    ensures { result ≡ is_digit b }
{
    b >= b'0' && b <= b'9'
}

fn count_digits(bytes: &[u8]) -> usize
    ensures count { result ≡ digits bytes.now }
    ensures within { result ≤ length bytes.now }
{
    let mut count = 0;
    for b in bytes {
        if !digit_at(*b) {
            return count;
        }
        count += 1;
    }
    count
}

fn without_sign<'a>(word: &'a [u8]) -> &'a [u8]
    ensures { result.now ≡ unsigned word.now }
{
    match word {
        [b'+' | b'-', rest @ ..] => rest,
        _ => word,
    }
}

// Whether `tail`, behind `count` digits, ends a number.
fn ends_well(count: usize, tail: &[u8]) -> bool
    ensures { result ≡ ends_number count tail.now }
{
    match tail {
        [] => count > 0,
        [point, rest @ ..] => {
            *point == b'.' && count_digits(rest) == rest.len() && (count > 0 || !rest.is_empty())
        }
    }
}

fn any_nonzero(bytes: &[u8]) -> bool
    ensures { result ≡ has_nonzero bytes.now }
{
    for b in bytes {
        if *b != b'0' {
            return true;
        }
    }
    false
}

// One more digit behind a value.
fn with_digit(size: u64, b: u8) -> u64
    requires { size ≤ 2 ^ 62 }
    ensures { result ≡ min (2 ^ 62) (10 * size + (b - 48)) }
{
    if size > MOST / 10 {
        MOST
    } else {
        (10 * size + u64::from(b.saturating_sub(b'0'))).min(MOST)
    }
}

// The value of the digits, no more than `MOST`.
fn capped_value(digits: &[u8]) -> u64
    ensures capped { result ≡ min (2 ^ 62) (value 0 digits.now) }
{
    let mut size: u64 = 0;
    for b in digits {
        size = with_digit(size, *b);
    }
    size
}

fn signed(minus: bool, size: u64) -> i64
    requires { size ≤ 2 ^ 62 }
    ensures { result ≡ with_minus minus size }
{
    if minus { -(size as i64) } else { size as i64 }
}

fn starts_minus(word: &[u8]) -> bool
    ensures { result ≡ is_minus word.now }
{
    match word {
        [first, ..] => *first == b'-',
        [] => false,
    }
}

/// The whole value of a number: an optional sign, then digits with at most one point among, before or after them, at
/// least one digit in all. A value past 2^62 in size is answered as 2^62 with its sign. (RS274/NGC's form of a number;
/// the cut is this project's own.)
///
/// # Errors
/// `BadWord` exactly where the word is no number, and `NotWhole` exactly where it is a number with a digit other than 0
/// behind its point.
pub fn read_whole(word: &[u8]) -> Result<i64, NumFault>
    ensures { result ≡ whole word.now }
{
    let body = without_sign(word);
    let count = count_digits(body);
    let tail = &body[count..];
    if !ends_well(count, tail) {
        return Err(NumFault::BadWord);
    }
    if !tail.is_empty() && any_nonzero(&tail[1..]) {
        return Err(NumFault::NotWhole);
    }
    Ok(signed(starts_minus(word), capped_value(&body[..count])))
}

/// The value that one or more digits say, cut to 2^62; `None` exactly where the word has no byte or a byte that is no
/// digit.
pub fn read_digits(word: &[u8]) -> Option<u64>
    ensures { result ≡ capped_digits word.now }
{
    if word.is_empty() || count_digits(word) < word.len() {
        return None;
    }
    Some(capped_value(word))
}

// How many bytes of a number go on behind `count` digits.
fn count_more(count: usize, tail: &[u8]) -> usize
    ensures count { result ≡ more count tail.now }
    ensures within { result ≤ length tail.now }
{
    match tail {
        [b'.', rest @ ..] => {
            let behind = count_digits(rest);
            if count > 0 || behind > 0 {
                behind + 1
            } else {
                0
            }
        }
        _ => 0,
    }
}

fn unsigned_len(bytes: &[u8]) -> usize
    ensures count { result ≡ unsigned_length bytes.now }
    ensures within { result ≤ length bytes.now }
{
    let count = count_digits(bytes);
    count + count_more(count, &bytes[count..])
}

/// How many bytes the longest number at the front of some bytes has, and 0 where none begins there.
pub fn number_len(bytes: &[u8]) -> usize
    ensures count { result ≡ number_length bytes.now }
    ensures within { result ≤ length bytes.now }
{
    match bytes {
        [b'+' | b'-', rest @ ..] => {
            let count = unsigned_len(rest);
            if count > 0 { count + 1 } else { 0 }
        }
        _ => unsigned_len(bytes),
    }
}
