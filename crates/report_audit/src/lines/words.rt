ghost use Rattle.std.specs.Prelude.{◌≡◌, ◌≢◌, ℕ, ◌≤◌, ◌<◌, ◌^◌, List, ◌++◌, MatchOption, true, ◌∷◌, ◌+◌, ◌-◌, ◌*◌, decimal, negsuc};
ghost use Rattle.dispatch_report.specs.Words.{numbered, spaced, signed};
ghost use Rattle.report_audit.specs.lines.Reading.{BeginsWith, BeginsWithNone, IsReadAs, both_texts, BothAre, ends_number};
ghost use Rattle.report_audit.specs.lines.Cut.{is_one_line};
ghost use Rattle.std.specs.List.{list_all};
ghost use Rattle.std.specs.Char.{is_ascii_digit};
ghost use Rattle.pool_base.specs.Number.{AllDigits, value_of};
ghost use Rattle.std.specs.Fmt.{signed_decimal};
ghost use Rattle.report_audit.specs.lines.BlockLine.{IsWide};

use itoa::Buffer;
use pool_base::{NodeId, RiderId, VehicleId};

/// What follows the words with which a text begins; `None` where it doesn't begin with them.
pub fn words_first<'a>(text: &'a [u8], words: &[u8]) -> Option<&'a [u8]>
    ensures { MatchOption result ((rest : List ℕ) → text.now ≢ words.now ++ rest) (λ rest. text.now ≡ words.now ++ rest.now) }
{
    text.strip_prefix(words)
}

/// Whether a text is these words and nothing more.
pub fn is_words(text: &[u8], words: &[u8]) -> bool
    ensures right { result ≡ true → text.now ≡ words.now }
    ensures whole { text.now ≡ words.now → result ≡ true }
{
    text == words
}

/// The number behind the words with which a text begins.
pub fn numbered_first<'a>(text: &'a [u8], words: &[u8], most: u64) -> Option<(u64, &'a [u8])>
    ensures { MatchOption result (BeginsWithNone (numbered words.now) (λ n. n ≤ most) text.now) (λ r. BeginsWith (numbered words.now) (λ n. n ≤ most) text.now r.0 r.1.now) }
{
    let after = words_first(text, words)?;
    number_first(after, most)
}

/// Two numbers behind words, apart by a space.
pub fn pair_first<'a>(
    text: &'a [u8],
    words: &[u8],
    most: u64,
    other: u64,
) -> Option<((u64, u64), &'a [u8])>
    ensures { MatchOption result
        (BeginsWithNone (both_texts (numbered words.now) spaced) (BothAre (λ n. n ≤ most) (λ n. n ≤ other)) text.now)
        (λ r. BeginsWith (both_texts (numbered words.now) spaced) (BothAre (λ n. n ≤ most) (λ n. n ≤ other)) text.now r.0 r.1.now) }
{
    let (first, after) = numbered_first(text, words, most)?;
    let (second, rest) = numbered_first(after, b" ", other)?;
    Some(((first, second), rest))
}

/// The number of a line that has words and a number alone.
pub fn read_numbered(line: &[u8], words: &[u8], most: u64) -> Option<u64>
    ensures { IsReadAs (numbered words.now) (λ n. n ≤ most) line.now result }
{
    let (n, rest) = numbered_first(line, words, most)?;
    if rest.is_empty() { Some(n) } else { None }
}

/// The first line of a text, without its line feed, and what follows it; `None` where no line feed comes.
pub fn line_first(text: &[u8]) -> Option<(&[u8], &[u8])>
    ensures { MatchOption result (is_one_line text.now ≡ true) (λ r. (text.now ≡ r.0.now ++ 10 ∷ r.1.now) × (is_one_line r.0.now ≡ true)) }
{
    for (place, byte) in text.iter().enumerate() {
        if *byte == b'\n' {
            let (line, after) = text.split_at(place);
            return Some((line, &after[1..]));
        }
    }
    None
}

/// The number whose decimal text a text begins with, up to where its digits end, and what follows; `None` where the
/// text begins with no numeral, or with one of a number above `most` or with a leading zero.
pub fn number_first(text: &[u8], most: u64) -> Option<(u64, &[u8])>
    ensures { MatchOption result (BeginsWithNone decimal (λ n. n ≤ most) text.now) (λ r. BeginsWith decimal (λ n. n ≤ most) text.now r.0 r.1.now) }
{
    let (n, rest) = wide_first(text, most as u128)?;
    Some((n as u64, rest))
}

/// The same of a number that may be as large as a `u128` holds.
fn wide_first(text: &[u8], most: u128) -> Option<(u128, &[u8])>
    ensures { MatchOption result (BeginsWithNone decimal (λ n. n ≤ most) text.now) (λ r. BeginsWith decimal (λ n. n ≤ most) text.now r.0 r.1.now) }
{
    let (digits, rest) = digits_first(text);
    let n = value_of_digits(digits)?;
    if n > most {
        return None;
    }
    if is_numeral_of(digits, n) {
        Some((n, rest))
    } else {
        None
    }
}

/// Whether the digits are the number's text, without a zero before it.
fn is_numeral_of(digits: &[u8], n: u128) -> bool
    ensures right { result ≡ true → digits.now ≡ decimal n }
    ensures whole { digits.now ≡ decimal n → result ≡ true }
{
    let mut buffer = Buffer::new();
    buffer.format(n).as_bytes() == digits
}

/// The value of digits, with zeros before them or without; `None` where it is above the greatest `u128`.
fn value_of_digits(digits: &[u8]) -> Option<u128>
    requires { AllDigits digits.now }
    ensures { MatchOption result (2 ^ 128 ≤ value_of digits.now) (λ n. n ≡ value_of digits.now) }
{
    let mut value: u128 = 0;
    for digit in digits {
        let tenfold = value.checked_mul(10)?;
        value = tenfold.checked_add(u128::from(*digit - b'0'))?;
    }
    Some(value)
}

/// The digits with which a text begins, and what follows them.
fn digits_first(text: &[u8]) -> (&[u8], &[u8])
    ensures { (text.now ≡ result.0.now ++ result.1.now) × (list_all is_ascii_digit result.0.now ≡ true) × (ends_number result.1.now ≡ true) }
{
    for (place, byte) in text.iter().enumerate() {
        if !byte.is_ascii_digit() {
            return text.split_at(place);
        }
    }
    text.split_at(text.len())
}

/// The signed number of a line that has words and such a number alone.
#[tactic(auto, using(crate::proofs::lines::SignedLemmas::wide_same, crate::proofs::lemmas::lines::ReadingLemmas::line_whole))]
pub fn read_signed(line: &[u8], words: &[u8]) -> Option<i128>
    ensures { IsReadAs (signed words.now) IsWide line.now result }
{
    let (n, rest) = signed_words_first(line, words)?;
    if rest.is_empty() { Some(n) } else { None }
}

/// The signed number behind the words with which a text begins.
pub(crate) fn signed_words_first<'a>(text: &'a [u8], words: &[u8]) -> Option<(i128, &'a [u8])>
    ensures { MatchOption result (BeginsWithNone (signed words.now) IsWide text.now) (λ r. BeginsWith (signed words.now) IsWide text.now r.0 r.1.now) }
{
    let after = words_first(text, words)?;
    signed_first(after)
}

/// The signed number with which a text begins, behind `-` where it is below 0.
fn signed_first(text: &[u8]) -> Option<(i128, &[u8])>
    ensures { MatchOption result (BeginsWithNone signed_decimal IsWide text.now) (λ r. BeginsWith signed_decimal IsWide text.now r.0 r.1.now) }
{
    match words_first(text, b"-") {
        Some(after) => below_zero(after),
        None => from_zero(text),
    }
}

/// The number that stands behind `-`.
fn below_zero(text: &[u8]) -> Option<(i128, &[u8])>
    ensures { MatchOption result (BeginsWithNone signed_decimal IsWide (45 ∷ text.now)) (λ r. BeginsWith signed_decimal IsWide (45 ∷ text.now) r.0 r.1.now) }
{
    let (n, rest) = wide_first(text, LEAST)?;
    if n == 0 {
        return None;
    }
    Some((minus(n), rest))
}

/// The number that has no sign.
fn from_zero(text: &[u8]) -> Option<(i128, &[u8])>
    requires { (rest : List ℕ) → text.now ≢ 45 ∷ rest }
    ensures { MatchOption result (BeginsWithNone signed_decimal IsWide text.now) (λ r. BeginsWith signed_decimal IsWide text.now r.0 r.1.now) }
{
    let (n, rest) = wide_first(text, LEAST - 1)?;
    Some((n as i128, rest))
}

/// How far below 0 an `i128` reaches.
const LEAST: u128 = 1 << 127;

fn minus(n: u128) -> i128
    requires some { 1 ≤ n }
    requires within { n ≤ 2 ^ 127 }
    ensures { result ≡ negsuc (n - 1) }
{
    -1 - ((n - 1) as i128)
}

/// The greatest number that is an id or a second.
pub(crate) const ID_MOST: u64 = 1_000_000_000;

pub(crate) fn rider(n: u64) -> RiderId
    requires { n ≤ 1000000000 }
    ensures { result ≡ n }
{
    RiderId::new(n).unwrap_or_default()
}

pub(crate) fn vehicle(n: u64) -> VehicleId
    requires { n ≤ 1000000000 }
    ensures { result ≡ n }
{
    VehicleId::new(n).unwrap_or_default()
}

pub(crate) fn node(n: u64) -> NodeId
    requires { n ≤ 1000000000 }
    ensures { result ≡ n }
{
    NodeId::new(n).unwrap_or_default()
}
