ghost use Rattle.std.specs.Prelude.{◌≡◌, ◌≢◌, ◌+◌, ◌-◌, ◌*◌, ◌<◌, ◌≤◌, ◌^◌, ◌↔◌, ℕ, List, [], ◌++◌, length, IfOk, OnOk, OnErr, MatchOption, decimal};
ghost use Rattle.std.specs.Fmt.{signed_decimal};
ghost use Rattle.std.specs.Result.{IsErrOf};
ghost use Rattle.pool_base.specs.Number.{AllDigits, value_of, IsFirstNoDigit, IsNumeralOf};

use crate::memory::OutOfMemory;
use itoa::Buffer;

/// Why a text is no number.
#[derive(Clone, Copy)]
pub enum NumberFault {
    /// There is no character.
    Empty,
    /// The character at this place, from 0, is the first that isn't a decimal digit.
    NotDigit { place: u64 },
    /// The value is above the greatest `u64`.
    TooLarge,
}

/// The value of a decimal numeral. Leading zeros are allowed; a sign or a blank is not.
pub fn read_number(text: &[u8]) -> Result<u64, NumberFault>
    ensures value { IfOk result (λ n. (text.now ≢ []) × AllDigits text.now × (n ≡ value_of text.now)) }
    ensures empty { IsErrOf result NumberFault.Empty ↔ (text.now ≡ []) }
    ensures not_digit { (place : ℕ) → IsErrOf result (NumberFault.NotDigit place) ↔ IsFirstNoDigit text.now place }
    ensures too_large { IsErrOf result NumberFault.TooLarge ↔ (AllDigits text.now × (2 ^ 64 ≤ value_of text.now)) }
{
    if text.is_empty() {
        return Err(NumberFault::Empty);
    }
    match first_no_digit(text) {
        Some(place) => Err(NumberFault::NotDigit { place }),
        None => match value_of_digits(text) {
            Some(value) => Ok(value),
            None => Err(NumberFault::TooLarge),
        },
    }
}

fn first_no_digit(text: &[u8]) -> Option<u64>
    ensures { MatchOption result (AllDigits text.now) (IsFirstNoDigit text.now) }
{
    for (place, byte) in text.iter().enumerate() {
        if !byte.is_ascii_digit() {
            return Some(place as u64);
        }
    }
    None
}

fn value_of_digits(digits: &[u8]) -> Option<u64>
    requires { AllDigits digits.now }
    ensures { MatchOption result (2 ^ 64 ≤ value_of digits.now) (λ n. n ≡ value_of digits.now) }
{
    let mut value: u64 = 0;
    for digit in digits {
        let Some(next) = with_digit(value, *digit) else {
            return None;
        };
        value = next;
    }
    Some(value)
}

fn with_digit(value: u64, digit: u8) -> Option<u64>
    requires { 48 ≤ digit }
    ensures { MatchOption result (2 ^ 64 ≤ value * 10 + (digit - 48)) (λ n. n ≡ value * 10 + (digit - 48)) }
{
    match value.checked_mul(10) {
        Some(tenfold) => tenfold.checked_add(u64::from(digit - b'0')),
        None => None,
    }
}

/// Appends bytes to a text.
pub fn put_bytes(text: &mut Vec<u8>, bytes: &[u8]) -> Result<(), OutOfMemory>
    ensures ok { OnOk result (text.new.items ≡ text.old.items ++ bytes.now) }
    ensures err { OnErr result (text.new.items ≡ text.old.items) }
{
    text.extend_from_slice(bytes)?;
    Ok(())
}

/// Appends a number's decimal text, without leading zeros.
pub fn put_number(text: &mut Vec<u8>, n: u64) -> Result<(), OutOfMemory>
    ensures ok { OnOk result (text.new.items ≡ text.old.items ++ decimal n) }
    ensures err { OnErr result (text.new.items ≡ text.old.items) }
{
    let mut buffer = Buffer::new();
    text.extend_from_slice(buffer.format(n).as_bytes())?;
    Ok(())
}

/// Appends a number's decimal text, without leading zeros, and with `-` before a negative one.
pub fn put_signed(text: &mut Vec<u8>, n: i128) -> Result<(), OutOfMemory>
    ensures ok { OnOk result (text.new.items ≡ text.old.items ++ signed_decimal n) }
    ensures err { OnErr result (text.new.items ≡ text.old.items) }
{
    let mut signed = Buffer::new();
    text.extend_from_slice(signed.format(n).as_bytes())?;
    Ok(())
}

/// A law: what `put_number` writes for a number is a numeral of that number, so `read_number` gives
/// the number back.
pub fn number_reads_back(n: u64)
    ensures { IsNumeralOf n (decimal n) }
{
    let _ = n;
}
