//! Numbers in units of 2^-32, and columns of them.
//!
//! Sums wrap and products are cut off at the ends of their type: what is made of these numbers is only
//! tried, and judged in whole numbers afterwards.
use crate::Made;

/// One.
pub const ONE: i64 = 1 << 32;

/// The item at this place, and this one where there is none.
#[inline]
pub fn item<T: Copy>(items: &[T], place: usize, other: T) -> T {
    if place < items.len() {
        items[place]
    } else {
        other
    }
}

/// The items from one place to another, and none where these aren't places.
#[inline]
pub fn part<T>(items: &[T], from: usize, to: usize) -> &[T] {
    if from <= to && to <= items.len() {
        &items[from..to]
    } else {
        &[]
    }
}

/// The number at this place, 0 where there is none.
#[inline]
pub fn at(numbers: &[i64], place: usize) -> i64 {
    item(numbers, place, 0)
}

/// Adds to the number at this place, if there is one.
#[inline]
pub fn add_at(numbers: &mut [i64], place: usize, more: i64) {
    if place < numbers.len() {
        numbers[place] = numbers[place].wrapping_add(more);
    }
}

/// Writes the item at this place, if there is one.
#[inline]
pub fn set_at<T: Copy>(items: &mut [T], place: usize, item: T) {
    if place < items.len() {
        items[place] = item;
    }
}

/// Whether a number is no more than what rounding leaves of 0.
#[inline]
pub fn is_noise(number: i64) -> bool {
    -64 < number && number < 64
}

/// The product of a number and one in units of 2^-32.
#[inline]
pub fn times(number: i64, factor: i64) -> i64 {
    if factor == ONE {
        return number;
    }
    let product = i128::from(number).wrapping_mul(i128::from(factor));
    narrowed(product.wrapping_add(1 << 31) >> 32)
}

/// The quotient of two numbers in units of 2^-32, 0 where the divisor is.
#[inline]
pub fn quotient(number: i64, divisor: i64) -> i64 {
    if divisor == ONE || number == 0 {
        return number;
    }
    if divisor == -ONE {
        return number.wrapping_neg();
    }
    let wide = i128::from(number).wrapping_mul(i128::from(ONE));
    narrowed(wide.checked_div(i128::from(divisor)).unwrap_or(0))
}

/// Whether the quotient of a number and a divisor above 0 is greater than this.
#[inline]
pub fn is_quotient_above(number: i64, divisor: i64, bound: i64) -> bool {
    let wide = i128::from(number).wrapping_mul(i128::from(ONE));
    let next = i128::from(bound).wrapping_add(1);
    wide >= next.wrapping_mul(i128::from(divisor))
}

/// The nearest number of 64 bits.
#[inline]
fn narrowed(value: i128) -> i64 {
    if value > i128::from(i64::MAX) {
        i64::MAX
    } else if value < i128::from(i64::MIN) {
        i64::MIN
    } else {
        value as i64
    }
}

/// Writes numbers over others, as far as both lists go.
#[inline]
pub fn copy(from: &[i64], to: &mut [i64]) {
    for (number, other) in to.iter_mut().zip(from) {
        *number = *other;
    }
}

/// Puts an item behind the last one.
pub fn put<T: Copy>(items: &mut Vec<T>, item: T) -> Made<()> {
    items.push(item)?;
    Ok(())
}

/// Makes this a list of so many equal items.
pub fn reset<T: Copy>(items: &mut Vec<T>, count: usize, item: T) -> Made<()> {
    items.clear();
    items.resize(count, item)?;
    Ok(())
}

/// Puts a list behind another.
pub fn append<T: Copy>(items: &mut Vec<T>, others: &[T]) -> Made<()> {
    items.extend_from_slice(others)?;
    Ok(())
}

/// Writes a list in place of another.
pub fn write_over<T: Copy>(items: &mut Vec<T>, others: &[T]) -> Made<()> {
    items.clear();
    append(items, others)
}
