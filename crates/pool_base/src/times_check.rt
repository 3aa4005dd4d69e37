//! Finds what is wrong with cells that are to be a table of shortest times. Every search goes by the
//! first place, then by the second, then by the third, and stops at the first that is wrong.

ghost use Rattle.std.specs.Prelude.{◌≡◌, ℕ, ◌*◌, ◌<◌, ◌↔◌, length, IsTrue, MatchOption, MatchResult};
ghost use Rattle.pool_base.specs.TravelTime.{cell_of, IsTable};
ghost use Rattle.pool_base.specs.TimesFault.{IsFirst, IsFirstPair, IsFirstTriple, IsTooLong, IsOffZero, IsDetourShorter, NoneTooLong, NoneOffZero, IsFirstFault};

use crate::times::{Times, TimesFault};

/// The longest travel time, in seconds.
const LONGEST: u32 = 1_000_000_000;

/// Whether these cells, row by row, are a table; the first thing that is wrong where they aren't.
pub fn check(points: usize, cells: &[u32]) -> Result<(), TimesFault>
    ensures { MatchResult result (λ _. IsTable points cells.now) (IsFirstFault points cells.now) }
{
    if points.checked_mul(points) != Some(cells.len()) {
        return Err(TimesFault::Size);
    }
    if let Some((a, b)) = first_too_long(points, cells) {
        return Err(TimesFault::TooLong {
            a: a as u64,
            b: b as u64,
        });
    }
    if let Some(a) = first_off_zero(points, cells) {
        return Err(TimesFault::Diagonal { a: a as u64 });
    }
    if let Some((a, b, c)) = first_detour(points, cells) {
        return Err(TimesFault::Triangle {
            a: a as u64,
            b: b as u64,
            c: c as u64,
        });
    }
    Ok(())
}

fn cell(points: usize, cells: &[u32], a: usize, b: usize) -> u32
    requires square { length cells.now ≡ points * points }
    requires row { a < points }
    requires place { b < points }
    ensures { result ≡ cell_of points cells.now a b }
{
    cells[a * points + b]
}

fn first_too_long(points: usize, cells: &[u32]) -> Option<(usize, usize)>
    requires { length cells.now ≡ points * points }
    ensures { MatchOption result (NoneTooLong points cells.now) (λ p. IsFirstPair points (IsTooLong points cells.now) p.0 p.1) }
{
    for a in 0..points {
        if let Some(b) = too_long_in_row(points, cells, a) {
            return Some((a, b));
        }
    }
    None
}

fn too_long_in_row(points: usize, cells: &[u32], a: usize) -> Option<usize>
    requires square { length cells.now ≡ points * points }
    requires row { a < points }
    ensures { MatchOption result ((b : ℕ) → b < points → IsTooLong points cells.now a b → ⊥) (IsFirst points (IsTooLong points cells.now a)) }
{
    for b in 0..points {
        let seconds = cell(points, cells, a, b);
        if seconds > LONGEST && seconds < Times::NEVER {
            return Some(b);
        }
    }
    None
}

fn first_off_zero(points: usize, cells: &[u32]) -> Option<usize>
    requires { length cells.now ≡ points * points }
    ensures { MatchOption result (NoneOffZero points cells.now) (IsFirst points (IsOffZero points cells.now)) }
{
    for a in 0..points {
        if cell(points, cells, a, a) != 0 {
            return Some(a);
        }
    }
    None
}

fn first_detour(points: usize, cells: &[u32]) -> Option<(usize, usize, usize)>
    requires { length cells.now ≡ points * points }
    ensures { MatchOption result
        ((a b c : ℕ) → a < points → b < points → c < points → IsDetourShorter points cells.now a b c → ⊥)
        (λ p. IsFirstTriple points (IsDetourShorter points cells.now) p.0 p.1 p.2) }
{
    for a in 0..points {
        if let Some((b, c)) = detour_from(points, cells, a) {
            return Some((a, b, c));
        }
    }
    None
}

fn detour_from(points: usize, cells: &[u32], a: usize) -> Option<(usize, usize)>
    requires square { length cells.now ≡ points * points }
    requires row { a < points }
    ensures { MatchOption result
        ((b c : ℕ) → b < points → c < points → IsDetourShorter points cells.now a b c → ⊥)
        (λ p. IsFirstPair points (IsDetourShorter points cells.now a) p.0 p.1) }
{
    for b in 0..points {
        if let Some(c) = detour_over(points, cells, a, b) {
            return Some((b, c));
        }
    }
    None
}

fn detour_over(points: usize, cells: &[u32], a: usize, b: usize) -> Option<usize>
    requires square { length cells.now ≡ points * points }
    requires row { a < points }
    requires between { b < points }
    ensures { MatchOption result
        ((c : ℕ) → c < points → IsDetourShorter points cells.now a b c → ⊥)
        (IsFirst points (IsDetourShorter points cells.now a b)) }
{
    let to = u64::from(cell(points, cells, a, b));
    for c in 0..points {
        let onward = u64::from(cell(points, cells, b, c));
        if to + onward < u64::from(cell(points, cells, a, c)) {
            return Some(c);
        }
    }
    None
}
