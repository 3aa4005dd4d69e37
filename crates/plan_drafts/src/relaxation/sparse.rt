//! Columns of numbers of which most are 0.
ghost use Rattle.std.specs.Iterator.{at_most};

use row_tables::Made;
use row_tables::fixed_point::{add_at, at, item, reset, set_at, times};
use std::alloc::Global;

/// How many places share a word of marks.
const WORD: usize = 64;

/// Numbers, one a place, with a mark for each that isn't 0: a pass over the marked places, in their order,
/// meets all numbers that count.
#[derive(Drop)]
pub struct Sparse {
    pub numbers: Vec<i64>,
    marks: Vec<u64>,
}

impl Sparse {
    /// No place.
    pub fn new(alloc: Global) -> Self {
        Sparse {
            numbers: Vec::new(alloc),
            marks: Vec::new(alloc),
        }
    }

    /// Makes these so many zeros.
    pub fn make_space(&mut self, count: usize) -> Made<()> {
        reset(&mut self.numbers, count, 0)?;
        reset(&mut self.marks, count / WORD + 1, 0)
    }

    #[inline]
    pub fn at(&self, place: usize) -> i64 {
        at(&self.numbers, place)
    }

    #[inline]
    pub fn set(&mut self, place: usize, number: i64) {
        set_at(&mut self.numbers, place, number);
        if number != 0 {
            self.mark(place);
        }
    }

    #[inline]
    fn mark(&mut self, place: usize) {
        let word = place / WORD;
        if word < self.marks.len() {
            self.marks[word] |= 1 << (place % WORD);
        }
    }

    /// Writes all numbers anew.
    pub fn load(&mut self, numbers: &[i64]) {
        for place in 0..numbers.len() {
            self.set(place, numbers[place]);
        }
    }

    /// Adds a number at each of these places.
    #[inline]
    pub fn add_all(&mut self, places: &[u32], more: i64) {
        for place in places {
            add_at(&mut self.numbers, *place as usize, more);
            self.mark(*place as usize);
        }
    }

    /// Takes from the numbers at these places the products of these with a factor.
    #[inline]
    pub fn take_products(&mut self, places: &[u32], numbers: &[i64], factor: i64) {
        for (place, number) in places.iter().zip(numbers) {
            let place = *place as usize;
            let product = times(factor, *number);
            if self.at(place) == 0 {
                self.mark(place);
            }
            add_at(&mut self.numbers, place, product.wrapping_neg());
        }
    }

    /// A number, less the products of these with the numbers at their places.
    #[inline]
    pub fn less_products(&self, number: i64, places: &[u32], numbers: &[i64]) -> i64 {
        let mut rest = number;
        for (place, factor) in places.iter().zip(numbers) {
            let other = self.at(*place as usize);
            if other != 0 {
                rest = rest.wrapping_sub(times(other, *factor));
            }
        }
        rest
    }

    /// The marked places, rising.
    #[inline]
    pub fn places(&self) -> Places<'_> {
        Places {
            marks: &self.marks,
            word: 0,
            rest: item(&self.marks, 0, 0),
            left: self.numbers.len(),
        }
    }

    /// Makes all numbers 0.
    pub fn clear(&mut self) {
        for word in 0..self.marks.len() {
            if self.marks[word] != 0 {
                self.marks[word] = 0;
                let from = word.wrapping_mul(WORD);
                for place in from..from.saturating_add(WORD) {
                    set_at(&mut self.numbers, place, 0);
                }
            }
        }
    }
}

/// The marked places from one on: those of the rest of a word, and of the words behind it.
#[derive(Drop)]
pub struct Places<'a> {
    marks: &'a [u64],
    word: usize,
    rest: u64,
    left: usize,
}

impl<'a> Iterator for Places<'a> {
    type Item = usize;

    ghost remaining = { λ s. at_most s.left };

    #[inline]
    fn next(&mut self) -> Option<usize> {
        if self.left == 0 {
            return None;
        }
        if self.rest == 0 {
            self.word = next_marked(self.marks, self.word)?;
            self.rest = item(self.marks, self.word, 0);
        }
        let place = self.word.wrapping_mul(WORD);
        let place = place.wrapping_add(self.rest.trailing_zeros() as usize);
        self.rest &= self.rest.wrapping_sub(1);
        self.left -= 1;
        Some(place)
    }
}

/// The first word behind this one with a mark.
#[inline]
fn next_marked(marks: &[u64], word: usize) -> Option<usize> {
    for word in word.saturating_add(1)..marks.len() {
        if marks[word] != 0 {
            return Some(word);
        }
    }
    None
}
