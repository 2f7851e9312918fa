//! Sets of small numbers.
#![tactic(auto)]

ghost use Rattle.std.specs.Prelude.{◌≡◌, ℕ, ◌+◌, ◌*◌, ◌/◌, ◌<◌, ◌≤◌, ◌||◌, ◌&&◌, not, false, nat_eq, length, IfOk, replicate, Bool};
ghost use Rattle.jz_bits.specs.Has.{has, HasExactly, Shares};
ghost use Rattle.std.specs.Bool.{MatchBool};

use std::alloc::{AllocError, Global};
use std::marker::Model;

/// A set of small numbers, as a row of words with a bit for each.
#[derive(Drop)]
pub struct Bits {
    words: Vec<u64>,
}

impl Model for Bits {
    ghost use Rattle.std.specs.Prelude.{List, ℕ};

    ghost Value = { List ℕ };

    ghost view = { λ it. it.words.items };
}

impl Bits {
    /// The empty set, with a bit for each number up to `bound`.
    pub fn new(alloc: Global, bound: usize) -> Result<Bits, AllocError>
        ensures wide { IfOk result (λ bits. length bits ≡ bound / 64 + 1) }
        ensures empty { IfOk result (λ bits. HasExactly bits (λ number. false)) }
    {
        Ok(Bits {
            words: vec![in alloc; 0; bound / 64 + 1]?,
        })
    }

    /// An empty set as wide as this one.
    pub fn empty_like(&self, alloc: Global) -> Result<Bits, AllocError>
        ensures wide { IfOk result (λ bits. length bits ≡ length self.now) }
        ensures empty { IfOk result (λ bits. HasExactly bits (λ number. false)) }
    {
        Ok(Bits {
            words: vec![in alloc; 0; self.words.len()]?,
        })
    }

    /// Whether the number is in the set; one that the row has no bit for is not.
    pub fn contains(&self, number: usize) -> bool
        ensures { result ≡ has self.now number }
    {
        match self.words.get(number / 64) {
            Some(word) => (word >> (number % 64)) & 1 == 1,
            None => false,
        }
    }

    /// Adds a number that the row has a bit for.
    pub fn insert(&mut self, number: usize)
        requires { number / 64 < length self.old }
        ensures wide { length self.new ≡ length self.old }
        ensures set { HasExactly self.new (λ other. nat_eq other number || has self.old other) }
    {
        self.words[number / 64] |= 1 << (number % 64);
    }

    /// Takes a number out.
    pub fn remove(&mut self, number: usize)
        requires { number / 64 < length self.old }
        ensures wide { length self.new ≡ length self.old }
        ensures set { HasExactly self.new
            (λ other. not (nat_eq other number) && has self.old other) }
    {
        self.words[number / 64] &= !(1 << (number % 64));
    }

    /// Adds the numbers of another set.
    pub fn union(&mut self, other: &Bits)
        requires { length other.now ≡ length self.old }
        ensures wide { length self.new ≡ length self.old }
        ensures set { HasExactly self.new (λ number. has self.old number || has other.now number) }
    {
        for i in 0..self.words.len() {
            self.words[i] |= other.words[i];
        }
    }

    /// Whether some number is in both sets.
    pub fn meets(&self, other: &Bits) -> bool
        requires { length other.now ≡ length self.now }
        ensures { MatchBool result (Shares self.now other.now) (Shares self.now other.now → ⊥) }
    {
        for i in 0..self.words.len() {
            if self.words[i] & other.words[i] != 0 {
                return true;
            }
        }
        false
    }

    /// Another set of the same numbers.
    pub fn copy(&self, alloc: Global) -> Result<Bits, AllocError>
        ensures { IfOk result (λ bits. bits ≡ self.now) }
    {
        Ok(Bits {
            words: self.words.as_slice().to_vec(alloc)?,
        })
    }
}
