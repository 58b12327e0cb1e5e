//! Words of sets, four at a time.
ghost use Rattle.std.specs.Prelude.{◌≡◌, ℕ, ◌+◌, ◌^◌, ◌<◌, ◌≤◌, ◌&&◌, bit_and, All, IsTrue};
ghost use Rattle.std.specs.Bool.{OnTrue, OnFalse};
ghost use Rattle.dlk_vars.specs.Rows.{word, four_words, has_number};

use crate::set::VarSet;
use std::simd::prelude::*;

impl VarSet {
    /// Four words from `at` on, some or all of which may be past the row's end.
    pub(crate) fn four(&self, at: usize) -> u64x4
        requires { at + 4 < 2 ^ 64 }
        ensures words { result ≡ four_words self.now at }
        ensures small { All (λ w. w < 2 ^ 64) result }
    {
        if at + 4 <= self.words.len() {
            u64x4::from_slice(&self.words[at..])
        } else {
            u64x4::from_array([
                self.word(at),
                self.word(at + 1),
                self.word(at + 2),
                self.word(at + 3),
            ])
        }
    }

    /// Whether some of four words from `at` on has a bit in common with that of the other row.
    pub(crate) fn four_meet(&self, other: &VarSet, at: usize) -> bool
        requires { at + 4 < 2 ^ 64 }
        ensures meeting { OnTrue result ((n : ℕ) × IsTrue (has_number self.now n && has_number other.now n)) }
        ensures apart { OnFalse result ((j : ℕ) → at ≤ j → j < at + 4 → bit_and (word self.now j) (word other.now j) ≡ 0) }
    {
        (self.four(at) & other.four(at)).reduce_or() != 0
    }
}
