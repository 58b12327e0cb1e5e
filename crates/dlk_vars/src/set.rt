//! Sets of variables by their numbers.
ghost use Rattle.std.specs.Prelude.{◌≡◌, ℕ, ◌↔◌, ◌&&◌, ◌||◌, ◌==◌, not, true, false, IfOk, IsTrue};
ghost use Rattle.dlk_tree.specs.Statics.{none, all, either, both, without};
ghost use Rattle.dlk_vars.specs.Rows.{word, has_number, ByNumber};
ghost use Rattle.dlk_vars.specs.Sets.{StandsFor, Gains, Picks, IsNonempty, AreMeeting};

use crate::fault::VarFault;
use crate::table::VarNo;
use std::alloc::Global;
use std::marker::Model;

/// A set of variables, by their numbers in a table: a row of bits, and a flag for all variables past the row's end, those
/// without a number among them. So a set may hold all variables but some.
#[derive(Drop, Debug)]
pub struct VarSet {
    pub(crate) words: Vec<u64>,
    pub(crate) others: bool,
}

impl Model for VarSet {
    ghost use Rattle.dlk_vars.specs.Rows.{Row};

    ghost Value = { Row };

    ghost view = { λ s. record { words = s.words.items; others = s.others } };
}

impl VarSet {
    /// The set without a variable.
    pub fn empty(alloc: Global) -> VarSet
        ensures numbers { (n : ℕ) → has_number result n ≡ false }
        ensures vars { StandsFor result none }
    {
        VarSet {
            words: Vec::new(alloc),
            others: false,
        }
    }

    /// The set of all variables.
    pub fn all(alloc: Global) -> VarSet
        ensures numbers { (n : ℕ) → has_number result n ≡ true }
        ensures vars { StandsFor result all }
    {
        VarSet {
            words: Vec::new(alloc),
            others: true,
        }
    }

    /// Whether the variable of this number is in the set.
    pub fn has(&self, n: VarNo) -> bool
        ensures { result ≡ has_number self.now n.0 }
    {
        (self.word(n.0 / 64) >> (n.0 % 64)) & 1 == 1
    }

    /// Whether the variables past the row's end are in the set, those without a number among them.
    pub fn has_others(&self) -> bool
        ensures { result ≡ self.now.others }
    {
        self.others
    }

    /// The k-th word of the row, and past its end 64 times the flag.
    pub(crate) fn word(&self, k: usize) -> u64
        ensures { result ≡ word self.now k }
    {
        match self.words.get(k) {
            Some(word) => *word,
            None if self.others => u64::MAX,
            None => 0,
        }
    }

    /// The set with the variable of this number.
    ///
    /// # Errors
    ///
    /// `Memory` alone.
    pub fn with(&self, n: VarNo) -> Result<VarSet, VarFault>
        ensures numbers { IfOk result (λ r. (m : ℕ) → has_number r m ≡ (has_number self.now m || m == n.0)) }
        ensures vars { IfOk result (Gains self.now n.0) }
    {
        let at = n.0 / 64;
        let mut words = Vec::new(*self.words.allocator());
        for k in 0..self.words.len().max(at + 1) {
            let word = self.word(k);
            words.push(if k == at {
                word | 1 << (n.0 % 64)
            } else {
                word
            })?;
        }
        Ok(VarSet {
            words,
            others: self.others,
        })
    }

    /// The variables of either set.
    ///
    /// # Errors
    ///
    /// `Memory` alone.
    pub fn union(&self, other: &VarSet) -> Result<VarSet, VarFault>
        ensures numbers { IfOk result (ByNumber ◌||◌ self.now other.now) }
        ensures vars { IfOk result (Picks either self.now other.now) }
    {
        let len = self.words.len().max(other.words.len());
        let mut words = Vec::new(*self.words.allocator());
        let mut at = 0;
        while len - at >= 4 {
            let four = self.four(at) | other.four(at);
            words.extend_from_slice(&four.to_array())?;
            at += 4;
        }
        for k in at..len {
            words.push(self.word(k) | other.word(k))?;
        }
        Ok(VarSet {
            words,
            others: self.others || other.others,
        })
    }

    /// The variables of this set that aren't in the other.
    ///
    /// # Errors
    ///
    /// `Memory` alone.
    pub fn minus(&self, other: &VarSet) -> Result<VarSet, VarFault>
        ensures numbers { IfOk result (ByNumber (λ a b. a && not b) self.now other.now) }
        ensures vars { IfOk result (Picks without self.now other.now) }
    {
        let mut words = Vec::new(*self.words.allocator());
        for k in 0..self.words.len().max(other.words.len()) {
            words.push(self.word(k) & !other.word(k))?;
        }
        Ok(VarSet {
            words,
            others: self.others && !other.others,
        })
    }

    /// The variables of both sets.
    ///
    /// # Errors
    ///
    /// `Memory` alone.
    pub fn meet(&self, other: &VarSet) -> Result<VarSet, VarFault>
        ensures numbers { IfOk result (ByNumber ◌&&◌ self.now other.now) }
        ensures vars { IfOk result (Picks both self.now other.now) }
    {
        let mut words = Vec::new(*self.words.allocator());
        for k in 0..self.words.len().max(other.words.len()) {
            words.push(self.word(k) & other.word(k))?;
        }
        Ok(VarSet {
            words,
            others: self.others && other.others,
        })
    }

    /// Whether each variable of the other set is in this one.
    pub fn includes(&self, other: &VarSet) -> bool
        ensures numbers { IsTrue (not result) ↔ ((n : ℕ) × IsTrue (has_number other.now n && not (has_number self.now n))) }
        ensures vars { IsTrue result → Picks either self.now other.now self.now }
    {
        for k in 0..self.words.len().max(other.words.len()) {
            if other.word(k) & !self.word(k) != 0 {
                return false;
            }
        }
        self.others || !other.others
    }

    /// Whether some variable is in both sets.
    pub fn meets(&self, other: &VarSet) -> bool
        ensures numbers { IsTrue result ↔ ((n : ℕ) × IsTrue (has_number self.now n && has_number other.now n)) }
        ensures vars { AreMeeting result self.now other.now }
    {
        let len = self.words.len().max(other.words.len());
        let mut at = 0;
        while len - at >= 4 {
            if self.four_meet(other, at) {
                return true;
            }
            at += 4;
        }
        for k in at..len {
            if self.word(k) & other.word(k) != 0 {
                return true;
            }
        }
        self.others && other.others
    }

    /// Whether no variable is in the set. A set meets itself unless it is empty.
    pub fn is_empty(&self) -> bool
        ensures numbers { IsTrue (not result) ↔ ((n : ℕ) × IsTrue (has_number self.now n)) }
        ensures vars { IsNonempty (not result) self.now }
    {
        !self.meets(self)
    }
}
