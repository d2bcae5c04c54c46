ghost use Rattle.std.specs.Prelude.{◌≡◌, ◌==◌, ◌||◌, ◌&&◌, ◌<◌, ℕ, IfNone, IfSome, not, true, false};
ghost use Rattle.tr_sigset.specs.Sets.{has, of_word, without, word_of};

use crate::signals::Signal;

/// A set of signals. `has set n` says in contracts whether number n is a member: no number but 1 to 64 ever is.
#[derive(Clone, Copy, Debug, PartialEq, Eq)]
pub struct SigSet {
    bits: u64,
}

#[tactic(auto, using(crate::proofs::Members::members))]
impl SigSet {
    /// The set of no signal.
    pub fn empty() -> SigSet
        ensures value { result ≡ of_word 0 }
        ensures members { (n : ℕ) → has result n ≡ false }
    {
        SigSet { bits: 0 }
    }

    /// The set with a signal put in.
    pub fn with(self, signal: Signal) -> SigSet
        ensures { (n : ℕ) → has result n ≡ (has self n || n == signal) }
    {
        SigSet {
            bits: self.bits | 1 << (signal.number() - 1),
        }
    }

    /// The set with a signal taken out.
    pub fn without(self, signal: Signal) -> SigSet
        ensures value { result ≡ without signal self }
        ensures members { (n : ℕ) → has result n ≡ (has self n && not (n == signal)) }
    {
        SigSet {
            bits: self.bits & !(1 << (signal.number() - 1)),
        }
    }

    /// Whether a signal is a member.
    pub fn has(self, signal: Signal) -> bool
        ensures { result ≡ has self signal }
    {
        self.bits >> (signal.number() - 1) & 1 == 1
    }

    /// The signals that are in one set or the other.
    pub fn union(self, other: SigSet) -> SigSet
        ensures { (n : ℕ) → has result n ≡ (has self n || has other n) }
    {
        SigSet {
            bits: self.bits | other.bits,
        }
    }

    /// The signals that are in this set and not in the other.
    pub fn minus(self, other: SigSet) -> SigSet
        ensures { (n : ℕ) → has result n ≡ (has self n && not (has other n)) }
    {
        SigSet {
            bits: self.bits & !other.bits,
        }
    }

    /// The member of the least number.
    pub fn least(self) -> Option<Signal>
        ensures none { IfNone result ((n : ℕ) → has self n ≡ false) }
        ensures member { IfSome result (λ s. has self s ≡ true) }
        ensures least { IfSome result (λ s. (n : ℕ) → n < s → has self n ≡ false) }
    {
        if self.bits == 0 {
            return None;
        }
        Signal::new(self.bits.trailing_zeros() as u8 + 1)
    }

    /// The word in which signal n is bit n - 1.
    pub fn bits(self) -> u64
        ensures value { result ≡ word_of self }
        ensures back { of_word result ≡ self }
    {
        self.bits
    }

    /// The set of a word, signal n being bit n - 1.
    pub fn from_bits(bits: u64) -> SigSet
        ensures value { result ≡ of_word bits }
        ensures back { word_of result ≡ bits }
    {
        SigSet { bits }
    }
}
