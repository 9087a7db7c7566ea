// A set of tasks, of lines or of events: a number of two bytes, with bit n for number n.
// No type of the crate bitflags: the members have numbers and no names, and N keeps the three kinds of set apart.
ghost use Rattle.std.specs.Prelude.{◌≡◌, ℕ, ◌^◌, true, false, nat_lt, nat_eq, cond};
ghost use Rattle.numbers.specs.Sets.{has, both, either, minus, with_member, AllBelow};

use crate::number::Numbered;
use std::marker::PhantomData;

#[derive_where(Clone, Copy, Debug, PartialEq, Eq)]
pub struct Set<N> {
    bits: u16,
    kind: PhantomData<N>,
}

impl<N> Set<N> {
    // `from_bits` and `bits` are named as in bitflags; a `From<u16>` would not say that the number's bits are meant.
    pub fn from_bits(bits: u16) -> Set<N>
        ensures { result.bits ≡ bits }
    {
        Set {
            bits,
            kind: PhantomData,
        }
    }

    pub fn bits(self) -> u16
        ensures { result ≡ self.bits }
    {
        self.bits
    }

    pub fn is_empty(self) -> bool
        ensures { result ≡ nat_eq self.bits 0 }
    {
        self.bits == 0
    }

    // The members that both sets have.
    pub fn intersection(self, other: Set<N>) -> Set<N>
        ensures { result.bits ≡ both self.bits other.bits }
    {
        Set::from_bits(self.bits & other.bits)
    }

    // The members that either set has.
    pub fn union(self, other: Set<N>) -> Set<N>
        ensures { result.bits ≡ either self.bits other.bits }
    {
        Set::from_bits(self.bits | other.bits)
    }

    // The members that the other set lacks.
    pub fn difference(self, other: Set<N>) -> Set<N>
        ensures { result.bits ≡ minus self.bits other.bits }
    {
        Set::from_bits(self.bits & !other.bits)
    }

    // Whether each member is below `count`.
    pub fn within(self, count: u8) -> bool
        ensures is { result ≡ nat_lt self.bits (2 ^ count) }
        ensures yes { result ≡ true → AllBelow count self.bits }
        ensures no { result ≡ false → AllBelow count self.bits → ⊥ }
    {
        count >= 16 || self.bits >> count == 0
    }
}

// The bit of a member; 0 for a number above 15.
fn bit<N: Numbered>(member: N) -> u16
    ensures { result ≡ cond (nat_lt (N.Numbered.number member) 16) (2 ^ N.Numbered.number member) 0 }
{
    1u16.checked_shl(member.number().into()).unwrap_or(0)
}

impl<N: Numbered> Set<N> {
    pub fn contains(self, member: N) -> bool
        ensures { result ≡ has self.bits (N.Numbered.number member) }
    {
        (self.bits & bit(member)) != 0
    }

    // The set with one more member. A number above 15 adds none.
    pub fn with(self, member: N) -> Set<N>
        ensures { result.bits ≡ with_member self.bits (N.Numbered.number member) }
    {
        Set::from_bits(self.bits | bit(member))
    }

    // The set without a member.
    pub fn without(self, member: N) -> Set<N>
        ensures { result.bits ≡ minus self.bits (2 ^ N.Numbered.number member) }
    {
        Set::from_bits(self.bits & !bit(member))
    }
}
