//! The arithmetic of elements, in one text for both fields.
ghost use Rattle.std.specs.Prelude.{◌≡◌, ◌-◌, ◌*◌, ◌<◌, MatchOption};
ghost use Rattle.galois.specs.Binary.{shifts};
ghost use Rattle.galois.specs.Fields.{numbered};
ghost use Rattle.galois.specs.Tabled.{in_byte, laws_of};
ghost use Rattle.std.proofs.Common.{rules};

use super::Element;
use crate::tables::Tables;
use crate::{Cubic, Field};
use std::ops::{Add, Mul};

impl<const SIZE: usize> Element<SIZE>
where
    Element<SIZE>: Tables<SIZE>,
{
    fn of(bits: u8) -> Element<SIZE>
        requires { bits < SIZE }
        ensures { result ≡ ⟦<Element<SIZE> as Tables<SIZE>>⟧.of bits }
    {
        Element { bits }
    }

    // The logarithm to the base alpha; zero has none.
    fn log(self) -> Option<usize>
        ensures { MatchOption result (self.entry.bits ≡ 0) (λ k. (shifts ⟦<Element<SIZE> as Tables<SIZE>>⟧.degree ⟦<Element<SIZE> as Tables<SIZE>>⟧.polynomial k 1 ≡ self.entry.bits) × (k < SIZE - 1)) }
    {
        if self.bits == 0 {
            return None;
        }
        Some(Element::<SIZE>::logs()[self.bits as usize] as usize)
    }

    // A power of alpha.
    fn power(k: usize) -> Element<SIZE>
        requires { k < 2 * (SIZE - 1) }
        ensures { result ≡ ⟦<Element<SIZE> as Tables<SIZE>>⟧.of (shifts ⟦<Element<SIZE> as Tables<SIZE>>⟧.degree ⟦<Element<SIZE> as Tables<SIZE>>⟧.polynomial k 1) }
    {
        Element::of(Element::<SIZE>::powers()[k])
    }
}

impl<const SIZE: usize> Add<Element<SIZE>> for Element<SIZE>
where
    Element<SIZE>: Tables<SIZE>,
{
    type Output = Element<SIZE>;

    ghost add_gives = { λ x y r. r ≡ (numbered ⟦<Element<SIZE> as Tables<SIZE>>⟧.degree ⟦<Element<SIZE> as Tables<SIZE>>⟧.polynomial ⟦<Element<SIZE> as Tables<SIZE>>⟧.of).plus x y };

    fn add(self, rhs: Element<SIZE>) -> Element<SIZE> {
        Element::of(self.bits ^ rhs.bits)
    }
}

impl<const SIZE: usize> Mul<Element<SIZE>> for Element<SIZE>
where
    Element<SIZE>: Tables<SIZE>,
{
    type Output = Element<SIZE>;

    ghost mul_gives = { λ x y r. r ≡ (numbered ⟦<Element<SIZE> as Tables<SIZE>>⟧.degree ⟦<Element<SIZE> as Tables<SIZE>>⟧.polynomial ⟦<Element<SIZE> as Tables<SIZE>>⟧.of).times x y };

    fn mul(self, rhs: Element<SIZE>) -> Element<SIZE> {
        match (self.log(), rhs.log()) {
            (Some(i), Some(j)) => Element::power(i + j),
            _ => Element::of(0),
        }
    }
}

impl<const SIZE: usize> Field for Element<SIZE>
where
    Element<SIZE>: Tables<SIZE>,
{
    ghost field = { numbered ⟦<Element<SIZE> as Tables<SIZE>>⟧.degree ⟦<Element<SIZE> as Tables<SIZE>>⟧.polynomial ⟦<Element<SIZE> as Tables<SIZE>>⟧.of };

    ghost laws = { Prim.search (rules, laws_of) };

    ghost few = { Prim.search (rules, in_byte) };

    ghost addable = { λ x y. tt };

    ghost sums = { λ x y r e. e };

    ghost multipliable = { λ x y. tt };

    ghost products = { λ x y r e. e };

    fn zero() -> Element<SIZE> {
        Element::of(0)
    }

    fn one() -> Element<SIZE> {
        Element::of(1)
    }

    fn is_zero(self) -> bool {
        self.bits == 0
    }

    fn times_alpha(self) -> Element<SIZE> {
        let shifted = self.bits << 1;
        if (self.bits as usize) < SIZE / 2 {
            return Element::of(shifted);
        }
        Element::of(shifted ^ Element::<SIZE>::REDUCTION)
    }

    fn inverse(self) -> Element<SIZE> {
        match self.log() {
            Some(k) => Element::power(SIZE - 1 - k),
            None => self,
        }
    }

    fn times_x4(self) -> Cubic<Element<SIZE>> {
        let number = self.bits as usize;
        let products = Element::<SIZE>::products();
        Cubic {
            k3: Element::of(products.k3[number]),
            k2: Element::of(products.k2[number]),
            k1: Element::of(products.k1[number]),
            k0: Element::of(products.k0[number]),
        }
    }

    fn order() -> usize {
        SIZE - 1
    }

    fn from_number(number: u8) -> Option<Element<SIZE>> {
        if usize::from(number) < SIZE {
            Some(Element::of(number))
        } else {
            None
        }
    }

    fn number(self) -> u8 {
        self.bits
    }
}
