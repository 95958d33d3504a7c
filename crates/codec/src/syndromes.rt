//! The values of a word at the four roots of the generator.
ghost use Rattle.std.specs.Prelude.{◌≡◌, true, false, ◌≢◌};
ghost use Rattle.codec.specs.Steps.{AllZero, syndromes};
ghost use Rattle.galois.specs.Roots.{cubic_at};

use crate::remainder::remainder_of;
use crate::roots::Trinomial;
use galois::{Cubic, Field};

#[derive(Clone, Copy, PartialEq, Eq, Debug)]
pub struct Syndromes<F> {
    pub s0: F,
    pub s1: F,
    pub s2: F,
    pub s3: F,
}

fn value_at<F: Field>(r: Cubic<F>, x: F) -> F
    ensures { result ≡ cubic_at F.field r x }
{
    r.k0 + x * (r.k1 + x * (r.k2 + x * r.k3))
}

pub fn syndromes_of<F: Field>(word: &[F]) -> Syndromes<F>
    ensures { result ≡ syndromes F.field word.now }
{
    let r = remainder_of(word);
    let one = F::one();
    let alpha = one.times_alpha();
    let square = alpha.times_alpha();
    let cube = square.times_alpha();
    Syndromes {
        s0: value_at(r, one),
        s1: value_at(r, alpha),
        s2: value_at(r, square),
        s3: value_at(r, cube),
    }
}

impl<F: Field> Syndromes<F> {
    pub(crate) fn are_zero(self) -> bool
        ensures yes { result ≡ true → AllZero F.field self }
        ensures no { result ≡ false → AllZero F.field self → ⊥ }
    {
        self.s0.is_zero() && self.s1.is_zero() && self.s2.is_zero() && self.s3.is_zero()
    }

    // Whether one error at the locator `x` explains the last three: each times `x` is the next.
    pub(crate) fn step_by(self, x: F) -> bool
        ensures yes { result ≡ true → (F.field.times self.s1 x ≡ self.s2) × (F.field.times self.s2 x ≡ self.s3) }
        ensures no { result ≡ false → (F.field.times self.s1 x ≡ self.s2) × (F.field.times self.s2 x ≡ self.s3) → ⊥ }
    {
        (self.s1 * x).equals(self.s2) && (self.s2 * x).equals(self.s3)
    }

    // The quadratic whose roots are the locators of two errors.
    pub(crate) fn quadratic(self) -> Trinomial<F>
        ensures square { result.square ≡ F.field.plus (F.field.times self.s0 self.s2) (F.field.times self.s1 self.s1) }
        ensures linear { result.linear ≡ F.field.plus (F.field.times self.s0 self.s3) (F.field.times self.s1 self.s2) }
        ensures constant { result.constant ≡ F.field.plus (F.field.times self.s1 self.s3) (F.field.times self.s2 self.s2) }
    {
        Trinomial {
            square: self.s0 * self.s2 + self.s1 * self.s1,
            linear: self.s0 * self.s3 + self.s1 * self.s2,
            constant: self.s1 * self.s3 + self.s2 * self.s2,
        }
    }

    // What to add at the place of locator `x`, where `y` is the other's.
    pub(crate) fn error_at(self, x: F, y: F) -> F
        requires { x ≢ y }
        ensures { F.field.times result (F.field.plus x y) ≡ F.field.plus (F.field.times self.s0 y) self.s1 }
    {
        (self.s0 * y + self.s1) * (x + y).inverse()
    }
}
