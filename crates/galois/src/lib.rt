//! Finite fields of characteristic two: the trait that the code is written over, and the two fields that the library uses.
#![tactic(auto)]

mod cubic;
mod element;
mod tables;

ghost use Rattle.std.specs.Prelude.{◌≡◌, ◌≤◌, true, false, MatchOption, ◌≢◌};
ghost use Rattle.galois.specs.Field.{Arithmetic, Inverse, Laws};
ghost use Rattle.galois.specs.Roots.{Leaves};

pub use cubic::Cubic;
pub use element::{Element, Gf16, Gf256};
use std::ops::{Add, Mul};

/// A field says by `field` what its operations are, and shows by `laws` that they are those of a field.
// `equals`, `number` and `from_number` are methods, so that an implementation owes no `==`, `Into` or `TryFrom` with laws of their own.
pub trait Field: Copy + Add<Self, Output = Self> + Mul<Self, Output = Self> {
    ghost field: { Arithmetic Self };

    fn zero() -> Self
        ensures { result ≡ field.zero };

    fn one() -> Self
        ensures { result ≡ field.one };

    fn is_zero(self) -> bool
        ensures yes { result ≡ true → self ≡ field.zero }
        ensures no { result ≡ false → self ≢ field.zero };

    fn equals(self, other: Self) -> bool
        ensures yes { result ≡ true → self ≡ other }
        ensures no { result ≡ false → self ≢ other }
    {
        (self + other).is_zero()
    }

    fn times_alpha(self) -> Self
        ensures { result ≡ field.times field.alpha self };

    /// Zero has no inverse, and is answered by zero.
    fn inverse(self) -> Self
        ensures { Inverse field self result };

    /// What is left of this element times X^4 after division by (X + 1)(X + alpha)(X + alpha^2)(X + alpha^3).
    fn times_x4(self) -> Cubic<Self>
        ensures { Leaves field self result };

    fn order() -> usize
        ensures { result ≡ field.order };

    /// The element of that number; none where the field has fewer.
    fn from_number(number: u8) -> Option<Self>
        ensures { MatchOption result (field.size ≤ number) (λ x. field.number x ≡ number) };

    fn number(self) -> u8
        ensures { result ≡ field.number self };

    ghost laws: { Laws field };

    // The place of a symbol in a word of that many symbols is a byte below 255.
    ghost few: { field.order ≤ 255 };

    // The operators always answer, and with the sum and the product of the field.
    ghost addable: { (x y : Self) → Self.Add.can_add x y };

    ghost sums: { (x y r : Self) → Self.Add.add_gives x y r → r ≡ field.plus x y };

    ghost multipliable: { (x y : Self) → Self.Mul.can_mul x y };

    ghost products: { (x y r : Self) → Self.Mul.mul_gives x y r → r ≡ field.times x y };
}
