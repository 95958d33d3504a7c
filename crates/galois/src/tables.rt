//! What the fields have each of their own: a polynomial, and the tables by which their elements are multiplied.
ghost use Rattle.std.specs.Prelude.{◌≡◌, ℕ, List};
ghost use Rattle.galois.specs.Tabled.{Tabled};
ghost use Rattle.galois.specs.declared.cubic.Cubic.{Cubic};
ghost use Rattle.galois.specs.declared.element.Element.{Element};

mod gf16;
mod gf256;

use crate::cubic::Cubic;

/// The tables of the field of so many elements.
pub trait Tables<const SIZE: usize> {
    // The polynomial by which products are reduced, and one less than its degree.
    ghost polynomial: { ℕ };

    ghost degree: { ℕ };

    // The element of a number.
    ghost of: { ℕ → Element SIZE };

    ghost logs: { List ℕ };

    ghost powers: { List ℕ };

    ghost products: { Cubic (List ℕ) };

    ghost REDUCTION: { ℕ };

    // The polynomial's bits below the ninth.
    const REDUCTION: u8;

    /// The logarithm of each number to the base alpha; that of 0 is not used.
    fn logs() -> &'static [u8; SIZE]
        ensures { result.now ≡ logs };

    /// The powers of alpha, twice round, so that the sum of two logarithms finds its power.
    fn powers() -> &'static [u8]
        ensures { result.now ≡ powers };

    /// The products of each number with the coefficients of (X + 1)(X + alpha)(X + alpha^2)(X + alpha^3) below X^4.
    fn products() -> Cubic<&'static [u8; SIZE]>
        ensures k3 { result.k3.now ≡ products.k3 }
        ensures k2 { result.k2.now ≡ products.k2 }
        ensures k1 { result.k1.now ≡ products.k1 }
        ensures k0 { result.k0.now ≡ products.k0 };

    ghost tabled: { Tabled SIZE degree polynomial of logs powers products REDUCTION };
}
