//! Polynomials of degree at most three.
ghost use Rattle.std.specs.Prelude.{◌≡◌, [], ◌∷◌};

use crate::Field;

#[derive(Clone, Copy, PartialEq, Eq, Debug)]
pub struct Cubic<F> {
    pub k3: F,
    pub k2: F,
    pub k1: F,
    pub k0: F,
}

impl<F: Field> Cubic<F> {
    /// The numbers of the four coefficients, that of the highest power first.
    pub fn numbers(self) -> [u8; 4]
        ensures { result ≡ F.field.number self.k3 ∷ F.field.number self.k2 ∷ F.field.number self.k1 ∷ F.field.number self.k0 ∷ [] }
    {
        [
            self.k3.number(),
            self.k2.number(),
            self.k1.number(),
            self.k0.number(),
        ]
    }
}
