//! Division by the generator: the one pass over a word that coding and mending are made of.
ghost use Rattle.codec.specs.Steps.{Remains};
ghost use Rattle.std.specs.Prelude.{◌≡◌, [], ◌∷◌, ◌++◌};

use galois::{Cubic, Field};

// One symbol more: the remainder times X, reduced, plus the symbol.
fn shifted<F: Field>(r: Cubic<F>, symbol: F) -> Cubic<F>
    ensures { (w : _) → Remains F.field w r → Remains F.field (w ++ (symbol ∷ [])) result }
{
    let carried = r.k3.times_x4();
    Cubic {
        k3: r.k2 + carried.k3,
        k2: r.k1 + carried.k2,
        k1: r.k0 + carried.k1,
        k0: symbol + carried.k0,
    }
}

// What division by the generator leaves of a word.
pub(crate) fn remainder_of<F: Field>(word: &[F]) -> Cubic<F>
    ensures { Remains F.field word.now result }
{
    let zero = F::zero();
    let mut r = Cubic {
        k3: zero,
        k2: zero,
        k1: zero,
        k0: zero,
    };
    for symbol in word {
        r = shifted(r, *symbol);
    }
    r
}

// What it leaves of a word with four zero symbols after it.
pub(crate) fn remainder_with_zeros<F: Field>(word: &[F]) -> Cubic<F>
    ensures { (z : _) → z ≡ F.field.zero → Remains F.field (word.now ++ (z ∷ z ∷ z ∷ z ∷ [])) result }
{
    let zero = F::zero();
    let mut r = remainder_of(word);
    r = shifted(r, zero);
    r = shifted(r, zero);
    r = shifted(r, zero);
    shifted(r, zero)
}
