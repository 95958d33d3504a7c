//! The search for a root among the powers of alpha.
ghost use Rattle.std.specs.Prelude.{◌≡◌, ◌+◌, ◌<◌, ◌≤◌, true, false, MatchOption, ◌≢◌};
ghost use Rattle.codec.specs.Steps.{FirstRoot, NoRoot, Terms, trinomial_at};
ghost use Rattle.galois.specs.Field.{power};

use galois::Field;

/// square X^2 + linear X + constant
#[derive(Clone, Copy)]
pub struct Trinomial<F> {
    pub square: F,
    pub linear: F,
    pub constant: F,
}

// `Terms` is a clause of these and no fact of the type: it names the trinomial, which is not kept beside its terms.
impl<F: Field> Trinomial<F> {
    // The three terms of the value at `x`.
    fn terms_at(self, x: F) -> Trinomial<F>
        ensures { Terms F.field self x result }
    {
        Trinomial {
            square: self.square * (x * x),
            linear: self.linear * x,
            constant: self.constant,
        }
    }

    // From the terms of the value at `x` to those at alpha times `x`.
    fn next_terms(self) -> Trinomial<F>
        ensures { (t : _) (x : _) → Terms F.field t x self → Terms F.field t (F.field.times F.field.alpha x) result }
    {
        Trinomial {
            square: self.square.times_alpha().times_alpha(),
            linear: self.linear.times_alpha(),
            constant: self.constant,
        }
    }

    // Whether the terms add up to zero.
    fn sum_is_zero(self) -> bool
        ensures yes { result ≡ true → ((t : _) (x : _) → Terms F.field t x self → trinomial_at F.field t x ≡ F.field.zero) }
        ensures no { result ≡ false → ((t : _) (x : _) → Terms F.field t x self → trinomial_at F.field t x ≢ F.field.zero) }
    {
        (self.square + self.linear + self.constant).is_zero()
    }
}

/// A power of alpha, which stands for the place whose symbol is the coefficient of X to that exponent.
#[derive(Drop)]
pub struct Locator<F: Field> {
    pub exponent: usize,
    pub value: F,
    ghost is: { value ≡ power F.field F.field.alpha exponent },
}

impl<F: Field> Locator<F> {
    // That of the last place.
    pub(crate) fn last() -> Locator<F>
        ensures { result.exponent ≡ 0 }
    {
        Locator {
            exponent: 0,
            value: F::one(),
        }
    }

    // That of the place before.
    pub(crate) fn next(&self) -> Locator<F>
        requires { self.now.exponent < 255 }
        ensures exponent { result.exponent ≡ self.now.exponent + 1 }
        ensures value { result.value ≡ F.field.times F.field.alpha self.now.value }
    {
        Locator {
            exponent: self.exponent + 1,
            value: self.value.times_alpha(),
        }
    }
}

// The first root among the powers of alpha from `start` to below the `n`-th. Each term is carried from power to power, so a step
// multiplies by alpha alone.
pub(crate) fn find_root<F: Field>(
    t: Trinomial<F>,
    start: Locator<F>,
    n: usize,
) -> Option<Locator<F>>
    requires { n ≤ 255 }
    ensures { MatchOption result (NoRoot F.field t start.exponent n) (λ x. FirstRoot F.field t start.exponent n x.exponent x.value) }
{
    let mut here = start;
    let mut terms = t.terms_at(here.value);
    for _ in here.exponent..n {
        if terms.sum_is_zero() {
            return Some(here);
        }
        here = here.next();
        terms = terms.next_terms();
    }
    None
}
