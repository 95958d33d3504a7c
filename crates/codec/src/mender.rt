//! Mending: from the syndromes to the places and values of at most two errors.
ghost use Rattle.std.specs.Prelude.{◌≡◌, ◌<◌, ◌≤◌, true, false, length, ◌≢◌};
ghost use Rattle.codec.specs.Mend.{Mended, MendedOneWay};
ghost use Rattle.codec.specs.Steps.{AllZero, Attempt, Told, trinomial_at};
ghost use Rattle.reed_solomon.specs.Errors.{altered, determinant, quadratic};

use crate::record::MendRecord;
use crate::roots::{Locator, Trinomial, find_root};
use crate::syndromes::{Syndromes, syndromes_of};
use galois::Field;

// The code's shortest words: one data symbol and four check symbols.
const SHORTEST: usize = 5;

// Adds `by` to the symbol at `place`.
fn alter<F: Field>(word: &mut [F], place: usize, by: F)
    requires { place < length word.old }
    ensures { word.new ≡ altered F.field word.old place by }
{
    word[place] = word[place] + by;
}

// Mends one place: the only one whose locator takes each syndrome to the next.
fn mend_one<F: Field>(word: &mut [F], s: Syndromes<F>) -> Option<MendRecord>
    requires told { Told F.field word.old s }
    requires unclean { AllZero F.field s → ⊥ }
    requires singular { determinant F.field word.old ≡ F.field.zero }
    ensures { Attempt F.field word.old word.new result }
{
    if s.s0.is_zero() {
        return None;
    }
    let n = word.len();
    let line = Trinomial {
        square: F::zero(),
        linear: s.s0,
        constant: s.s1,
    };
    let root = find_root(line, Locator::last(), n)?;
    if !s.step_by(root.value) {
        return None;
    }
    let place = n - 1 - root.exponent;
    alter(word, place, s.s0);
    Some(MendRecord::one(place as u8))
}

// Mends two places: those whose locators are the roots of the quadratic.
fn mend_two<F: Field>(word: &mut [F], s: Syndromes<F>, t: Trinomial<F>) -> Option<MendRecord>
    requires told { Told F.field word.old s }
    requires regular { determinant F.field word.old ≢ F.field.zero }
    requires shape { (x : _) → trinomial_at F.field t x ≡ quadratic F.field word.old x }
    ensures { Attempt F.field word.old word.new result }
{
    let n = word.len();
    let later = find_root(t, Locator::last(), n)?;
    let earlier = find_root(t, later.next(), n)?;
    let error = s.error_at(earlier.value, later.value);
    let other = s.s0 + error;
    let place = n - 1 - earlier.exponent;
    let second = n - 1 - later.exponent;
    alter(word, place, error);
    alter(word, second, other);
    Some(MendRecord::two(place as u8, second as u8))
}

/// Leaves in `word` the coded word that differs from it in at most two symbols, and answers at which places; `None`, and the word as
/// it was, where there is none.
pub fn mend<F: Field>(word: &mut [F]) -> Option<MendRecord>
    ensures { Mended F.field word.old word.new result }
{
    let n = word.len();
    if n < SHORTEST || n > F::order() {
        return None;
    }
    let s = syndromes_of(word);
    if s.are_zero() {
        return Some(MendRecord::none());
    }
    let t = s.quadratic();
    if t.square.is_zero() {
        mend_one(word, s)
    } else {
        mend_two(word, s, t)
    }
}

/// What mending leaves and answers is fixed by the word alone.
pub fn mended_one_way<T>() -> u8
    ensures { MendedOneWay T }
{
    0
}
