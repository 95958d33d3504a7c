//! The check symbols of a run of data symbols.
ghost use Rattle.codec.specs.Check.{Checked};

use crate::remainder::remainder_with_zeros;
use galois::{Cubic, Field};

/// The only four symbols that make the data, followed by them, a coded word: `k3` stands first. None where the data is empty or
/// longer than the code allows.
pub fn check_symbols<F: Field>(symbols: &[F]) -> Option<Cubic<F>>
    ensures { Checked F.field symbols.now result }
{
    let n = symbols.len();
    if n < 1 || F::order() < 4 || n > F::order() - 4 {
        return None;
    }
    Some(remainder_with_zeros(symbols))
}
