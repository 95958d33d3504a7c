//! A sender's refusals.
use denial::{Denial, Layer, Reason};

/// All are told by the layer of the field.
pub(crate) fn refusal(reason: Reason, first: usize, second: usize) -> Denial {
    Denial::new(reason, Layer::Field, first, second)
}
