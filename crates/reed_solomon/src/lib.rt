//! The Reed-Solomon code with four check symbols: its definitions stand in specs/, and each function here has a theorem about them
//! as its contract. The theorems hold over every field of characteristic two and for every length from 5 to the field's order.
#![tactic(auto)]

ghost use Rattle.reed_solomon.specs.Code.{CodedBySyndromes, OneWithinTwo};

/// A word is coded exactly when its values at the four roots of the generator are zero.
pub fn coded_by_syndromes<T>() -> u8
    ensures { CodedBySyndromes T }
{
    0
}

/// Two coded words that each differ from one word in at most two symbols are equal.
pub fn one_within_two<T>() -> u8
    ensures { OneWithinTwo T }
{
    0
}
