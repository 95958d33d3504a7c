//! What mending altered: how many symbols, and at which places.
ghost use Rattle.std.specs.Prelude.{◌≡◌, ◌<◌, ◌≤◌};

/// The places rise, and one that is not used is 255, which is no place of a word. No record exists whose count and places disagree.
// A struct and no enum of none, one or two: the count and both places are asked for by number, and only this crate may make one.
#[derive(Clone, Copy, PartialEq, Eq, Debug)]
pub struct MendRecord {
    count: u8,
    first: u8,
    second: u8,
    ghost agree: { (count ≤ 2) × (count ≡ 0 → first ≡ 255) × (count < 2 → second ≡ 255) × (0 < count → first < 255) × (1 < count → (first < second) × (second < 255)) },
}

impl MendRecord {
    pub(crate) fn none() -> MendRecord
        ensures { (result.count ≡ 0) × (result.first ≡ 255) × (result.second ≡ 255) }
    {
        MendRecord {
            count: 0,
            first: 255,
            second: 255,
        }
    }

    pub(crate) fn one(place: u8) -> MendRecord
        requires { place < 255 }
        ensures { (result.count ≡ 1) × (result.first ≡ place) × (result.second ≡ 255) }
    {
        MendRecord {
            count: 1,
            first: place,
            second: 255,
        }
    }

    pub(crate) fn two(place: u8, later: u8) -> MendRecord
        requires { (place < later) × (later < 255) }
        ensures { (result.count ≡ 2) × (result.first ≡ place) × (result.second ≡ later) }
    {
        MendRecord {
            count: 2,
            first: place,
            second: later,
        }
    }

    pub fn count(&self) -> u8
        ensures { result ≡ self.now.count }
    {
        self.count
    }

    /// The first place, or 255.
    pub fn first(&self) -> u8
        ensures { result ≡ self.now.first }
    {
        self.first
    }

    /// The second place, or 255.
    pub fn second(&self) -> u8
        ensures { result ≡ self.now.second }
    {
        self.second
    }
}
