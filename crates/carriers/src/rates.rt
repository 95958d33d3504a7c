//! Where the fields of each rate begin.
ghost use Rattle.std.specs.Prelude.{◌≡◌};
ghost use Rattle.carriers.specs.Rates.{started};

// The first line of the first and of the second field, by rate: 24/1.001, 24, 25, 30/1.001.
const FIELD_STARTS: [[usize; 2]; 4] = [[50, 313], [59, 372], [59, 372], [50, 313]];

/// The line on which a field begins; none where there is no such rate or field.
// Rates and fields stay numbers, here and in a window: any number may be asked for, and is answered.
pub fn field_start(rate: usize, field: usize) -> Option<usize>
    ensures { result ≡ started rate field }
{
    FIELD_STARTS.get(rate)?.get(field).copied()
}
