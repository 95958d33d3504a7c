//! The words of a mapped field.
ghost use Rattle.std.specs.Prelude.{◌≡◌};
ghost use Rattle.layout.specs.First.{FirstFound};
ghost use Rattle.layout.specs.Mapped.{FieldWorded, mark_word};

/// Word 0 of every line.
pub const TYPE_WORD: u16 = 0x248;

/// The word that fills where no data stand; as a mark it says that the line has none.
pub const FILLER: u16 = 0x200;

const FIRST_MARK: u16 = 0x1fe;

const NEXT_MARK: u16 = 0x1fd;

/// The mark of a line, its word 1.
pub fn mark_word(line: usize) -> u16
    ensures { result ≡ mark_word line }
{
    if line == 0 { FIRST_MARK } else { NEXT_MARK }
}

/// What stands at each word of each line of a field is fixed by its coded blocks.
pub fn field_worded() -> u8
    ensures { FieldWorded }
{
    0
}

/// A search answers the first number that passes, or that none does.
pub fn first_found() -> u8
    ensures { FirstFound }
{
    0
}
