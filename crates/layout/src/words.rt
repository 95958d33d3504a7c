//! Ten-bit words.
ghost use Rattle.std.specs.Prelude.{◌≡◌};
ghost use Rattle.layout.specs.Words.{received_byte, sent_word, WordsApart};

/// The sent word of a byte: the byte, then a bit that tells whether it has an odd number of ones, then the opposite of that bit.
pub fn sent_word(byte: u8) -> u16
    ensures { result ≡ sent_word byte }
{
    if byte.count_ones() % 2 == 1 {
        256 + u16::from(byte)
    } else {
        512 + u16::from(byte)
    }
}

/// The byte of a received word: its low eight bits.
pub fn received_byte(word: u16) -> u8
    ensures { result ≡ received_byte word }
{
    (word % 256) as u8
}

/// Every byte comes back from its word, and no two bytes share one.
pub fn words_apart() -> u8
    ensures { WordsApart }
{
    0
}
