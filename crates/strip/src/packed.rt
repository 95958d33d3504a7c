//! Ten-bit words in bytes. Word p begins at bit 10p, which is bit 2 (p mod 4) of byte p + p div 4, and ends in the byte after that one.
ghost use Rattle.std.specs.Prelude.{◌≡◌, ℕ, ◌+◌, ◌*◌, ◌/◌, ◌%◌, ◌<◌, ◌≤◌, ◌≢◌, length, drop, slice_index};
ghost use Rattle.std.specs.Int.{bit_at};
ghost use Rattle.strip.specs.Packed.{word_at};

/// The bits of a word.
const WORD: u16 = 0x3ff;

// Two bytes that stand together as one number, the first its low byte.
fn pair_at(bytes: &[u8], byte: usize) -> u16
    requires within { byte + 1 < length bytes.now }
    ensures first { result % 256 ≡ slice_index bytes.now byte }
    ensures second { result / 256 ≡ slice_index bytes.now (byte + 1) }
{
    u16::from_le_bytes([bytes[byte], bytes[byte + 1]])
}

/// Word `place` of a run of bytes.
#[tactic(auto, using(crate::proofs::Bits::word_in_pair))]
pub fn word_at(bytes: &[u8], place: usize) -> u16
    requires within { 10 * place + 10 ≤ 8 * length bytes.now }
    ensures { result ≡ word_at bytes.now place }
{
    let pair = pair_at(bytes, place + place / 4);
    (pair >> (place % 4 * 2)) & WORD
}

// `pair` with `value` in the ten bits from bit `shift` on.
#[tactic(auto, using(crate::proofs::Bits::joined_below, crate::proofs::Bits::joined_word, crate::proofs::Bits::joined_above))]
fn with_word(pair: u16, shift: usize, value: u16) -> u16
    requires inside { shift ≤ 6 }
    requires narrow { value < 1024 }
    ensures below { (i : ℕ) → i < shift → bit_at result i ≡ bit_at pair i }
    ensures word { (i : ℕ) → i < 10 → bit_at result (shift + i) ≡ bit_at value i }
    ensures above { (i : ℕ) → shift + 10 ≤ i → i < 16 → bit_at result i ≡ bit_at pair i }
{
    (pair & !(WORD << shift)) | (value << shift)
}

/// Sets word `place` of a run of bytes.
pub fn set_word(bytes: &mut [u8], place: usize, value: u16)
    requires within { 10 * place + 10 ≤ 8 * length bytes.old }
    requires narrow { value < 1024 }
    ensures here { word_at bytes.new place ≡ value }
    ensures there { (k : ℕ) → k ≢ place → word_at bytes.new k ≡ word_at bytes.old k }
    ensures behind { (n : ℕ) → 10 * place + 10 ≤ 8 * n → drop n bytes.new ≡ drop n bytes.old }
{
    let byte = place + place / 4;
    let pair = with_word(pair_at(bytes, byte), place % 4 * 2, value);
    bytes[byte..byte + 2].copy_from_slice(&pair.to_le_bytes());
}
