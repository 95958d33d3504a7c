//! Lines to offer.
use carriers::Sheet;
use denial::{Denial, Layer, Reason};
use layout::{FILLER, TYPE_WORD, mark_word};
use receiver::Gathering;

// The words of a sound line whose bytes are zero.
pub(crate) fn sound_words(line: usize) -> [u16; 1440] {
    let mut words = [FILLER; 1440];
    words[0] = TYPE_WORD;
    words[1] = mark_word(line);
    words
}

// Offers these words as a line.
pub(crate) fn offer_words(
    gathering: &mut Gathering,
    words: &mut [u16],
    line: usize,
) -> Result<(), Denial> {
    gathering.offer(&Sheet { first: line, words }, line)
}

// Offers a sound line.
pub(crate) fn offer_sound(gathering: &mut Gathering, line: usize) -> Result<(), Denial> {
    offer_words(gathering, &mut sound_words(line), line)
}

// A denial by the field that tells one number.
pub(crate) fn by_field(reason: Reason, number: usize) -> Denial {
    Denial::new(reason, Layer::Field, number, 0)
}
