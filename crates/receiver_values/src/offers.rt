//! Offers, in the order of their refusals.
use crate::lines::{by_field, offer_sound, offer_words, sound_words};
use carriers::Sheet;
use denial::{Denial, Layer, Reason};
use receiver::{Gathering, MEMORY};
use std::test::Fail;

fn by_line(reason: Reason, line: usize, word: usize) -> Denial {
    Denial::new(reason, Layer::Line, line, word)
}

#[test]
fn memory_of_another_length(rt: HostRuntime) {
    let mut memory = [7; 5];
    let mut gathering = Gathering::begin(&mut memory);
    assert_eq!(rt;
        offer_sound(&mut gathering, 212),
        Err(by_field(Reason::Memory, 5))
    );
    assert_eq!(rt; gathering.release().len(), 5);
    assert_eq!(rt; memory, [7; 5]);
}

#[test]
fn the_last_line_twice_and_one_past_it(rt: HostRuntime) -> Result<(), Fail> {
    let mut memory = vec![in rt.alloc(); 7u8; MEMORY]?;
    let mut gathering = Gathering::begin(&mut memory);
    assert_eq!(rt; offer_sound(&mut gathering, 211), Ok(()));
    assert_eq!(rt;
        offer_words(&mut gathering, &mut [0; 1440], 211),
        Err(by_field(Reason::Held, 211))
    );
    assert_eq!(rt;
        offer_sound(&mut gathering, 212),
        Err(by_field(Reason::Off, 212))
    );
    Ok(())
}

#[test]
fn a_line_that_the_carrier_lacks(rt: HostRuntime) -> Result<(), Fail> {
    let mut memory = vec![in rt.alloc(); 7u8; MEMORY]?;
    let mut gathering = Gathering::begin(&mut memory);
    let mut words = sound_words(4);
    let sheet = Sheet {
        first: 5,
        words: &mut words,
    };
    assert_eq!(rt;
        gathering.offer(&sheet, 4),
        Err(Denial::new(Reason::Off, Layer::Carrier, 4, 0))
    );
    Ok(())
}

#[test]
fn a_wide_last_word_leaves_the_line_free(rt: HostRuntime) -> Result<(), Fail> {
    let mut memory = vec![in rt.alloc(); 7u8; MEMORY]?;
    let mut gathering = Gathering::begin(&mut memory);
    let mut words = sound_words(3);
    words[0] = 0;
    words[1439] = 1024;
    assert_eq!(rt;
        offer_words(&mut gathering, &mut words, 3),
        Err(by_line(Reason::Wide, 3, 1439))
    );
    words[0] = 0x248;
    words[1439] = 1023;
    assert_eq!(rt; offer_words(&mut gathering, &mut words, 3), Ok(()));
    Ok(())
}

// What an offer answers of a sound line whose first two words are set to these.
fn headed(gathering: &mut Gathering, line: usize, first: u16, mark: u16) -> Result<(), Denial> {
    let mut words = sound_words(line);
    words[0] = first;
    words[1] = mark;
    offer_words(gathering, &mut words, line)
}

#[test]
fn the_first_two_words(rt: HostRuntime) -> Result<(), Fail> {
    let mut memory = vec![in rt.alloc(); 7u8; MEMORY]?;
    let mut gathering = Gathering::begin(&mut memory);
    assert_eq!(rt;
        headed(&mut gathering, 9, 0x48, 0x200),
        Err(by_line(Reason::Type, 9, 0))
    );
    assert_eq!(rt;
        headed(&mut gathering, 9, 0x248, 0x200),
        Err(by_line(Reason::Empty, 9, 1))
    );
    assert_eq!(rt;
        headed(&mut gathering, 1, 0x248, 0x1fe),
        Err(by_line(Reason::Mark, 1, 1))
    );
    assert_eq!(rt;
        headed(&mut gathering, 0, 0x248, 0x1fd),
        Err(by_line(Reason::Mark, 0, 1))
    );
    assert_eq!(rt; headed(&mut gathering, 0, 0x248, 0x1fe), Ok(()));
    assert_eq!(rt; headed(&mut gathering, 1, 0x248, 0x1fd), Ok(()));
    Ok(())
}
