//! Questions, in the order of their refusals, and what is given.
use crate::lines::{by_field, offer_sound, offer_words, sound_words};
use codec::MendRecord;
use denial::{Denial, Layer, Reason};
use receiver::{Closed, Gathering, MEMORY};
use std::process::Abort;
use std::test::Fail;

// A question that is to be refused so, with the answer place as it was.
fn refused(rt: &impl Abort, closed: &Closed, packet: usize, channel: usize, denial: Denial) {
    let mut place = [9; 219];
    assert!(rt; closed.ask(packet, channel, &mut place) == Err(denial));
    assert_eq!(rt; place, [9; 219]);
}

#[test]
fn memory_of_another_length(rt: HostRuntime) {
    let mut memory = [7; 5];
    let closed = Gathering::begin(&mut memory).close();
    refused(&rt, &closed, 678, 2, by_field(Reason::Memory, 5));
    assert_eq!(rt; closed.release().len(), 5);
    assert_eq!(rt; memory, [7; 5]);
}

#[test]
fn blocks_that_no_field_has(rt: HostRuntime) -> Result<(), Fail> {
    let mut memory = vec![in rt.alloc(); 7u8; MEMORY]?;
    let closed = Gathering::begin(&mut memory).close();
    let number = Denial::new(Reason::Number, Layer::Field, 678, 0);
    refused(&rt, &closed, 678, 0, number);
    let mut place = [9; 218];
    assert!(rt; closed.ask(0, 2, &mut place) == Err(number.at(0, 2)));
    assert!(rt; closed.ask(0, 1, &mut place) == Err(by_field(Reason::Length, 218)));
    assert_eq!(rt; place, [9; 218]);
    Ok(())
}

// Packet 3 stands on lines 0 and 1.
#[test]
fn a_block_without_its_first_line(rt: HostRuntime) -> Result<(), Fail> {
    let mut memory = vec![in rt.alloc(); 7u8; MEMORY]?;
    let mut gathering = Gathering::begin(&mut memory);
    assert_eq!(rt; offer_sound(&mut gathering, 1), Ok(()));
    refused(&rt, &gathering.close(), 3, 1, by_field(Reason::Missing, 0));
    Ok(())
}

#[test]
fn a_block_without_its_second_line(rt: HostRuntime) -> Result<(), Fail> {
    let mut memory = vec![in rt.alloc(); 7u8; MEMORY]?;
    let mut gathering = Gathering::begin(&mut memory);
    assert_eq!(rt; offer_sound(&mut gathering, 0), Ok(()));
    refused(&rt, &gathering.close(), 3, 0, by_field(Reason::Missing, 1));
    Ok(())
}

// Words 1341, 1343 and 1345 have bytes 221 to 223 of packet 2 from channel 0.
#[test]
fn three_altered_bytes(rt: HostRuntime) -> Result<(), Fail> {
    let mut memory = vec![in rt.alloc(); 7u8; MEMORY]?;
    let mut gathering = Gathering::begin(&mut memory);
    let mut words = sound_words(0);
    words[1341] = 1;
    words[1343] = 1;
    words[1345] = 1;
    assert_eq!(rt; offer_words(&mut gathering, &mut words, 0), Ok(()));
    let lost = Denial::new(Reason::Lost, Layer::Code, 2, 0);
    refused(&rt, &gathering.close(), 2, 0, lost);
    Ok(())
}

// The record of a question that is to be given zeros.
fn given(
    rt: &impl Abort,
    closed: &Closed,
    packet: usize,
    channel: usize,
) -> Result<MendRecord, Fail> {
    let mut place = [9; 219];
    let answer = closed.ask(packet, channel, &mut place);
    assert_eq!(rt; place, [0; 219]);
    answer.map_err(|_| Fail::new("refused"))
}

// Word 17 has byte 7 of packet 0 from channel 0.
#[test]
fn a_clean_block_and_one_altered_byte(rt: HostRuntime) -> Result<(), Fail> {
    let mut memory = vec![in rt.alloc(); 7u8; MEMORY]?;
    let mut gathering = Gathering::begin(&mut memory);
    let mut words = sound_words(0);
    words[17] = 0x105;
    assert_eq!(rt; offer_words(&mut gathering, &mut words, 0), Ok(()));
    let closed = gathering.close();
    let clean = given(&rt, &closed, 0, 1)?;
    assert_eq!(rt; clean.count(), 0);
    let mended = given(&rt, &closed, 0, 0)?;
    assert_eq!(rt; mended.count(), 1);
    assert_eq!(rt; mended.first(), 7);
    Ok(())
}
