//! What is looked for before a field is written, and what stands on the carrier then.
use crate::refusals::refusal;
use carriers::{Carrier, Sheet};
use codewords::{BLOCK, Verdict, judge};
use denial::{Denial, Reason};
use layout::{place_of, received_byte};
use sender::{BASIC, MEMORY, Sender};
use std::test::Fail;
use strip::Strip;

// Words to a line.
const LINE: usize = 1440;

// Loads both blocks of so many packets. The bytes of a block are alike, and its neighbours have others.
fn load_packets(sender: &mut Sender<'_>, packets: usize) -> Result<(), Denial> {
    for packet in 0..packets {
        let low = (packet % 128) as u8;
        sender.load(packet, 0, &[low; BASIC])?;
        sender.load(packet, 1, &[low + 128; BASIC])?;
    }
    Ok(())
}

// The coded block of a packet from a channel, byte by byte from where it stands.
fn block_on<C: Carrier>(carrier: &C, packet: usize, channel: usize) -> Result<[u8; BLOCK], Denial> {
    let mut block = [0; BLOCK];
    for (j, byte) in block.iter_mut().enumerate() {
        let (line, word) = place_of(packet, channel, j)?;
        *byte = received_byte(carrier.read(line, word)?);
    }
    Ok(block)
}

#[test]
fn the_first_missing_block_is_told(rt: HostRuntime) -> Result<(), Fail> {
    let mut memory = vec![in rt.alloc(); 9u8; MEMORY]?;
    let mut words = [5u16; LINE];
    let mut sheet = Sheet {
        first: 0,
        words: &mut words,
    };
    let mut sender = Sender::begin(memory.as_mut_slice());
    assert_eq!(rt; load_packets(&mut sender, 677), Ok(()));
    let answer = sender.map(&mut sheet);
    assert_eq!(rt; answer, Err(refusal(Reason::Unfilled, 677, 1)));
    assert_eq!(rt; sender.load(677, 1, &[7; BASIC]), Ok(()));
    let answer = sender.map(&mut sheet);
    assert_eq!(rt; answer, Err(refusal(Reason::Unfilled, 677, 0)));
    assert_eq!(rt; words, [5; LINE]);
    Ok(())
}

// Lines 0 to 210, and lines 1 to 212.
#[test]
fn the_first_missing_line_is_told(rt: HostRuntime) -> Result<(), Fail> {
    let mut memory = vec![in rt.alloc(); 9u8; MEMORY]?;
    let mut sender = Sender::begin(memory.as_mut_slice());
    assert_eq!(rt; load_packets(&mut sender, 678), Ok(()));
    let before = vec![in rt.alloc(); 5u16; 212 * LINE]?;
    let mut words = vec![in rt.alloc(); 5u16; 212 * LINE]?;
    let mut short = Sheet {
        first: 0,
        words: &mut words.as_mut_slice()[0..211 * LINE],
    };
    let answer = sender.map(&mut short);
    assert_eq!(rt; answer, Err(refusal(Reason::Short, 211, 0)));
    let mut late = Sheet {
        first: 1,
        words: words.as_mut_slice(),
    };
    let answer = sender.map(&mut late);
    assert_eq!(rt; answer, Err(refusal(Reason::Short, 0, 0)));
    assert!(rt; words.as_slice() == before.as_slice());
    Ok(())
}

// Packet 3 runs over a line end.
#[test]
fn a_sent_block_is_read_back(rt: HostRuntime) -> Result<(), Fail> {
    let mut memory = vec![in rt.alloc(); 9u8; MEMORY]?;
    let mut sender = Sender::begin(memory.as_mut_slice());
    assert_eq!(rt; load_packets(&mut sender, 678), Ok(()));
    let mut bytes = vec![in rt.alloc(); 5u8; 212 * 1800]?;
    let mut strip = Strip {
        first: 0,
        bytes: bytes.as_mut_slice(),
    };
    assert_eq!(rt; sender.map(&mut strip), Ok(()));
    let block = block_on(&strip, 3, 1)?;
    assert!(rt; block[0..219] == [131; 219]);
    assert_eq!(rt; block[219], 0);
    assert_eq!(rt; judge(&block), Verdict::Clean);
    Ok(())
}
