//! Memory of another length than a sender's.
use crate::refusals::refusal;
use carriers::Sheet;
use denial::Reason;
use sender::{BASIC, MEMORY, Sender};
use std::test::Fail;

#[test]
fn one_byte_more(rt: HostRuntime) -> Result<(), Fail> {
    let mut memory = vec![in rt.alloc(); 9u8; MEMORY + 1]?;
    let before = vec![in rt.alloc(); 9u8; MEMORY + 1]?;
    let mut words = [5u16; 1440];
    let mut sender = Sender::begin(memory.as_mut_slice());
    let answer = sender.load(0, 2, &[7; BASIC]);
    assert_eq!(rt; answer, Err(refusal(Reason::Memory, 298321, 0)));
    let mut sheet = Sheet {
        first: 0,
        words: &mut words,
    };
    let answer = sender.map(&mut sheet);
    assert_eq!(rt; answer, Err(refusal(Reason::Memory, 298321, 0)));
    assert!(rt; *sender.release() == *before.as_slice());
    assert_eq!(rt; words, [5; 1440]);
    Ok(())
}
