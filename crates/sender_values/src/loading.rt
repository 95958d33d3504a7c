//! Which blocks are loaded, and where they stand.
use crate::refusals::refusal;
use denial::Reason;
use sender::{BASIC, MEMORY, Sender};
use std::test::Fail;

#[test]
fn the_last_block_and_the_refusals(rt: HostRuntime) -> Result<(), Fail> {
    let mut memory = vec![in rt.alloc(); 9u8; MEMORY]?;
    let mut sender = Sender::begin(memory.as_mut_slice());
    assert_eq!(rt; sender.load(677, 0, &[7; BASIC]), Ok(()));
    let answer = sender.load(678, 0, &[7; 218]);
    assert_eq!(rt; answer, Err(refusal(Reason::Number, 678, 0)));
    let answer = sender.load(0, 2, &[7; 218]);
    assert_eq!(rt; answer, Err(refusal(Reason::Number, 0, 2)));
    let answer = sender.load(677, 0, &[7; 218]);
    assert_eq!(rt; answer, Err(refusal(Reason::Length, 218, 0)));
    let answer = sender.load(677, 0, &[8; BASIC]);
    assert_eq!(rt; answer, Err(refusal(Reason::Loaded, 677, 0)));
    Ok(())
}

#[test]
fn a_block_and_its_mark(rt: HostRuntime) -> Result<(), Fail> {
    let mut memory = vec![in rt.alloc(); 9u8; MEMORY]?;
    let mut sender = Sender::begin(memory.as_mut_slice());
    assert_eq!(rt; sender.load(1, 0, &[7; BASIC]), Ok(()));
    let bytes = sender.release();
    // block 3 is bytes 657 to 875, and no byte around it is touched
    assert_eq!(rt; bytes.get(656).copied(), Some(9));
    assert_eq!(rt; bytes.get(657).copied(), Some(7));
    assert_eq!(rt; bytes.get(875).copied(), Some(7));
    assert_eq!(rt; bytes.get(876).copied(), Some(9));
    // its mark is byte 296,967, and the marks around it are clear
    assert_eq!(rt; bytes.get(296963).copied(), Some(9));
    assert_eq!(rt; bytes.get(296966).copied(), Some(0));
    assert_eq!(rt; bytes.get(296967).copied(), Some(1));
    assert_eq!(rt; bytes.get(296968).copied(), Some(0));
    Ok(())
}

// One sender is asked for nothing but what it does, the other for what it refuses as well.
#[test]
fn refusals_leave_every_byte(rt: HostRuntime) -> Result<(), Fail> {
    let mut plain = vec![in rt.alloc(); 9u8; MEMORY]?;
    let mut sender = Sender::begin(plain.as_mut_slice());
    assert_eq!(rt; sender.load(677, 1, &[7; BASIC]), Ok(()));
    let mut refused = vec![in rt.alloc(); 9u8; MEMORY]?;
    let mut sender = Sender::begin(refused.as_mut_slice());
    assert_eq!(rt; sender.load(677, 1, &[7; BASIC]), Ok(()));
    assert!(rt; sender.load(678, 0, &[8; BASIC]).is_err());
    assert!(rt; sender.load(677, 2, &[8; BASIC]).is_err());
    assert!(rt; sender.load(677, 0, &[8; 220]).is_err());
    assert!(rt; sender.load(677, 1, &[8; BASIC]).is_err());
    assert!(rt; plain.as_slice() == refused.as_slice());
    Ok(())
}
