//! Verdict lines.
use codewords::verdict_line;
use std::test::Fail;

#[test]
fn a_block_of_zeros(rt: HostRuntime) -> Result<(), Fail> {
    let line = verdict_line(rt.alloc(), 0, &[0; 224])?;
    assert_eq!(rt; line.as_str(), "0 clean\n");
    Ok(())
}

#[test]
fn one_byte_and_two(rt: HostRuntime) -> Result<(), Fail> {
    let mut block = [0; 224];
    block[0] = 7;
    let line = verdict_line(rt.alloc(), 9, &block)?;
    assert_eq!(rt; line.as_str(), "9 mended 0\n");
    block[223] = 255;
    let line = verdict_line(rt.alloc(), 10, &block)?;
    assert_eq!(rt; line.as_str(), "10 mended 0 223\n");
    Ok(())
}

#[test]
fn a_lost_block(rt: HostRuntime) -> Result<(), Fail> {
    let mut block = [0; 224];
    block[221] = 1;
    block[222] = 1;
    block[223] = 1;
    let line = verdict_line(rt.alloc(), 18446744073709551615, &block)?;
    assert_eq!(rt; line.as_str(), "18446744073709551615 lost\n");
    Ok(())
}

#[test]
fn an_unfinished_block(rt: HostRuntime) -> Result<(), Fail> {
    let line = verdict_line(rt.alloc(), 3, &[1, 2, 3, 4, 5])?;
    assert_eq!(rt; line.as_str(), "3 short 5\n");
    let line = verdict_line(rt.alloc(), 0, &[0; 223])?;
    assert_eq!(rt; line.as_str(), "0 short 223\n");
    Ok(())
}
