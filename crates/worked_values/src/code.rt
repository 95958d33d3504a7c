//! Check symbols and mending, by values worked out by hand.
use codec::check_symbols;
use codewords::{make_block, make_label, mend_block, mend_label};
use denial::{Denial, Layer, Reason};
use galois::{Field, Gf256};
use std::test::Fail;

// The check bytes of 220 bytes that are zero but for a 1 at `place`.
fn checks_of_one(place: usize) -> Option<[u8; 4]> {
    let mut symbols = [Gf256::zero(); 220];
    *symbols.get_mut(place)? = Gf256::one();
    Some(check_symbols(&symbols)?.numbers())
}

fn lost() -> Denial {
    Denial::new(Reason::Lost, Layer::Code, 0, 0)
}

#[test]
fn the_last_data_byte_alone(rt: HostRuntime) {
    assert_eq!(rt; checks_of_one(219), Some([0x0f, 0x36, 0x78, 0x40]));
}

#[test]
fn the_byte_before_it_alone(rt: HostRuntime) {
    assert_eq!(rt; checks_of_one(218), Some([0x63, 0x57, 0xd2, 0xe7]));
}

#[test]
fn a_block_of_its_last_byte_alone(rt: HostRuntime) {
    let mut basic = [0; 219];
    basic[218] = 0x01;
    let mut coded = [9; 224];
    assert_eq!(rt; make_block(&basic, &mut coded), Ok(()));
    let mut expected = [0; 224];
    expected[218] = 0x01;
    expected[220..].copy_from_slice(&[0x63, 0x57, 0xd2, 0xe7]);
    assert_eq!(rt; coded, expected);
}

#[test]
fn the_last_label_digit_alone(rt: HostRuntime) {
    let mut label = [9; 15];
    assert_eq!(rt;
        make_label(&[0, 0, 0, 0, 0, 0, 0, 0, 0, 0, 1], &mut label),
        Ok(())
    );
    assert_eq!(rt; label, [0, 0, 0, 0, 0, 0, 0, 0, 0, 0, 1, 15, 3, 1, 12]);
}

// A published example of this code.
#[test]
fn a_label_of_1_to_11(rt: HostRuntime) {
    let mut label = [0; 15];
    assert_eq!(rt;
        make_label(&[1, 2, 3, 4, 5, 6, 7, 8, 9, 10, 11], &mut label),
        Ok(())
    );
    assert_eq!(rt; label, [1, 2, 3, 4, 5, 6, 7, 8, 9, 10, 11, 3, 3, 12, 12]);
}

#[test]
fn two_check_bytes_are_mended(rt: HostRuntime) -> Result<(), Fail> {
    let mut block = [0; 224];
    block[219] = 0x01;
    block[220] = 0x0f;
    block[221] = 0x36;
    let mends = mend_block(&mut block)?;
    assert_eq!(rt; mends.count(), 2);
    assert_eq!(rt; mends.first(), 222);
    assert_eq!(rt; mends.second(), 223);
    assert_eq!(rt; block[222], 0x78);
    assert_eq!(rt; block[223], 0x40);
    Ok(())
}

#[test]
fn three_altered_check_bytes_are_lost(rt: HostRuntime) {
    let mut block = [0; 224];
    block[221] = 1;
    block[222] = 1;
    block[223] = 1;
    let before = block;
    assert_eq!(rt; mend_block(&mut block), Err(lost()));
    assert_eq!(rt; block, before);
}

// What the generator leaves of X^224: the nearest codeword of full length has its error before the block's first byte.
#[test]
fn an_error_past_the_start_is_lost(rt: HostRuntime) {
    let mut block = [0; 224];
    block[220] = 0xb2;
    block[221] = 0xb4;
    block[222] = 0x02;
    block[223] = 0x05;
    let before = block;
    assert_eq!(rt; mend_block(&mut block), Err(lost()));
    assert_eq!(rt; block, before);
}

#[test]
fn three_altered_label_digits_are_lost(rt: HostRuntime) {
    let mut label = [0, 0, 0, 0, 0, 0, 0, 0, 0, 0, 0, 0, 1, 1, 1];
    assert_eq!(rt; mend_label(&mut label), Err(lost()));
    assert_eq!(rt; label, [0, 0, 0, 0, 0, 0, 0, 0, 0, 0, 0, 0, 1, 1, 1]);
}
