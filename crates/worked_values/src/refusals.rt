//! The refusals, in their order, and what they leave.
use codec::{check_symbols, mend};
use codewords::{make_block, make_label, mend_block, mend_label};
use denial::{Denial, Layer, Reason};
use galois::{Field, Gf16, Gf256};
use std::test::Fail;

fn length(bytes: usize) -> Denial {
    Denial::new(Reason::Length, Layer::Code, bytes, 0)
}

fn wide(place: usize) -> Denial {
    Denial::new(Reason::Wide, Layer::Code, 0, place)
}

#[test]
fn blocks_of_another_length(rt: HostRuntime) {
    let mut short = [7; 223];
    assert_eq!(rt; mend_block(&mut short), Err(length(223)));
    assert_eq!(rt; short, [7; 223]);
    let mut long = [7; 225];
    assert_eq!(rt; mend_block(&mut long), Err(length(225)));
    assert_eq!(rt; long, [7; 225]);
}

#[test]
fn a_label_is_measured_before_its_digits(rt: HostRuntime) {
    let mut label = [16; 14];
    assert_eq!(rt; mend_label(&mut label), Err(length(14)));
    assert_eq!(rt; label, [16; 14]);
}

#[test]
fn the_first_wide_digit_is_named(rt: HostRuntime) {
    let mut label = [0, 0, 0, 16, 0, 0, 0, 0, 255, 0, 0, 0, 0, 0, 0];
    assert_eq!(rt; mend_label(&mut label), Err(wide(3)));
    assert_eq!(rt; label, [0, 0, 0, 16, 0, 0, 0, 0, 255, 0, 0, 0, 0, 0, 0]);
}

#[test]
fn making_measures_the_data_first(rt: HostRuntime) {
    let mut label = [1; 14];
    assert_eq!(rt; make_label(&[16; 10], &mut label), Err(length(10)));
    assert_eq!(rt; make_label(&[16; 11], &mut label), Err(length(14)));
    assert_eq!(rt; label, [1; 14]);
}

#[test]
fn making_refuses_a_wide_digit(rt: HostRuntime) {
    let mut label = [1; 15];
    assert_eq!(rt;
        make_label(&[0, 15, 0, 0, 0, 0, 0, 0, 0, 0, 16], &mut label),
        Err(wide(10))
    );
    assert_eq!(rt; label, [1; 15]);
}

#[test]
fn a_block_is_made_of_219_bytes(rt: HostRuntime) {
    let mut coded = [7; 224];
    let refused = Denial::new(Reason::Length, Layer::Field, 218, 0);
    assert_eq!(rt; make_block(&[1; 218], &mut coded), Err(refused));
    assert_eq!(rt; coded, [7; 224]);
}

#[test]
fn a_block_is_made_in_224_bytes(rt: HostRuntime) {
    let mut coded = [7; 223];
    assert_eq!(rt; make_block(&[1; 219], &mut coded), Err(length(223)));
    assert_eq!(rt; coded, [7; 223]);
}

#[test]
fn lengths_that_the_code_has_not(rt: HostRuntime) {
    let mut four = [Gf16::zero(); 4];
    assert!(rt; mend(&mut four).is_none());
    let mut sixteen = [Gf16::zero(); 16];
    assert!(rt; mend(&mut sixteen).is_none());
    let twelve = [Gf16::zero(); 12];
    assert!(rt; check_symbols(&twelve).is_none());
}

#[test]
fn a_denial_in_words(rt: HostRuntime) -> Result<(), Fail> {
    let text = format!(in rt.alloc(); "{}", wide(3))?;
    assert_eq!(rt; text.as_str(), "3 wide code 0 3");
    Ok(())
}

// A cast counts the reasons from 0, and their numbers begin with 1.
#[test]
fn reasons_by_cast_and_by_number(rt: HostRuntime) -> Result<(), Fail> {
    assert_eq!(rt; (Reason::Memory as u8, Reason::Memory.number()), (0, 1));
    assert_eq!(rt; (Reason::Lost as u8, Reason::Lost.number()), (13, 14));
    Ok(())
}

#[test]
fn an_element_prints_under_its_field(rt: HostRuntime) -> Result<(), Fail> {
    let text = format!(in rt.alloc(); "{:?} {:?}", Gf256::one(), Gf16::one())?;
    assert_eq!(rt; text.as_str(), "Gf256 { bits: 1 } Gf16 { bits: 1 }");
    Ok(())
}
