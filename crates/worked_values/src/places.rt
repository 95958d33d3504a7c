//! Ten-bit words and places in a field, by values worked out by hand.
use denial::{Denial, Layer, Reason};
use layout::{CodedByte, coded_byte_at, place_of, received_byte, second_line, sent_word};

fn no_such(packet: usize, channel: usize) -> Denial {
    Denial::new(Reason::Number, Layer::Field, packet, channel)
}

#[test]
fn words_of_four_bytes(rt: HostRuntime) {
    assert_eq!(rt; sent_word(0x00), 0x200);
    assert_eq!(rt; sent_word(0x48), 0x248);
    assert_eq!(rt; sent_word(0xfe), 0x1fe);
    assert_eq!(rt; sent_word(0xfd), 0x1fd);
    assert_eq!(rt; received_byte(0x3ff), 0xff);
}

#[test]
fn the_first_packet(rt: HostRuntime) {
    assert_eq!(rt; place_of(0, 1, 0), Ok((0, 2)));
    assert_eq!(rt; place_of(0, 0, 0), Ok((0, 3)));
}

#[test]
fn a_packet_runs_over_a_line_end(rt: HostRuntime) {
    assert_eq!(rt; place_of(3, 0, 45), Ok((0, 1437)));
    assert_eq!(rt; place_of(3, 1, 46), Ok((1, 2)));
}

#[test]
fn a_packet_begins_with_a_line(rt: HostRuntime) {
    assert_eq!(rt; place_of(359, 1, 0), Ok((112, 2)));
    assert_eq!(rt; second_line(358, 1), Ok(None));
    assert_eq!(rt; second_line(358, 0), Ok(None));
    assert_eq!(rt; second_line(3, 1), Ok(Some(1)));
}

#[test]
fn the_last_packet(rt: HostRuntime) {
    assert_eq!(rt; place_of(677, 0, 223), Ok((211, 749)));
    let last = CodedByte {
        packet: 677,
        channel: 0,
        byte: 223,
    };
    assert_eq!(rt; coded_byte_at(211, 749), Some(last));
    assert_eq!(rt; coded_byte_at(211, 750), None);
}

#[test]
fn questions_for_what_no_field_has(rt: HostRuntime) {
    assert_eq!(rt; place_of(678, 0, 0), Err(no_such(678, 0)));
    assert_eq!(rt; place_of(0, 2, 0), Err(no_such(0, 2)));
    assert_eq!(rt; place_of(5, 1, 224), Err(no_such(5, 1)));
    assert_eq!(rt; second_line(678, 1), Err(no_such(678, 1)));
    assert_eq!(rt; second_line(0, 2), Err(no_such(0, 2)));
}
