//! Sheets, captures, strips and windows, by values worked out by hand.
use crate::refusals::{off, wide};
use carriers::{Capture, Carrier, Sheet, Window, WritableCarrier, field_start};
use strip::Strip;

#[test]
fn an_unfinished_line_does_not_count(rt: HostRuntime) {
    let mut words = [0; 1439];
    let mut sheet = Sheet {
        first: 7,
        words: &mut words,
    };
    assert_eq!(rt; sheet.read(7, 0), Err(off(7, 0)));
    assert_eq!(rt; sheet.write(7, 0, 5), Err(off(7, 0)));
    assert_eq!(rt; words, [0; 1439]);
}

#[test]
fn numbers_of_a_whole_line(rt: HostRuntime) {
    let mut words = [0; 1440];
    words[0] = 65535;
    words[1439] = 3;
    let sheet = Sheet {
        first: 7,
        words: &mut words,
    };
    assert_eq!(rt; sheet.read(7, 0), Ok(65535));
    assert_eq!(rt; sheet.read(7, 1439), Ok(3));
    assert_eq!(rt; sheet.read(7, 1440), Err(off(7, 1440)));
    assert_eq!(rt; sheet.read(6, 0), Err(off(6, 0)));
    assert_eq!(rt; sheet.read(8, 0), Err(off(8, 0)));
}

#[test]
fn ten_bits_are_written_and_no_more(rt: HostRuntime) {
    let mut words = [0; 1440];
    let mut sheet = Sheet {
        first: 0,
        words: &mut words,
    };
    assert_eq!(rt; sheet.write(0, 4, 1023), Ok(()));
    assert_eq!(rt; sheet.read(0, 4), Ok(1023));
    assert_eq!(rt; sheet.write(0, 4, 1024), Err(wide(0, 4)));
    assert_eq!(rt; sheet.read(0, 4), Ok(1023));
    assert_eq!(rt; sheet.write(1, 4, 1024), Err(off(1, 4)));
}

#[test]
fn a_write_sets_one_number(rt: HostRuntime) {
    let mut words = [7; 4320];
    let mut sheet = Sheet {
        first: 3,
        words: &mut words,
    };
    assert_eq!(rt; sheet.write(4, 0, 0x248), Ok(()));
    assert_eq!(rt; sheet.write(4, 1439, 0x200), Ok(()));
    let mut expected = [7; 4320];
    expected[1440] = 0x248;
    expected[2879] = 0x200;
    assert_eq!(rt; words, expected);
}

#[test]
fn line_625_is_the_last(rt: HostRuntime) {
    let mut words = [9; 2880];
    let mut sheet = Sheet {
        first: 625,
        words: &mut words,
    };
    assert_eq!(rt; sheet.read(625, 1439), Ok(9));
    assert_eq!(rt; sheet.read(626, 0), Err(off(626, 0)));
    assert_eq!(rt; sheet.write(626, 0, 1), Err(off(626, 0)));
    assert_eq!(rt; words[1440], 9);
}

#[test]
fn first_lines_above_625(rt: HostRuntime) {
    let mut words = [9; 1440];
    let sheet = Sheet {
        first: 626,
        words: &mut words,
    };
    assert_eq!(rt; sheet.read(626, 0), Err(off(626, 0)));
    assert_eq!(rt; sheet.read(625, 0), Err(off(625, 0)));
    let sheet = Sheet {
        first: usize::MAX,
        words: &mut words,
    };
    assert_eq!(rt; sheet.read(usize::MAX, 0), Err(off(usize::MAX, 0)));
    assert_eq!(rt; sheet.read(0, 0), Err(off(0, 0)));
}

#[test]
fn a_capture_reads_as_a_sheet_does(rt: HostRuntime) {
    let mut words = [0; 2900];
    words[1442] = 40000;
    let capture = Capture {
        first: 624,
        words: &words,
    };
    assert_eq!(rt; capture.read(625, 2), Ok(40000));
    assert_eq!(rt; capture.read(624, 1439), Ok(0));
    assert_eq!(rt; capture.read(623, 0), Err(off(623, 0)));
    assert_eq!(rt; capture.read(626, 0), Err(off(626, 0)));
    assert_eq!(rt; capture.read(625, 1440), Err(off(625, 1440)));
}

#[test]
fn the_first_bytes_of_a_strip(rt: HostRuntime) {
    let mut bytes = [0; 1800];
    let mut strip = Strip {
        first: 7,
        bytes: &mut bytes,
    };
    assert_eq!(rt; strip.write(7, 0, 0x3ff), Ok(()));
    assert_eq!(rt; strip.bytes[1], 0x03);
    assert_eq!(rt; strip.write(7, 1, 0x001), Ok(()));
    assert_eq!(rt; strip.write(7, 3, 0x200), Ok(()));
    assert_eq!(rt; strip.read(7, 0), Ok(0x3ff));
    assert_eq!(rt; strip.read(7, 1), Ok(0x001));
    assert_eq!(rt; strip.read(7, 2), Ok(0));
    assert_eq!(rt; strip.read(7, 3), Ok(0x200));
    let mut expected = [0; 1800];
    expected[0] = 0xff;
    expected[1] = 0x07;
    expected[4] = 0x80;
    assert_eq!(rt; bytes, expected);
}

#[test]
fn lines_of_a_strip(rt: HostRuntime) {
    let mut bytes = [0xff; 3600];
    let mut strip = Strip {
        first: 100,
        bytes: &mut bytes,
    };
    assert_eq!(rt; strip.write(100, 1439, 0), Ok(()));
    assert_eq!(rt; strip.write(101, 0, 0x2aa), Ok(()));
    assert_eq!(rt; strip.write(101, 1, 1024), Err(wide(101, 1)));
    assert_eq!(rt; strip.write(102, 0, 1024), Err(off(102, 0)));
    assert_eq!(rt; strip.read(101, 0), Ok(0x2aa));
    assert_eq!(rt; strip.read(101, 1440), Err(off(101, 1440)));
    let mut expected = [0xff; 3600];
    expected[1798] = 0x3f;
    expected[1799] = 0x00;
    expected[1800] = 0xaa;
    expected[1801] = 0xfe;
    assert_eq!(rt; bytes, expected);
}

#[test]
fn a_strip_of_1799_bytes_has_no_line(rt: HostRuntime) {
    let mut bytes = [0; 1799];
    let mut strip = Strip {
        first: 0,
        bytes: &mut bytes,
    };
    assert_eq!(rt; strip.read(0, 0), Err(off(0, 0)));
    assert_eq!(rt; strip.write(0, 0, 1), Err(off(0, 0)));
}

#[test]
fn where_fields_begin(rt: HostRuntime) {
    assert_eq!(rt; field_start(0, 0), Some(50));
    assert_eq!(rt; field_start(0, 1), Some(313));
    assert_eq!(rt; field_start(1, 0), Some(59));
    assert_eq!(rt; field_start(1, 1), Some(372));
    assert_eq!(rt; field_start(2, 0), Some(59));
    assert_eq!(rt; field_start(2, 1), Some(372));
    assert_eq!(rt; field_start(3, 0), Some(50));
    assert_eq!(rt; field_start(3, 1), Some(313));
    assert_eq!(rt; field_start(4, 0), None);
    assert_eq!(rt; field_start(0, 2), None);
}

#[test]
fn a_window_by_value(rt: HostRuntime) {
    let mut words = [0; 2880];
    let mut window = Window {
        rate: 0,
        field: 0,
        below: Sheet {
            first: 50,
            words: &mut words,
        },
    };
    assert_eq!(rt; window.write(0, 2, 77), Ok(()));
    assert_eq!(rt; window.read(0, 2), Ok(77));
    assert_eq!(rt; window.write(1, 0, 1024), Err(wide(1, 0)));
    assert_eq!(rt; window.write(2, 5, 1), Err(off(2, 5)));
    assert_eq!(rt; window.read(2, 5), Err(off(2, 5)));
    assert_eq!(rt; window.read(1, 1440), Err(off(1, 1440)));
    assert_eq!(rt; window.below.read(50, 2), Ok(77));
    let mut expected = [0; 2880];
    expected[2] = 77;
    assert_eq!(rt; words, expected);
}

// Line 211 of the second field at rate 2 is line 583 of the frame, the last that this window shows.
#[test]
fn the_last_line_of_a_window_over_a_loan(rt: HostRuntime) {
    let mut words = [5; 4320];
    let mut sheet = Sheet {
        first: 582,
        words: &mut words,
    };
    let mut window = Window {
        rate: 2,
        field: 1,
        below: &mut sheet,
    };
    assert_eq!(rt; window.write(211, 1439, 6), Ok(()));
    assert_eq!(rt; window.read(211, 1439), Ok(6));
    assert_eq!(rt; window.read(212, 0), Err(off(212, 0)));
    assert_eq!(rt; window.write(212, 0, 6), Err(off(212, 0)));
    assert_eq!(rt; window.read(209, 3), Err(off(209, 3)));
    assert_eq!(rt; sheet.read(583, 1439), Ok(6));
    assert_eq!(rt; sheet.read(584, 0), Ok(5));
}

#[test]
fn what_a_window_does_not_show_is_left(rt: HostRuntime) {
    let mut bytes = [0; 5400];
    let mut strip = Strip {
        first: 371,
        bytes: &mut bytes,
    };
    assert_eq!(rt; strip.write(371, 1439, 0x155), Ok(()));
    let mut window = Window {
        rate: 1,
        field: 1,
        below: &mut strip,
    };
    assert_eq!(rt; window.write(0, 0, 0x3ff), Ok(()));
    assert_eq!(rt; window.read(0, 0), Ok(0x3ff));
    assert_eq!(rt; strip.read(371, 1439), Ok(0x155));
    assert_eq!(rt; strip.read(372, 0), Ok(0x3ff));
}

#[test]
fn a_window_that_only_reads(rt: HostRuntime) {
    let mut words = [0; 1440];
    words[2] = 60000;
    let capture = Capture {
        first: 524,
        words: &words,
    };
    let window = Window {
        rate: 3,
        field: 1,
        below: &capture,
    };
    assert_eq!(rt; window.read(211, 2), Ok(60000));
    assert_eq!(rt; window.read(210, 2), Err(off(210, 2)));
}

#[test]
fn no_such_rate_or_field(rt: HostRuntime) {
    let mut words = [0; 1440];
    let mut sheet = Sheet {
        first: 0,
        words: &mut words,
    };
    let mut window = Window {
        rate: 4,
        field: 0,
        below: &mut sheet,
    };
    assert_eq!(rt; window.read(0, 0), Err(off(0, 0)));
    assert_eq!(rt; window.write(0, 0, 1), Err(off(0, 0)));
    let window = Window {
        rate: 0,
        field: 2,
        below: &mut sheet,
    };
    assert_eq!(rt; window.read(0, 0), Err(off(0, 0)));
}
