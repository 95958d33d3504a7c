//! Whole transfers.
use carriers::Sheet;
use denial::{Denial, Layer, Reason};
use receiver::MEMORY;
use sender::Sender;
use std::test::Fail;
use transfer::{Step, transfer};

// Loads every block of a field with the same bytes.
fn load_all(sender: &mut Sender, block: &[u8]) -> Result<(), Denial> {
    for packet in 0..678 {
        sender.load(packet, 1, block)?;
        sender.load(packet, 0, block)?;
    }
    Ok(())
}

const STEPS: [Step; 4] = [
    Step::Offer { line: 1 },
    Step::Write {
        line: 0,
        word: 1437,
        value: 0x1ff,
    },
    Step::Offer { line: 0 },
    Step::Offer { line: 1 },
];

// Word 1437 of line 0 has byte 45 of packet 3 from channel 0.
#[test]
fn a_byte_altered_on_the_way(rt: HostRuntime) -> Result<(), Fail> {
    let mut loaded = vec![in rt.alloc(); 0u8; sender::MEMORY]?;
    let mut sender = Sender::begin(&mut loaded);
    assert_eq!(rt; load_all(&mut sender, &[5; 219]), Ok(()));
    let mut words = vec![in rt.alloc(); 0u16; 305280]?;
    let mut sheet = Sheet {
        first: 0,
        words: &mut words,
    };
    let mut memory = vec![in rt.alloc(); 7u8; MEMORY]?;
    let mut answers = [Ok(()); 4];
    let outcome = transfer(&sender, &mut sheet, &mut memory, &STEPS, &mut answers);
    assert_eq!(rt; outcome.mapped, Ok(()));
    assert_eq!(rt;
        answers[3],
        Err(Denial::new(Reason::Held, Layer::Field, 1, 0))
    );
    let mut place = [9; 219];
    let answer = outcome.receiver.ask(3, 0, &mut place);
    let mends = answer.map_err(|_| Fail::new("refused"))?;
    assert_eq!(rt; mends.count(), 1);
    assert_eq!(rt; mends.first(), 45);
    assert_eq!(rt; place, [5; 219]);
    Ok(())
}

#[test]
fn a_field_that_is_not_filled(rt: HostRuntime) -> Result<(), Fail> {
    let mut loaded = vec![in rt.alloc(); 0u8; sender::MEMORY]?;
    let sender = Sender::begin(&mut loaded);
    let mut sheet = Sheet {
        first: 0,
        words: &mut [],
    };
    let mut memory = [7; 5];
    let mut answers = [Ok(()); 4];
    let outcome = transfer(&sender, &mut sheet, &mut memory, &STEPS, &mut answers);
    assert_eq!(rt;
        outcome.mapped,
        Err(Denial::new(Reason::Unfilled, Layer::Field, 0, 1))
    );
    assert_eq!(rt; answers, [Ok(()); 4]);
    Ok(())
}
