//! The tables of the field of 16 elements.
ghost use Rattle.galois.specs.Fields.{of_digit};
ghost use Rattle.galois.specs.Remainders.{tabled16};
ghost use Rattle.galois.specs.Tables.{logs16, powers16, products16};

use crate::cubic::Cubic;
use crate::element::Element;
use crate::tables::Tables;

const LOGS: &[u8; 16] = b"\x00\x00\x01\x04\x02\x08\x05\x0a\x03\x0e\x09\x07\x06\x0d\x0b\x0c";

const POWERS: &[u8; 30] = b"\x01\x02\x04\x08\x03\x06\x0c\x0b\x05\x0a\x07\x0e\x0f\x0d\x09\x01\
      \x02\x04\x08\x03\x06\x0c\x0b\x05\x0a\x07\x0e\x0f\x0d\x09";

const TIMES_15: &[u8; 16] = b"\x00\x0f\x0d\x02\x09\x06\x04\x0b\x01\x0e\x0c\x03\x08\x07\x05\x0a";

const TIMES_3: &[u8; 16] = b"\x00\x03\x06\x05\x0c\x0f\x0a\x09\x0b\x08\x0d\x0e\x07\x04\x01\x02";

const TIMES_1: &[u8; 16] = b"\x00\x01\x02\x03\x04\x05\x06\x07\x08\x09\x0a\x0b\x0c\x0d\x0e\x0f";

const TIMES_12: &[u8; 16] = b"\x00\x0c\x0b\x07\x05\x09\x0e\x02\x0a\x06\x01\x0d\x0f\x03\x04\x08";

impl Tables<16> for Element<16> {
    ghost polynomial = { 19 };

    ghost degree = { 3 };

    ghost of = { of_digit };

    ghost logs = { logs16 };

    ghost powers = { powers16 };

    ghost products = { products16 };

    ghost REDUCTION = { 19 };

    const REDUCTION: u8 = 0x13;

    fn logs() -> &'static [u8; 16] {
        LOGS
    }

    fn powers() -> &'static [u8] {
        POWERS
    }

    fn products() -> Cubic<&'static [u8; 16]> {
        Cubic {
            k3: TIMES_15,
            k2: TIMES_3,
            k1: TIMES_1,
            k0: TIMES_12,
        }
    }

    ghost tabled = { tabled16 };
}
