//! Elements, by their numbers.
ghost use Rattle.std.specs.Prelude.{◌<◌};

mod arithmetic;

use std::fmt;

/// An element of the field of so many elements.
#[derive(Clone, Copy, PartialEq, Eq)]
pub struct Element<const SIZE: usize> {
    bits: u8,
    ghost below: { bits < SIZE },
}

/// An element of the field of 16 elements.
pub type Gf16 = Element<16>;

/// An element of the field of 256 elements.
pub type Gf256 = Element<256>;

// By hand, since both fields have one type: an element is told by the name of its field.
impl<const SIZE: usize> fmt::Debug for Element<SIZE> {
    fn fmt<W: fmt::Write>(&self, f: &mut fmt::Formatter<W>) -> fmt::Result {
        f.debug_struct(if SIZE == 16 { "Gf16" } else { "Gf256" })
            .field("bits", &self.bits)
            .finish()
    }
}
