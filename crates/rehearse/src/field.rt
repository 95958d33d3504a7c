//! The field that is rehearsed.
ghost use Rattle.std.specs.Prelude.{◌≡◌, true, IfOk, Ok};
ghost use Rattle.carriers.specs.Rates.{is_field};
ghost use Rattle.rehearse.specs.Numbers.{number_of};

use crate::fault::Fault;
use crate::numbers::number;
use carriers::{Window, field_start};

/// A field of a rate, where there are such.
#[derive(Clone, Copy)]
pub struct FieldName {
    rate: usize,
    field: usize,
    ghost exists: { is_field rate field ≡ true },
}

impl FieldName {
    /// The rate and the field that two words name.
    pub fn read(rate: &str, field: &str) -> Result<FieldName, Fault>
        ensures { IfOk result (λ name. (number_of rate.now ≡ Ok name.rate) × (number_of field.now ≡ Ok name.field)) }
    {
        let rate = number(rate.as_bytes()).map_err(|_| Fault::Rate)?;
        let field = number(field.as_bytes()).map_err(|_| Fault::Field)?;
        if field_start(rate, 0).is_none() {
            return Err(Fault::Rate);
        }
        if field_start(rate, field).is_none() {
            return Err(Fault::Field);
        }
        Ok(FieldName { rate, field })
    }

    /// The window over the field in the carrier below.
    pub fn window<C>(self, below: C) -> Window<C>
        ensures { (result.rate ≡ self.rate) × (result.field ≡ self.field) × (result.below ≡ below) }
    {
        let FieldName { rate, field } = self;
        Window { rate, field, below }
    }
}
