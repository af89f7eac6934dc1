// What a client offers.

ghost use Rattle.std.specs.Prelude.{◌≡◌, IfOk};

use spec_core::items::{Gate, Sort};
use spec_core::memory::Memory;
use spec_core::value::Value;
use std::alloc::Global;
use std::marker::Model;

/// A field of an offer: this value, or any value of a sort.
#[derive(Drop)]
pub enum Field {
    Give(Value),
    Take(Sort),
}

impl Field {
    /// An equal field.
    pub fn copy(&self, alloc: Global) -> Result<Field, Memory>
        ensures equal { IfOk result (λ field. field ≡ self.now) }
    {
        match self {
            Field::Give(value) => Ok(Field::Give(value.copy(alloc)?)),
            Field::Take(sort) => Ok(Field::Take(*sort)),
        }
    }
}

/// Fields in order, which contracts see as a list.
#[derive(Drop)]
pub struct Fields {
    fields: Vec<Field>,
}

impl Model for Fields {
    ghost use Rattle.std.specs.Prelude.{List};
    ghost use Rattle.rule_model.specs.declared.offer.Field.{Field};

    ghost Value = { List Field };

    ghost view = { λ fields. fields.fields.items };
}

impl Fields {
    /// These fields. It takes no memory.
    pub fn new(fields: Vec<Field>) -> Fields
        ensures { result ≡ fields.items }
    {
        Fields { fields }
    }

    /// The fields as a slice. It takes no memory.
    pub fn as_slice(&self) -> &[Field]
        ensures { result.now ≡ self.now }
    {
        self.fields.as_slice()
    }

    /// Equal fields, in the same order.
    pub fn copy(&self, alloc: Global) -> Result<Fields, Memory>
        ensures equal { IfOk result (λ fields. fields ≡ self.now) }
    {
        let mut all = Vec::new(alloc);
        for field in &self.fields {
            all.push(field.copy(alloc)?)?;
        }
        Ok(Fields::new(all))
    }

    /// Gives the list back. It takes no memory.
    pub fn into_vec(self) -> Vec<Field>
        ensures { result.items ≡ self }
    {
        self.fields
    }
}

/// An offer at a gate.
#[derive(Drop)]
pub struct Offer {
    pub gate: Gate,
    pub fields: Fields,
}

impl Offer {
    /// An equal offer.
    pub fn copy(&self, alloc: Global) -> Result<Offer, Memory>
        ensures equal { IfOk result (λ offer. offer ≡ self.now) }
    {
        Ok(Offer {
            gate: self.gate,
            fields: self.fields.copy(alloc)?,
        })
    }
}
