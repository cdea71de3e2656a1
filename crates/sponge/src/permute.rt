// What permutes the states of a field: the field itself, which makes its tables each time, or tables that are lent.
ghost use Rattle.std.specs.Prelude.{◌≡◌};
ghost use Rattle.field.specs.declared.Field.{Field};
ghost use Rattle.poseidon.specs.Permutation.{parameters, permutation};
ghost use Rattle.poseidon.specs.Tables.{tables_of};

use field::Field;
use poseidon::Tables;

pub(crate) trait Permute {
    ghost field_of: { Self → Field };

    // The field.
    fn field(&self) -> Field
        ensures { result ≡ field_of self.now };

    // The permutation of any state.
    fn permute(&self, state: [u32; 24]) -> [u32; 24]
        ensures { result ≡ permutation (parameters (field_of self.now)) state };
}

impl Permute for Field {
    ghost field_of = { λ f. f };

    fn field(&self) -> Field {
        *self
    }

    fn permute(&self, state: [u32; 24]) -> [u32; 24] {
        poseidon::permutation(*self, state)
    }
}

// A field with its tables.
#[derive(Clone, Copy)]
pub(crate) struct Lent<'a> {
    pub(crate) field: Field,
    pub(crate) tables: &'a Tables,
    ghost right: { tables.now ≡ tables_of field },
}

impl<'a> Permute for Lent<'a> {
    ghost field_of = { λ lent. lent.field };

    fn field(&self) -> Field {
        self.field
    }

    fn permute(&self, state: [u32; 24]) -> [u32; 24] {
        poseidon::permutation_by(self.field, state, self.tables)
    }
}
