// The round constants of the permutation in each field. No code reads the inverses that its matrix is made of: their table stands in the definitions alone.
#![tactic(auto)]

mod tables;

ghost use Rattle.std.specs.Prelude.{◌≡◌};
ghost use Rattle.field.specs.declared.Field.TheVariants.{BabyBear, KoalaBear};
ghost use Rattle.poseidon_tables.specs.Tables.{constants};

// BabyBear's round constants: round by round, element 0 first.
pub fn baby_bear_constants() -> [u32; 696]
    ensures { result ≡ constants BabyBear }
{
    tables::BABY_BEAR_CONSTANTS
}

// KoalaBear's, in the same order.
pub fn koala_bear_constants() -> [u32; 744]
    ensures { result ≡ constants KoalaBear }
{
    tables::KOALA_BEAR_CONSTANTS
}
