// Arithmetic modulo p in either of two fields. Every function takes all numbers of its type, below p or not.
#![tactic(auto)]

ghost use Rattle.std.specs.Prelude.{◌≡◌, ◌+◌, ◌*◌, ◌%◌, ◌^◌};
ghost use Rattle.basics.specs.Logic.{all};
ghost use Rattle.field.specs.declared.Field.TheVariants.{BabyBear, KoalaBear};
ghost use Rattle.field.specs.Field.{modulus, power, partial_rounds, is_field, field_of, is_element};
ghost use Rattle.field.specs.Numbers.{IsNamed};

use basics::Refusal;

// The two fields.
#[derive(Clone, Copy, Debug, PartialEq, Eq)]
pub enum Field {
    BabyBear,
    KoalaBear,
}

// The field numbers, by which callers name the fields.
const BABY_BEAR: u32 = 1;

const KOALA_BEAR: u32 = 2;

impl TryFrom<u32> for Field {
    type Error = Refusal;

    ghost try_from_gives = { IsNamed };

    fn try_from(number: u32) -> Result<Field, Refusal> {
        match number {
            BABY_BEAR => Ok(Field::BabyBear),
            KOALA_BEAR => Ok(Field::KoalaBear),
            _ => Err(Refusal::FieldUnknown),
        }
    }
}

// Whether a number names a field.
pub fn is_field(number: u32) -> bool
    ensures { result ≡ is_field number }
{
    Field::try_from(number).is_ok()
}

// The field that a number names, and BabyBear for a number that names none.
pub fn field_of(number: u32) -> Field
    ensures { result ≡ field_of number }
{
    Field::try_from(number).unwrap_or(Field::BabyBear)
}

// The modulus p.
pub fn modulus(field: Field) -> u32
    ensures { result ≡ modulus field }
{
    match field {
        Field::BabyBear => 2013265921,
        Field::KoalaBear => 2130706433,
    }
}

// How many partial rounds the field's permutation has.
pub fn partial_rounds(field: Field) -> usize
    ensures { result ≡ partial_rounds field }
{
    match field {
        Field::BabyBear => 21,
        Field::KoalaBear => 23,
    }
}

// The remainder modulo p of a number of 64 bits. The divisors are constants, for which no division is compiled.
pub fn reduce(field: Field, x: u64) -> u32
    ensures { result ≡ x % modulus field }
{
    match field {
        Field::BabyBear => (x % 2013265921) as u32,
        Field::KoalaBear => (x % 2130706433) as u32,
    }
}

// The product before its reduction.
pub fn wide_mul(a: u32, b: u32) -> u64
    ensures { result ≡ a * b }
{
    (a as u64) * (b as u64)
}

// The sum modulo p.
pub fn add(field: Field, a: u32, b: u32) -> u32
    ensures { result ≡ (a + b) % modulus field }
{
    reduce(field, a as u64 + b as u64)
}

// The product modulo p.
pub fn mul(field: Field, a: u32, b: u32) -> u32
    ensures { result ≡ (a * b) % modulus field }
{
    reduce(field, wide_mul(a, b))
}

// The seventh power in BabyBear, in four products.
fn seventh_power(a: u32) -> u32
    ensures { result ≡ a ^ 7 % modulus BabyBear }
{
    let square = mul(Field::BabyBear, a, a);
    let cube = mul(Field::BabyBear, square, a);
    mul(Field::BabyBear, mul(Field::BabyBear, square, square), cube)
}

// The third power in KoalaBear, in two products.
fn third_power(a: u32) -> u32
    ensures { result ≡ a ^ 3 % modulus KoalaBear }
{
    let square = mul(Field::KoalaBear, a, a);
    mul(Field::KoalaBear, square, a)
}

// The field's power modulo p. It looks at the field once, and not in each product.
pub fn power(field: Field, a: u32) -> u32
    ensures { result ≡ a ^ power field % modulus field }
{
    match field {
        Field::BabyBear => seventh_power(a),
        Field::KoalaBear => third_power(a),
    }
}

// Whether every number is below p.
pub fn is_reduced(field: Field, elements: &[u32]) -> bool
    ensures { result ≡ all (is_element field) elements.now }
{
    let p = modulus(field);
    elements.iter().all(|&x| x < p)
}
