// The Poseidon permutation of 24 field elements, in either field. It is computed in Montgomery's form, with the partial rounds in their sparse form; that it
// is the definition's is proved for the tables of each field, which callers who permute several times make once and lend.
#![tactic(auto)]

ghost use Rattle.std.specs.Prelude.{◌≡◌, ◌%◌, ◌≤◌};
ghost use Rattle.field.specs.Field.{modulus, power};
ghost use Rattle.field.specs.declared.Field.TheVariants.{BabyBear, KoalaBear};
ghost use Rattle.poseidon_full.specs.Full.{Rounds};
ghost use Rattle.poseidon.specs.Permutation.{parameters, permutation, permuted};
ghost use Rattle.poseidon.specs.Answers.{permuted_answer};
ghost use Rattle.poseidon.specs.Tables.{tables_of};
ghost use Rattle.poseidon.specs.Steps.{remainders, negated_inverse, high_weight, word, first_entry, Rescaled};

use basics::Refusal;
use field::Field;

// What a permutation reads: the matrix in blocks and the pre-sparse matrix, the columns and rows of the partial rounds, the constants of element 0 in these, what
// the other rounds add, and copies of the modulus' numbers.
#[derive(Clone, Copy)]
pub struct Tables {
    pub matrix: [u32; 432],
    pub pre_sparse: [u32; 576],
    pub sparse: [u32; 1152],
    pub first_constants: [u32; 24],
    pub addends: [u32; 264],
    pub copies: [u64; 216],
}

// The tables of BabyBear. Each use of a table copies it, so that calls that permute several times make them once.
pub fn baby_bear() -> Tables
    ensures { result ≡ tables_of BabyBear }
{
    Tables {
        matrix: baby_bear_tables::matrix(),
        pre_sparse: baby_bear_tables::pre_sparse(),
        sparse: baby_bear_tables::sparse(),
        first_constants: baby_bear_tables::first_constants(),
        addends: baby_bear_tables::addends(),
        copies: baby_bear_tables::copies(),
    }
}

// The tables of KoalaBear. There is no function of a field that gives either: the compiler would choose between the two entry by entry.
pub fn koala_bear() -> Tables
    ensures { result ≡ tables_of KoalaBear }
{
    Tables {
        matrix: koala_bear_tables::matrix(),
        pre_sparse: koala_bear_tables::pre_sparse(),
        sparse: koala_bear_tables::sparse(),
        first_constants: koala_bear_tables::first_constants(),
        addends: koala_bear_tables::addends(),
        copies: koala_bear_tables::copies(),
    }
}

// The power's number.
fn exponent(field: Field) -> u32
    ensures { result ≡ power field }
{
    match field {
        Field::BabyBear => 7,
        Field::KoalaBear => 3,
    }
}

// -1/p modulo 2^32.
fn negated_inverse(field: Field) -> u32
    ensures { result ≡ negated_inverse field }
{
    match field {
        Field::BabyBear => 2013265919,
        Field::KoalaBear => 2130706431,
    }
}

// 2^48 modulo p.
fn high_weight(field: Field) -> u32
    ensures { result ≡ high_weight field }
{
    match field {
        Field::BabyBear => 268295646,
        Field::KoalaBear => 134085624,
    }
}

// 2^32 modulo p.
fn word(field: Field) -> u32
    ensures { result ≡ word field }
{
    match field {
        Field::BabyBear => 268435454,
        Field::KoalaBear => 33554430,
    }
}

// The matrix's first entry, as the partial rounds take it.
fn first_entry(field: Field) -> u32
    ensures { result ≡ first_entry field }
{
    match field {
        Field::BabyBear => 1906550119,
        Field::KoalaBear => 816271352,
    }
}

// The remainder of a number of 32 bits modulo m: two subtractions do what a division would.
fn remainder(x: u32, m: u32) -> u32
    requires { 1431655766 ≤ m }
    ensures { result ≡ x % m }
{
    if x < m {
        return x;
    }
    let once = x - m;
    if once < m { once } else { once - m }
}

// The remainders of a state's elements.
fn reduce_all(state: [u32; 24], m: u32) -> [u32; 24]
    requires { 1431655766 ≤ m }
    ensures { result ≡ remainders m state }
{
    let mut reduced = state;
    for x in &mut reduced {
        *x = remainder(*x, m);
    }
    reduced
}

// What comes out of the partial rounds, with what these still have to add, and each element again in the form that full rounds take.
fn rescale(x: &[u32; 24], word: u32, addends: &[u32; 264], m: u32, q: u32, r: u32) -> [u32; 24]
    ensures { Rescaled x.now word addends.now m q r result }
{
    let mut out = [0u32; 24];
    for (i, y) in out.iter_mut().enumerate() {
        let sum = montgomery::product(u64::from(x[i]), u64::from(word))
            + u64::from(addends[120 + i]);
        *y = montgomery::reduce_any(sum, u64::from(m), u64::from(q), u64::from(r)) as u32;
    }
    out
}

// Full rounds from one row of the addends to another, by the field's matrix.
fn full_rounds(
    x: [u32; 24],
    tables: &Tables,
    from: usize,
    to: usize,
    power: u32,
    m: u32,
    q: u32,
    r: u32,
) -> [u32; 24]
    ensures { Rounds m q r power tables.now.matrix tables.now.addends tables.now.copies from to x result }
{
    poseidon_full::full_rounds(
        x,
        &tables.matrix,
        &tables.addends,
        &tables.copies,
        from,
        to,
        power,
        m,
        q,
        r,
    )
}

// The permutation of any state, with the field's tables lent. Elements of p or more are taken modulo p.
pub fn permutation_by(field: Field, state: [u32; 24], tables: &Tables) -> [u32; 24]
    ensures { tables.now ≡ tables_of field → result ≡ permutation (parameters field) state }
{
    let m = field::modulus(field);
    let q = negated_inverse(field);
    let r = high_weight(field);
    let power = exponent(field);
    let n = field::partial_rounds(field);
    let first = first_entry(field);
    let word = word(field);
    let reduced = reduce_all(state, m);
    let early = full_rounds(reduced, tables, 0, 3, power, m, q, r);
    let before = poseidon_full::full_round(
        &early,
        &tables.pre_sparse,
        &tables.addends,
        &tables.copies,
        3,
        4,
        power,
        m,
        q,
        r,
    );
    let after = poseidon_partial::partial_rounds(
        &before,
        &tables.sparse,
        &tables.first_constants,
        first,
        n,
        power,
        m,
        q,
        r,
    );
    let again = rescale(&after, word, &tables.addends, m, q, r);
    let late = full_rounds(again, tables, 6, 10, power, m, q, r);
    reduce_all(late, m)
}

// The permutation of any state. Elements of p or more are taken modulo p, as the sums of the first round take them in any case.
pub fn permutation(field: Field, state: [u32; 24]) -> [u32; 24]
    ensures { result ≡ permutation (parameters field) state }
{
    match field {
        Field::BabyBear => permutation_by(field, state, &baby_bear()),
        Field::KoalaBear => permutation_by(field, state, &koala_bear()),
    }
}

// One permutation in the field that a number names. Another number gets 18, and a state with an element of p or more 10.
pub fn permute(field: u32, state: [u32; 24]) -> Result<[u32; 24], Refusal>
    ensures { permuted_answer state result ≡ permuted field state }
{
    let named = Field::try_from(field)?;
    if !field::is_reduced(named, &state) {
        return Err(Refusal::ElementNotReduced);
    }
    Ok(permutation(named, state))
}
