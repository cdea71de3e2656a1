// Runs the generator for field numbers, and prints what it answers and some places of the list; compares the tables of round constants with
// it: at how many places they differ. Then runs it from either field's register with other moduli, limits and numbers of places lent.
// stdout is what tests/constants.py prints, out of the second implementation.
#![tactic(auto)]

ghost use Rattle.std.specs.Prelude.{◌≤◌};

use generator::Constants;

// What is left where a field number is turned away.
const NONE_FOUND: Constants = Constants {
    constants: [0; 744],
    count: 0,
};

// A number behind its name.
fn print_named(name: &[u8], value: u64) {
    io::write_all(1, name);
    io::print_decimal(1, value);
}

// The table of field 1 as the generator gives it: zeros in the places that only field 2 has constants for.
fn with_zeros(table: &[u32; 696]) -> [u32; 744] {
    let mut constants = [0u32; 744];
    constants[..696].copy_from_slice(table);
    constants
}

// At how many places two lists differ.
fn differences(a: &[u32; 744], b: &[u32; 744]) -> usize {
    a.iter().zip(b).filter(|(x, y)| x != y).count()
}

// Eight places from one on.
fn print_eight(places: &[u32; 744], from: usize)
    requires { from ≤ 736 }
{
    print_named(b" from ", from as u64);
    io::write_all(1, b":");
    for place in &places[from..from + 8] {
        print_named(b" ", *place as u64);
    }
}

// What the generator answers for a field number.
fn by_number(field: u32) {
    let answer = generator::generate(field);
    let number = basics::number(&answer);
    let Constants { constants, count } = answer.unwrap_or(NONE_FOUND);
    print_named(b"generate ", field as u64);
    print_named(b" number ", number as u64);
    print_named(b" found ", count as u64);
    print_named(b" not zero ", differences(&constants, &[0; 744]) as u64);
    print_eight(&constants, 0);
    print_eight(&constants, 692);
    print_eight(&constants, 736);
    io::write_all(1, b"\n");
}

// Both fields' numbers, those beside them, and large ones.
fn by_numbers() {
    for field in [0, 1, 2, 3, 2147483648, 4294967295] {
        by_number(field);
    }
}

// Compares a table with what is found from a field's register. It does not ask for the constants by number: the contract of that call would let it
// hand out the tables.
fn compare(number: u32, wanted: usize, table: &[u32; 744])
    requires { wanted ≤ 744 }
{
    let mut places = [0u32; 744];
    let named = field::field_of(number);
    let register = generator::first_register(named);
    let modulus = field::modulus(named);
    let found = generator::generate_from(register, modulus, 262144, &mut places[..wanted]);
    print_named(b"field ", number as u64);
    print_named(b" found ", found as u64);
    print_named(b" differ ", differences(table, &places) as u64);
    io::write_all(1, b"\n");
}

// Either field's table.
fn compare_tables() {
    compare(1, 696, &with_zeros(&poseidon_tables::baby_bear_constants()));
    compare(2, 744, &poseidon_tables::koala_bear_constants());
}

// Lends the first places of a list of sevens, so that zeros written and places not lent show. Prints eight places from one on.
fn sample(number: u32, modulus: u32, limit: usize, wanted: usize, from: usize)
    requires wanted_bound { wanted ≤ 744 }
    requires from_bound { from ≤ 736 }
{
    let mut places = [7u32; 744];
    let register = generator::first_register(field::field_of(number));
    let found = generator::generate_from(register, modulus, limit, &mut places[..wanted]);
    print_named(b"field ", number as u64);
    print_named(b" modulus ", modulus as u64);
    print_named(b" limit ", limit as u64);
    print_named(b" wanted ", wanted as u64);
    print_named(b" found ", found as u64);
    print_eight(&places, from);
    io::write_all(1, b"\n");
}

// With the field's own modulus.
fn sample_field(number: u32, limit: usize, wanted: usize, from: usize)
    requires wanted_bound { wanted ≤ 744 }
    requires from_bound { from ≤ 736 }
{
    sample(
        number,
        field::modulus(field::field_of(number)),
        limit,
        wanted,
        from,
    );
}

// Limits at the dropped bits, in a candidate, in the pair that ends the first constant, and at its end.
fn sample_limits_1() {
    for limit in [
        0,
        159,
        160,
        161,
        220,
        278,
        279,
        280,
        281,
        395,
        396,
        450,
        usize::MAX,
    ] {
        sample_field(1, limit, 3, 0);
    }
}

// The same for field 2.
fn sample_limits_2() {
    for limit in [0, 160, 274, 275, 276, 277, 411, 412, 450, usize::MAX] {
        sample_field(2, limit, 3, 0);
    }
}

// Few places, and those about the last constant of each table.
fn sample_wanted() {
    sample_field(1, 262144, 0, 0);
    sample_field(1, 262144, 1, 0);
    sample_field(1, 93046, 696, 692);
    sample_field(1, 93047, 696, 692);
    sample_field(1, 93048, 696, 692);
    sample_field(1, 262144, 698, 692);
    sample_field(2, 93574, 744, 736);
    sample_field(2, 93575, 744, 736);
    sample_field(2, 93576, 744, 736);
    sample_field(2, 262144, 743, 736);
}

// Field 1's first candidate is 262278199, and its 23rd is 2110563143, below field 2's modulus alone.
fn sample_moduli_1() {
    sample(1, 0, 262144, 3, 0);
    sample(1, 1, 4000, 3, 0);
    sample(1, 262278199, 1000, 8, 0);
    sample(1, 262278200, 1000, 8, 0);
    sample(1, 4194304, 262144, 3, 0);
    sample(1, 4194304, 1048576, 20, 12);
    sample(1, 2013265921, 3028, 24, 18);
    sample(1, 2110563143, 3028, 24, 18);
    sample(1, 2110563144, 3028, 24, 18);
    sample(1, 2130706433, 3028, 24, 18);
    sample(1, 4294967295, 3028, 24, 18);
}

// Field 2's 38th candidate is 2028872854, below its modulus alone, and its 109th is 2132992693, below neither.
fn sample_moduli_2() {
    sample(2, 2013265921, 4948, 40, 34);
    sample(2, 2028872854, 4948, 40, 34);
    sample(2, 2028872855, 4948, 40, 34);
    sample(2, 2130706433, 4948, 40, 34);
    sample(2, 2130706433, 13756, 112, 104);
    sample(2, 2132992693, 13756, 112, 104);
    sample(2, 2132992694, 13756, 112, 104);
}

// All of the above, in the order of stdout.
fn main() {
    by_numbers();
    compare_tables();
    sample_limits_1();
    sample_limits_2();
    sample_wanted();
    sample_moduli_1();
    sample_moduli_2();
}
