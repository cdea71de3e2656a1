// Montgomery's reduction by 2^32, and powers by it, for any modulus. Nothing divides by the modulus.
// Every function takes any numbers: sums wrap round, and a contract says when the result is the one that is wanted.
// Factors are cut to 32 bits, though most have no more, so that the compiler sees that one 32-bit product is enough.
#![tactic(auto)]

ghost use Rattle.std.specs.Prelude.{◌≡◌};
ghost use Rattle.montgomery.specs.Montgomery.{low_product, folded, Reduced, ReducedAny, Multiplied, RaisedSmall, Raised};

// The product of the low 32 bits of two numbers.
pub fn product(a: u64, b: u64) -> u64
    ensures { result ≡ low_product a b }
{
    (a % 4294967296) * (b % 4294967296)
}

// Montgomery's reduction: the multiple of m that is added clears the low 32 bits.
pub fn reduce(a: u64, m: u64, q: u64) -> u64
    ensures { Reduced a m q result }
{
    a.wrapping_add(product(product(a, q), m)) / 4294967296
}

// The same number modulo m, of 49 bits; r is 2^48 modulo m.
pub fn fold(a: u64, r: u64) -> u64
    ensures { result ≡ folded a r }
{
    a % 281474976710656 + product(a / 281474976710656, r)
}

// The reduction of any number.
pub fn reduce_any(a: u64, m: u64, q: u64, r: u64) -> u64
    ensures { ReducedAny a m q r result }
{
    reduce(fold(a, r), m, q)
}

// A product, reduced.
fn multiply(a: u64, b: u64, m: u64, q: u64) -> u64
    ensures { Multiplied a b m q result }
{
    reduce(product(a, b), m, q)
}

// The third power of a number not far above m, with 2^64 divided out.
fn third_power(x: u64, m: u64, q: u64, r: u64) -> u64
    ensures { RaisedSmall 3 x m q r result }
{
    let square = multiply(x, x, m, q);
    reduce_any(product(square, x), m, q, r)
}

// The seventh power, with 2^192 divided out.
fn seventh_power(x: u64, m: u64, q: u64, r: u64) -> u64
    ensures { RaisedSmall 7 x m q r result }
{
    let square = multiply(x, x, m, q);
    let cube = multiply(square, x, m, q);
    let fourth = multiply(square, square, m, q);
    reduce_any(product(cube, fourth), m, q, r)
}

// A power of a number not far above m: the third, or else the seventh.
pub fn power(power: u32, x: u64, m: u64, q: u64, r: u64) -> u64
    ensures { RaisedSmall power x m q r result }
{
    if power == 3 {
        third_power(x, m, q, r)
    } else {
        seventh_power(x, m, q, r)
    }
}

// The third power of any number of 32 bits.
// Each step has its own copies of m and q: from a table of such copies the compiler takes two numbers at a time.
fn third_power_of_any(x: u64, m: u64, q: u64, m2: u64, q2: u64, r: u64) -> u64
    ensures { Raised 3 x m q m2 q2 m q m q r result }
{
    let square = reduce_any(product(x, x), m, q, r);
    reduce_any(product(square, x), m2, q2, r)
}

// The seventh power of any number of 32 bits.
fn seventh_power_of_any(
    x: u64,
    m: u64,
    q: u64,
    m2: u64,
    q2: u64,
    m3: u64,
    q3: u64,
    m4: u64,
    q4: u64,
    r: u64,
) -> u64
    ensures { Raised 7 x m q m2 q2 m3 q3 m4 q4 r result }
{
    let square = reduce_any(product(x, x), m, q, r);
    let cube = multiply(square, x, m2, q2);
    let fourth = multiply(square, square, m3, q3);
    reduce_any(product(cube, fourth), m4, q4, r)
}

// A power of any number of 32 bits: the third, or else the seventh.
pub fn power_of_any(
    power: u32,
    x: u64,
    m: u64,
    q: u64,
    m2: u64,
    q2: u64,
    m3: u64,
    q3: u64,
    m4: u64,
    q4: u64,
    r: u64,
) -> u64
    ensures { Raised power x m q m2 q2 m3 q3 m4 q4 r result }
{
    if power == 3 {
        third_power_of_any(x, m, q, m2, q2, r)
    } else {
        seventh_power_of_any(x, m, q, m2, q2, m3, q3, m4, q4, r)
    }
}
