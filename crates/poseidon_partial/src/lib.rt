// The partial rounds modulo m, in their sparse form, with tables lent. Elements 1 to 23 are kept times a power of the matrix without its first row and
// column, so that a round only adds a column times one number to them, and element 0 is a row times them. Each round divides 2^32 out of all.
#![tactic(auto)]

ghost use Rattle.std.specs.Prelude.{◌≡◌, ◌*◌, ◌%◌, ◌≤◌, length, slice_index};
ghost use Rattle.poseidon_rounds.specs.Places.{Each};
ghost use Rattle.poseidon_partial.specs.Partial.{NextElement, LowPart, NextElements, NextFirst, Rest, PartialRounds};

// The sum of a row with elements 1 to 23, its products' low 48 and high 16 bits apart.
#[derive(Clone, Copy)]
struct RowSum {
    low: u64,
    high: u64,
}

fn wide(a: u32) -> u64
    ensures { result ≡ a }
{
    a as u64
}

// One element after a partial round: an entry of the column times y, and the element.
fn next_element(v: u64, entry: u32, y: u64, m: u32, q: u32) -> u64
    ensures { NextElement entry v y m q result }
{
    montgomery::reduce(
        std::num::wrapping_add_u64(montgomery::product(wide(entry), y), v),
        wide(m),
        wide(q),
    )
}

// The low part of a sum that has wrapped round, by its high part, which has not.
fn low_part(sum: u64, high: u64) -> u64
    ensures { LowPart sum high result }
{
    std::num::wrapping_sub_u64(sum, (high % 65536) * 281474976710656)
}

// The elements after a partial round, and the sum of the next round's row with them. The table has pairs of an entry of the column and one of the row.
// Products are summed whole, so that their low 48 bits are taken once.
fn next_elements(
    v: &mut [u64; 24],
    sparse: &[u32; 1152],
    round: usize,
    y: u64,
    m: u32,
    q: u32,
) -> RowSum
    requires { length v.old ≡ 24 }
    ensures { NextElements sparse.now (48 * (round % 24)) y m q v.old v.new result.low result.high }
{
    let at = 48 * (round % 24);
    let mut sum: u64 = 0;
    let mut high: u64 = 0;
    let mut i: usize = 0;
    while i < 24 {
        let w = next_element(v[i], sparse[at + 2 * i], y, m, q);
        let product = montgomery::product(wide(sparse[at + 2 * i + 1]), w);
        sum = std::num::wrapping_add_u64(sum, product);
        high += product / 281474976710656;
        v[i] = w;
        i += 1;
    }
    RowSum {
        low: low_part(sum, high),
        high,
    }
}

// Element 0 after a partial round: y times the matrix's first entry, the sum of the row with the others, and a constant.
fn next_first(y: u64, first_entry: u32, low: u64, high: u64, c: u32, m: u32, q: u32, r: u32) -> u32
    requires { (low ≤ 6755399441055744) × (high ≤ 1572864) }
    ensures { NextFirst y first_entry low high c m q r result }
{
    let folded = montgomery::fold(montgomery::product(y, wide(first_entry)), wide(r));
    let rest = montgomery::product(high, wide(r));
    montgomery::reduce(folded + low + rest + wide(c), wide(m), wide(q)) as u32
}

fn widened(x: &[u32; 24]) -> [u64; 24]
    ensures { Each 24 (λ k e. e ≡ slice_index x.now k) result }
{
    let mut out = [0u64; 24];
    let mut i: usize = 0;
    while i < 24 {
        out[i] = wide(x[i]);
        i += 1;
    }
    out
}

// Elements 1 to 23, and x for element 0.
fn narrowed(v: &[u64; 24], x: u32) -> [u32; 24]
    ensures { Rest v.now x result }
{
    let mut out = [0u32; 24];
    let mut i: usize = 0;
    while i < 24 {
        out[i] = (v[i] % 4294967296) as u32;
        i += 1;
    }
    out[0] = x;
    out
}

// n partial rounds. Pair row k + 1 of the table is round k's; pair row 0 has a column of zeros, for the row of the first round.
pub fn partial_rounds(
    start: &[u32; 24],
    sparse: &[u32; 1152],
    first_constants: &[u32; 24],
    first_entry: u32,
    n: usize,
    power: u32,
    m: u32,
    q: u32,
    r: u32,
) -> [u32; 24]
    ensures { PartialRounds m q r power first_entry n sparse.now first_constants.now start.now result }
{
    let mut x = start[0];
    let mut v = widened(start);
    let mut s = next_elements(&mut v, sparse, 0, 0, m, q);
    let mut k: usize = 0;
    while k < n {
        let y = montgomery::power(power, wide(x), wide(m), wide(q), wide(r));
        x = next_first(
            y,
            first_entry,
            s.low,
            s.high,
            first_constants[k % 24],
            m,
            q,
            r,
        );
        s = next_elements(&mut v, sparse, k + 1, y, m, q);
        k += 1;
    }
    narrowed(&v, x)
}
