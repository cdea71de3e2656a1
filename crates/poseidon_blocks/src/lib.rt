// A matrix of 24 rows whose entries depend on the sum of row and column alone, times a state, modulo m. Of its four blocks of 12 rows two are one, so that
// three blocks do: 432 products for 576. A block is a table of pairs of diagonals, and a half of the state stands twice one behind the other, as in
// poseidon_matrix.
#![tactic(auto)]

ghost use Rattle.std.specs.Prelude.{◌≡◌, ◌+◌, ◌*◌, ◌%◌, ◌<◌, ◌≤◌, slice_index};
ghost use Rattle.montgomery.specs.Montgomery.{low_product};
ghost use Rattle.poseidon_rounds.specs.Places.{Each};
ghost use Rattle.poseidon_blocks.specs.Blocks.{PartialSum, Closed, TwoRows, Lowered, Product};

// A sum of products of 64 bits, their low 48 and high 16 bits apart.
#[derive(Clone, Copy)]
struct Parts {
    low: u64,
    high: u64,
}

// Row i of the first 12 rows, and of the last.
#[derive(Clone, Copy)]
struct Two {
    first: u64,
    last: u64,
}

fn wide(a: u32) -> u64
    ensures { result ≡ a }
{
    a as u64
}

// Four numbers summed.
fn sum_of_four(a: u64, b: u64, c: u64, d: u64) -> u64
    ensures { a + b + c + d < 18446744073709551616 → result ≡ a + b + c + d }
{
    std::num::wrapping_add_u64(
        std::num::wrapping_add_u64(std::num::wrapping_add_u64(a, b), c),
        d,
    )
}

// One product of a row of a block.
fn term(table: &[u32; 432], place: usize, x: &[u64; 24], j: usize) -> u64
    requires { (place < 432) × (j < 24) }
    ensures { result ≡ low_product (slice_index table.now place) (slice_index x.now j) }
{
    montgomery::product(wide(table[place]), x[j])
}

// Four products more of row i of a block, from diagonal d on.
fn add_products(
    sum: Parts,
    table: &[u32; 432],
    block: usize,
    x: &[u64; 24],
    i: usize,
    d: usize,
) -> Parts
    requires { (block < 3) × (i < 12) × (d ≤ 4) × PartialSum table.now x.now block i d sum.low sum.high }
    ensures { PartialSum table.now x.now block i (d + 2) result.low result.high }
{
    let at = 144 * block + 24 * d + 2 * i;
    let four = sum_of_four(
        term(table, at, x, i + d),
        term(table, at + 1, x, i + d + 6),
        term(table, at + 24, x, i + d + 1),
        term(table, at + 25, x, i + d + 7),
    );
    Parts {
        low: sum.low + four % 281474976710656,
        high: sum.high + four / 281474976710656,
    }
}

// Two sums of 12 products and c, reduced.
fn close(
    low: u64,
    high: u64,
    shared_low: u64,
    shared_high: u64,
    c: u32,
    m: u32,
    q: u32,
    r: u32,
) -> u64
    requires { (low ≤ 844424930131968) × (high ≤ 196608) × (shared_low ≤ 844424930131968) × (shared_high ≤ 196608) }
    ensures { Closed low high shared_low shared_high c m q r result }
{
    let folded = montgomery::product(high + shared_high, wide(r));
    montgomery::reduce(low + shared_low + folded + wide(c), wide(m), wide(q))
}

// Row i of the first and of the last 12 rows times the state: a half of the state has a block of its own, and the sums of the halves have the shared one.
fn two_rows(
    table: &[u32; 432],
    first: &[u64; 24],
    last: &[u64; 24],
    sums: &[u64; 24],
    i: usize,
    c: u32,
    e: u32,
    m: u32,
    q: u32,
    r: u32,
) -> Two
    requires { i < 12 }
    ensures { TwoRows table.now first.now last.now sums.now i c e m q r result.first result.last }
{
    let mut a = Parts { low: 0, high: 0 };
    let mut b = Parts { low: 0, high: 0 };
    let mut s = Parts { low: 0, high: 0 };
    let mut d: usize = 0;
    while d < 6 {
        a = add_products(a, table, 0, first, i, d);
        b = add_products(b, table, 1, last, i, d);
        s = add_products(s, table, 2, sums, i, d);
        d += 2;
    }
    Two {
        first: close(a.low, a.high, s.low, s.high, c, m, q, r),
        last: close(b.low, b.high, s.low, s.high, e, m, q, r),
    }
}

// 12 elements of a state, twice.
fn half_twice(x: &[u64; 24], from: usize) -> [u64; 24]
    requires { from ≤ 12 }
    ensures { Each 24 (λ k e. e ≡ slice_index x.now (from + k % 12)) result }
{
    let mut out = [0u64; 24];
    let mut i: usize = 0;
    while i < 24 {
        out[i] = x[from + i % 12];
        i += 1;
    }
    out
}

// The sum of two numbers that are all but below m, less m where it has 32 bits: four products with such factors fit 64 bits.
fn lowered(a: u64, b: u64, m: u32) -> u64
    ensures { Lowered a b m result }
{
    let sum = std::num::wrapping_add_u64(a, b);
    std::num::wrapping_sub_u64(sum, montgomery::product(sum / 2147483648, wide(m)))
}

// The sums of two halves.
fn sums_of_halves(x: &[u64; 24], y: &[u64; 24], m: u32) -> [u64; 24]
    ensures { Each 24 (λ k. Lowered (slice_index x.now k) (slice_index y.now k) m) result }
{
    let mut out = [0u64; 24];
    let mut i: usize = 0;
    while i < 24 {
        out[i] = lowered(x[i], y[i], m);
        i += 1;
    }
    out
}

// A matrix in three blocks times the state, with 24 addends of a table from a row of 24 on, reduced.
pub fn multiply(
    table: &[u32; 432],
    x: &[u64; 24],
    addends: &[u32; 264],
    addends_row: usize,
    m: u32,
    q: u32,
    r: u32,
) -> [u32; 24]
    ensures { Product table.now x.now addends.now addends_row m q r result }
{
    let first = half_twice(x, 0);
    let last = half_twice(x, 12);
    let sums = sums_of_halves(&first, &last, m);
    let at = 24 * (addends_row % 11);
    let mut out = [0u32; 24];
    let mut i: usize = 0;
    while i < 12 {
        let two = two_rows(
            table,
            &first,
            &last,
            &sums,
            i,
            addends[at + i],
            addends[at + 12 + i],
            m,
            q,
            r,
        );
        out[i] = two.first as u32;
        out[12 + i] = two.last as u32;
        i += 1;
    }
    out
}
