// A matrix of 24 rows times a state, modulo m. The matrix is a table of pairs of diagonals, and the state stands twice one behind the other, so that
// both factors of a product change with the row: the compiler then takes two rows at a time.
#![tactic(auto)]

ghost use Rattle.std.specs.Prelude.{◌≡◌, ◌+◌, ◌<◌, slice_index};
ghost use Rattle.montgomery.specs.Montgomery.{low_product};
ghost use Rattle.poseidon_matrix.specs.Matrix.{Row, Product};

fn wide(a: u32) -> u64
    ensures { result ≡ a }
{
    a as u64
}

// One product of a row.
fn term(table: &[u32; 576], place: usize, x: &[u64; 48], j: usize) -> u64
    requires { (place < 576) × (j < 48) }
    ensures { result ≡ low_product (slice_index table.now place) (slice_index x.now j) }
{
    montgomery::product(wide(table[place]), x[j])
}

// Four numbers summed.
fn sum_of_four(a: u64, b: u64, c: u64, d: u64) -> u64
    ensures { a + b + c + d < 18446744073709551616 → result ≡ a + b + c + d }
{
    std::num::wrapping_add_u64(
        std::num::wrapping_add_u64(std::num::wrapping_add_u64(a, b), c),
        d,
    )
}

// Row i of the matrix times the state, and c, reduced. Four products are summed at a time, then their low 48 and high 16 bits apart.
fn row(table: &[u32; 576], x: &[u64; 48], i: usize, c: u32, m: u32, q: u32, r: u32) -> u64
    requires { i < 24 }
    ensures { Row table.now x.now i c m q r result }
{
    let mut low: u64 = 0;
    let mut high: u64 = 0;
    let mut d: usize = 0;
    while d < 12 {
        let at = 48 * d + 2 * i;
        let four = sum_of_four(
            term(table, at, x, i + d),
            term(table, at + 1, x, i + d + 12),
            term(table, at + 48, x, i + d + 1),
            term(table, at + 49, x, i + d + 13),
        );
        low += four % 281474976710656;
        high += four / 281474976710656;
        d += 2;
    }
    montgomery::reduce(
        low + montgomery::product(high, wide(r)) + wide(c),
        wide(m),
        wide(q),
    )
}

// The matrix times the state, with 24 addends of a table from a row of 24 on, reduced.
pub fn multiply(
    table: &[u32; 576],
    x: &[u64; 48],
    addends: &[u32; 264],
    addends_row: usize,
    m: u32,
    q: u32,
    r: u32,
) -> [u32; 24]
    ensures { Product table.now x.now addends.now addends_row m q r result }
{
    let at = 24 * (addends_row % 11);
    let mut out = [0u32; 24];
    let mut i: usize = 0;
    while i < 24 {
        out[i] = row(table, x, i, addends[at + i], m, q, r) as u32;
        i += 1;
    }
    out
}
