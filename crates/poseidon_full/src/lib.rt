// Full rounds modulo m, with the tables of the fast permutation lent.
#![tactic(auto)]

ghost use Rattle.std.specs.Prelude.{◌≡◌, ◌<◌};
ghost use Rattle.poseidon_rounds.specs.Tables.{Diagonals, Blocks};
ghost use Rattle.poseidon_full.specs.Full.{Sums, RaisedAt, Powers, PowersOnce, Round, Rounds};

fn wide(a: u32) -> u64
    ensures { result ≡ a }
{
    a as u64
}

// The state and a round's 24 constants: plain sums, none of them reduced. Sums of all but reduced elements with constants fit 32 bits.
fn add_constants(x: &[u32; 24], addends: &[u32; 264], row: usize) -> [u32; 24]
    ensures { Sums x.now addends.now row result }
{
    let at = 24 * (row % 11);
    let mut out = [0u32; 24];
    let mut i: usize = 0;
    while i < 24 {
        out[i] = std::num::wrapping_add_u32(x[i], addends[at + i]);
        i += 1;
    }
    out
}

// The power of element i.
fn raised(x: &[u32; 24], copies: &[u64; 216], power: u32, i: usize) -> u64
    requires { i < 24 }
    ensures { RaisedAt power x.now copies.now i result }
{
    montgomery::power_of_any(
        power,
        wide(x[i]),
        copies[i],
        copies[24 + i],
        copies[48 + i],
        copies[72 + i],
        copies[96 + i],
        copies[120 + i],
        copies[144 + i],
        copies[168 + i],
        copies[192 + i],
    )
}

// The powers of all elements, twice, so that 24 of them from any place to 24 are the whole state.
fn powers(x: &[u32; 24], copies: &[u64; 216], power: u32) -> [u64; 48]
    ensures { Powers power x.now copies.now result }
{
    let mut out = [0u64; 48];
    let mut i: usize = 0;
    while i < 24 {
        let y = raised(x, copies, power, i);
        out[i] = y;
        out[i + 24] = y;
        i += 1;
    }
    out
}

// The powers of all elements, once. Were there one function for both, it would be called, and its result copied.
fn powers_once(x: &[u32; 24], copies: &[u64; 216], power: u32) -> [u64; 24]
    ensures { PowersOnce power x.now copies.now result }
{
    let mut out = [0u64; 24];
    let mut i: usize = 0;
    while i < 24 {
        out[i] = raised(x, copies, power, i);
        i += 1;
    }
    out
}

// A full round of a table's matrix by diagonals: the constants of a row are added, the powers taken, and the matrix multiplied by, with another row as addends.
pub fn full_round(
    x: &[u32; 24],
    table: &[u32; 576],
    addends: &[u32; 264],
    copies: &[u64; 216],
    constants_row: usize,
    addends_row: usize,
    power: u32,
    m: u32,
    q: u32,
    r: u32,
) -> [u32; 24]
    ensures { Round Diagonals m q r power table.now addends.now copies.now constants_row addends_row x.now result }
{
    let sums = add_constants(x, addends, constants_row);
    let raised = powers(&sums, copies, power);
    poseidon_matrix::multiply(table, &raised, addends, addends_row, m, q, r)
}

// A full round of a table's matrix in blocks.
fn round_by_blocks(
    x: &[u32; 24],
    table: &[u32; 432],
    addends: &[u32; 264],
    copies: &[u64; 216],
    constants_row: usize,
    addends_row: usize,
    power: u32,
    m: u32,
    q: u32,
    r: u32,
) -> [u32; 24]
    ensures { Round Blocks m q r power table.now addends.now copies.now constants_row addends_row x.now result }
{
    let sums = add_constants(x, addends, constants_row);
    let raised = powers_once(&sums, copies, power);
    poseidon_blocks::multiply(table, &raised, addends, addends_row, m, q, r)
}

// Full rounds of a table's matrix in blocks, with the constants of the rows from first on, up to last. Row 10 has zeros.
pub fn full_rounds(
    x: [u32; 24],
    table: &[u32; 432],
    addends: &[u32; 264],
    copies: &[u64; 216],
    first: usize,
    last: usize,
    power: u32,
    m: u32,
    q: u32,
    r: u32,
) -> [u32; 24]
    ensures { Rounds m q r power table.now addends.now copies.now first last x result }
{
    let mut state = x;
    let mut row = first;
    while row < last {
        state = round_by_blocks(&state, table, addends, copies, row, 10, power, m, q, r);
        row += 1;
    }
    state
}
