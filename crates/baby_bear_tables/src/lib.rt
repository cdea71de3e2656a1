// The tables of the fast permutation in BabyBear, each with its rule proved by one test.
#![tactic(auto)]

mod tables;

ghost use Rattle.std.specs.Prelude.{◌≡◌};
ghost use Rattle.baby_bear_tables.specs.Tables.{matrix, pre_sparse, sparse, first_constants, addends, copies};

// The matrix in blocks of 12 rows and columns: the first less the shared one, the last less it, and the shared one. Each is by pairs of diagonals: entries
// (i, i + d) and (i, i + d + 6), counted round, at 24 * d + 2 * i of its 144 and behind it.
pub fn matrix() -> [u32; 432]
    ensures { result ≡ matrix }
{
    tables::MATRIX
}

// The pre-sparse matrix, by which the state goes into the partial rounds, by pairs of diagonals: entries (i, i + d) and (i, i + d + 12), counted round, at
// 48 * d + 2 * i and behind it.
pub fn pre_sparse() -> [u32; 576]
    ensures { result ≡ pre_sparse }
{
    tables::PRE_SPARSE
}

// Columns and rows of the sparse matrices of the partial rounds, in pairs: 24 pairs to a round.
pub fn sparse() -> [u32; 1152]
    ensures { result ≡ sparse }
{
    tables::SPARSE
}

// What is added to element 0 in each partial round.
pub fn first_constants() -> [u32; 24]
    ensures { result ≡ first_constants }
{
    tables::FIRST_CONSTANTS
}

// What is added around the rounds, in rows of 24.
pub fn addends() -> [u32; 264]
    ensures { result ≡ addends }
{
    tables::ADDENDS
}

// 24 copies of each number that a reduction takes.
pub fn copies() -> [u64; 216]
    ensures { result ≡ copies }
{
    tables::COPIES
}
