// The tables of the permutation Keccak-f[1600]: rotation offsets and round constants.
#![tactic(auto)]

mod tables;

ghost use Rattle.std.specs.Prelude.{◌≡◌};
ghost use Rattle.keccak_tables.specs.Tables.{offsets, round_constants};

// By how many places rho rotates each lane, the lane x, y at x + 5 y.
pub fn offsets() -> [u64; 25]
    ensures { result ≡ offsets }
{
    tables::OFFSETS
}

// What iota adds in each round.
pub fn round_constants() -> [u64; 24]
    ensures { result ≡ round_constants }
{
    tables::ROUND_CONSTANTS
}
