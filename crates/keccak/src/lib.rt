// The permutation Keccak-f[1600]. A state is 25 lanes by value, and a step makes the next one lane by lane.
#![tactic(auto)]

ghost use Rattle.std.specs.Prelude.{◌≡◌, ℕ};
ghost use Rattle.keccak.specs.Permutation.{lane, state, rotate, parity, theta, rho, pi, chi, iota, permutation};
ghost use Rattle.keccak.specs.Steps.{EachLane};

use std::array;

// The lane x, y, coordinates modulo 5.
fn lane(a: &[u64; 25], x: usize, y: usize) -> u64
    ensures { result ≡ lane a.now x y }
{
    a[x % 5 + 5 * (y % 5)]
}

// The state whose lane x, y is f(x, y).
// Written out, since the compiler leaves `array::from_fn` of 25 elements a loop, which takes eight times as long.
fn state<F: Fn(usize, usize) -> u64>(f: F) -> [u64; 25]
    requires { EachLane (F.pre f) }
    ensures { (g : ℕ → ℕ → ℕ) → EachLane (λ x y. (r : ℕ) → F.post f x y r → r ≡ g x y) → result ≡ state g }
{
    [
        f(0, 0),
        f(1, 0),
        f(2, 0),
        f(3, 0),
        f(4, 0),
        f(0, 1),
        f(1, 1),
        f(2, 1),
        f(3, 1),
        f(4, 1),
        f(0, 2),
        f(1, 2),
        f(2, 2),
        f(3, 2),
        f(4, 2),
        f(0, 3),
        f(1, 3),
        f(2, 3),
        f(3, 3),
        f(4, 3),
        f(0, 4),
        f(1, 4),
        f(2, 4),
        f(3, 4),
        f(4, 4),
    ]
}

// Rotation to the left by any number of places.
fn rotate(x: u64, n: u64) -> u64
    ensures { result ≡ rotate x n }
{
    x.rotate_left((n % 64) as u32)
}

// C[x] of theta.
fn parity(a: &[u64; 25], x: usize) -> u64
    ensures { result ≡ parity a.now x }
{
    lane(a, x, 0) ^ lane(a, x, 1) ^ lane(a, x, 2) ^ lane(a, x, 3) ^ lane(a, x, 4)
}

// Adds to each lane the effect D[x], which is of the parities C beside it and the same in the five planes.
fn theta(a: [u64; 25]) -> [u64; 25]
    ensures { result ≡ theta a }
{
    let c: [u64; 5] = array::from_fn(|x| parity(&a, x));
    let d: [u64; 5] = array::from_fn(|x| c[(x + 4) % 5] ^ rotate(c[(x + 1) % 5], 1));
    state(|x, y| lane(&a, x, y) ^ d[x])
}

// Rotates each lane by its offset.
fn rho(a: [u64; 25]) -> [u64; 25]
    ensures { result ≡ rho a }
{
    let table = keccak_tables::offsets();
    state(|x, y| rotate(lane(&a, x, y), lane(&table, x, y)))
}

// Moves the lane x + 3 y, x to x, y.
fn pi(a: [u64; 25]) -> [u64; 25]
    ensures { result ≡ pi a }
{
    state(|x, y| lane(&a, x + 3 * y, x))
}

// Adds to each lane the two behind it in its row, the first of them complemented, where both have a bit.
fn chi(a: [u64; 25]) -> [u64; 25]
    ensures { result ≡ chi a }
{
    state(|x, y| lane(&a, x, y) ^ (!lane(&a, x + 1, y) & lane(&a, x + 2, y)))
}

// Adds the round constant to the lane 0, 0.
fn iota(mut a: [u64; 25], constant: u64) -> [u64; 25]
    ensures { result ≡ iota a constant }
{
    a[0] ^= constant;
    a
}

// A round: the five steps, the last with the round's own constant.
fn round(a: [u64; 25], constant: &u64) -> [u64; 25]
    ensures { result ≡ iota (chi (pi (rho (theta a)))) constant.now }
{
    iota(chi(pi(rho(theta(a)))), *constant)
}

// The 24 rounds.
pub fn permute(a: [u64; 25]) -> [u64; 25]
    ensures { result ≡ permutation a }
{
    keccak_tables::round_constants().iter().fold(a, round)
}
