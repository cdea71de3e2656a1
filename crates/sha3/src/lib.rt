// SHA3-256 (FIPS 202) of any string of bytes.
#![tactic(auto)]

ghost use Rattle.std.specs.Prelude.{◌≡◌, ◌++◌, ◌*◌, ◌<◌, length, replicate};
ghost use Rattle.keccak.specs.Permutation.{permutation};
ghost use Rattle.sha3.specs.Sponge.{padded, lane_at, add_block, squeeze, sha3};

use std::array;

// The bytes of a block: 1088 bits, which with the capacity of 512 bits are the state.
const RATE: usize = 136;

// The place of the last byte of a block.
const LAST: usize = RATE - 1;

// The last block: the bytes behind the whole blocks, the bits 0 1, 1, 0 .. 0, 1, the lowest bit of a byte first.
fn last_block(rest: &[u8]) -> [u8; RATE]
    requires { length rest.now < 136 }
    ensures { result ≡ padded rest.now }
{
    let mut block = [0u8; RATE];
    block[..rest.len()].copy_from_slice(rest);
    block[rest.len()] = 0x06;
    block[LAST] |= 0x80;
    block
}

// The lane i of a block, behind which are the zeros of the capacity.
fn lane(block: &[u8; RATE], i: usize) -> u64
    ensures { result ≡ lane_at (block.now ++ replicate 64 0) (8 * i) }
{
    let (lanes, _) = block.as_chunks::<8>();
    match lanes.get(i) {
        Some(bytes) => u64::from_le_bytes(*bytes),
        None => 0,
    }
}

// The state with a block added, lane by lane.
fn add_block(a: [u64; 25], block: &[u8; RATE]) -> [u64; 25]
    ensures { result ≡ add_block a block.now }
{
    array::from_fn(|i| a[i] ^ lane(block, i))
}

// The state after one more block.
fn absorb(a: [u64; 25], block: &[u8; RATE]) -> [u64; 25]
    ensures { result ≡ permutation (add_block a block.now) }
{
    keccak::permute(add_block(a, block))
}

// The first 32 bytes of the state, the lowest byte of a lane first.
fn squeeze(a: [u64; 25]) -> [u8; 32]
    ensures { result ≡ squeeze a }
{
    array::from_fn(|i| a[i / 8].to_le_bytes()[i % 8])
}

// The digest of any string of bytes.
// Padding adds 1 to 136 bytes, so the last block is there also where the message is whole blocks.
pub fn sha3_256(data: &[u8]) -> [u8; 32]
    ensures { result ≡ sha3 «data».now }
{
    let (blocks, rest) = data.as_chunks::<RATE>();
    let a = blocks.iter().fold([0u64; 25], absorb);
    squeeze(absorb(a, &last_block(rest)))
}
