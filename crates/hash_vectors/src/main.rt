// Prints digests, each behind the number of bytes of its message.
// Of five messages whose digests NIST has published, and of the first n bytes of a fixed pattern, for n from 0 to 300
// and from 511 to 513. Byte i of the pattern is (5 i + i / 3 + i / 7) mod 256.
// stdout is what tests/digests.py prints: the digests of Python's hashlib, held there to the published ones.
#![tactic(auto)]

ghost use Rattle.std.specs.Prelude.{◌<◌, ◌≤◌};

use std::array;

// The byte i of the pattern.
fn pattern_byte(i: usize) -> u8
    requires { i < 513 }
{
    ((5 * i + i / 3 + i / 7) % 256) as u8
}

// Each byte as two digits.
fn print_bytes(bytes: &[u8]) {
    for byte in bytes {
        io::print_hex(1, u64::from(*byte), 2);
    }
}

// A line: the number of bytes of a message, and its digest.
fn print_digest(message: &[u8]) {
    io::print_decimal(1, message.len() as u64);
    io::write_all(1, b" ");
    print_bytes(&sha3::sha3_256(message));
    io::write_all(1, b"\n");
}

// The digests of the first `start` bytes, and of one byte more each time, up to but without `end` bytes.
fn print_digests(bytes: &[u8; 513], start: usize, end: usize)
    requires { end ≤ 514 }
{
    for n in start..end {
        print_digest(&bytes[..n]);
    }
}

// The messages whose digests NIST has published.
fn print_published() {
    let messages: [&[u8]; 5] = [
        b"",
        b"abc",
        b"abcdbcdecdefdefgefghfghighijhijkijkljklmklmnlmnomnopnopq",
        b"abcdefghbcdefghicdefghijdefghijkefghijklfghijklmghijklmnhijklmnoijklmnopjklmnopqklmnopqrlmnopqrsmnopqrstnopqrstu",
        &[0xa3; 200],
    ];
    for message in messages {
        print_digest(message);
    }
}

// The messages that are published first, and then those of the pattern.
fn main() {
    print_published();
    let bytes = array::from_fn(pattern_byte);
    print_digests(&bytes, 0, 301);
    print_digests(&bytes, 511, 514);
}
