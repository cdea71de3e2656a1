// Text written to a place of a buffer.
ghost use Rattle.std.specs.Prelude.{◌≡◌, ◌+◌, ◌-◌, ◌*◌, ◌≤◌, min, length, take};
ghost use Rattle.basics.specs.Lists.{placed};
ghost use Rattle.card_grammar.specs.Text.{hex_digit, hex, decimal};

// How many of some bytes a buffer of so many has room for from a place on.
fn fitting(buffer: usize, at: usize, bytes: usize) -> usize
    ensures { result ≡ min (buffer - at) bytes }
{
    bytes.min(buffer.saturating_sub(at))
}

// Copies bytes to a place of the buffer, as many as it has room for there, and gives their number.
pub fn copy(buffer: &mut [u8], at: usize, bytes: &[u8]) -> usize
    ensures { (result ≡ length (take (length buffer.old - at) bytes.now)) ×
        (buffer.new ≡ placed buffer.old at (take (length buffer.old - at) bytes.now)) }
{
    let count = fitting(buffer.len(), at, bytes.len());
    for (i, byte) in bytes[..count].iter().enumerate() {
        buffer[at + i] = *byte;
    }
    count
}

fn hex_digit(digit: u8) -> u8
    requires { digit ≤ 15 }
    ensures { result ≡ hex_digit digit }
{
    if digit < 10 { digit + b'0' } else { digit + 87 }
}

// Writes bytes in hexadecimal, two digits each, and gives the place behind them.
pub(crate) fn put_hex(buffer: &mut [u8], at: usize, bytes: &[u8]) -> usize
    requires { at + 2 * length bytes.now ≤ length buffer.old }
    ensures { (result ≡ at + length (hex bytes.now)) ×
        (buffer.new ≡ placed buffer.old at (hex bytes.now)) }
{
    for (i, byte) in bytes.iter().enumerate() {
        buffer[at + 2 * i] = hex_digit(byte / 16);
        buffer[at + 2 * i + 1] = hex_digit(byte % 16);
    }
    at + 2 * bytes.len()
}

// Writes a number in decimal, and gives the place behind it.
pub(crate) fn put_decimal(buffer: &mut [u8], at: usize, number: u64) -> usize
    requires { at + length (decimal number) ≤ length buffer.old }
    ensures { (result ≡ at + length (decimal number)) × (buffer.new ≡ placed buffer.old at (decimal number)) }
{
    if number < 10 {
        buffer[at] = number as u8 + b'0';
        return at + 1;
    }
    let last = put_decimal(buffer, at, number / 10);
    buffer[last] = (number % 10) as u8 + b'0';
    last + 1
}
