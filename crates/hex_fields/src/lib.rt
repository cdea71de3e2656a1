// Fields of hexadecimal digits out of a text, as the stored inputs have them: the bytes that a field writes, and bytes as words.
#![tactic(auto)]

ghost use Rattle.std.specs.Prelude.{◌≡◌, ◌≤◌, ◌<◌, length, take};
ghost use Rattle.hex_fields.specs.Fields.{digit_value, pair_byte, place_behind, field_at, field_words};

// The most bytes that are read of a field.
const MAX_BYTES: usize = 2048;

// The bytes that a field writes, with zeros behind them; how many it writes; and the place behind it and the byte that
// ends it.
#[derive(Clone, Copy, Debug, PartialEq, Eq)]
pub struct Field {
    pub bytes: [u8; 2048],
    pub count: usize,
    pub next: usize,
}

impl Field {
    // The bytes that the field writes, without the zeros.
    pub fn as_bytes(&self) -> &[u8]
        ensures { result.now ≡ take self.now.count self.now.bytes }
    {
        &self.bytes[..self.count.min(MAX_BYTES)]
    }

    // The field as words, as programs take lists of them.
    pub fn words(&self) -> [u32; 512]
        ensures { result ≡ field_words self.now.bytes }
    {
        words_of(&self.bytes)
    }
}

// The number that a digit writes.
fn digit(code: u8) -> u8
    ensures { (result < 16) × (result ≡ digit_value code) }
{
    if code < 58 {
        return code % 16;
    }
    (code % 16 + 9) % 16
}

// The byte that two digits write.
fn byte(high: u8, low: u8) -> u8
    ensures { result ≡ pair_byte high low }
{
    digit(high) * 16 + digit(low)
}

// The place behind the byte that ends a field, and the place itself behind the text.
fn place_behind(text: &[u8], end: usize) -> usize
    ensures { result ≡ place_behind text.now end }
{
    if end < text.len() { end + 1 } else { end }
}

// The field at a place of a text. Behind a place that is in the text lies a later one, so that whoever goes on there
// comes to an end.
pub fn field_at(text: &[u8], at: usize) -> Field
    ensures value { result ≡ field_at text.now at }
    ensures bytes_len { (length result.bytes ≡ 2048) × (result.count ≤ 2048) × (at ≤ result.next) ×
        (at < length text.now → at < result.next) }
{
    let (pairs, _) = text.get(at..).unwrap_or(&[]).as_chunks::<2>();
    let mut bytes = [0u8; 2048];
    let mut count: usize = 0;
    for pair in pairs {
        if count == MAX_BYTES || pair[0] < b'0' {
            break;
        }
        bytes[count] = byte(pair[0], pair[1]);
        count += 1;
    }
    Field {
        bytes,
        count,
        next: place_behind(text, at + 2 * count),
    }
}

// Bytes as words: four each, highest byte first.
pub fn words_of(bytes: &[u8; 2048]) -> [u32; 512]
    ensures { result ≡ field_words bytes.now }
{
    let (parts, _) = bytes.as_chunks::<4>();
    let mut words = [0u32; 512];
    for (k, part) in parts.iter().enumerate() {
        words[k] = u32::from_be_bytes(*part);
    }
    words
}
