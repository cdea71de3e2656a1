// Words written as bytes: four each, highest byte first.
ghost use Rattle.std.specs.Prelude.{◌≡◌, ◌+◌, ◌*◌, ◌≤◌, length};
ghost use Rattle.basics.specs.Lists.{placed};
ghost use Rattle.basics.specs.Digits.{digits};
ghost use Rattle.tag.specs.TagString.{word_bytes, tail_of};
ghost use Rattle.tag.specs.Forms.{form_number};

use crate::Form;

// Writes a word's four bytes from a place of the buffer on.
fn put_word(buffer: &mut [u8], at: usize, word: u32)
    requires { at + 4 ≤ length buffer.old }
    ensures { buffer.new ≡ placed buffer.old at (digits 256 4 word) }
{
    buffer[at..at + 4].copy_from_slice(&word.to_be_bytes());
}

// Writes words, four bytes each, from the buffer's start on.
pub(crate) fn put_words(buffer: &mut [u8], words: &[u32])
    requires { 4 * length words.now ≤ length buffer.old }
    ensures { buffer.new ≡ placed buffer.old 0 (word_bytes words.now) }
{
    for (i, word) in words.iter().enumerate() {
        put_word(buffer, 4 * i, *word);
    }
}

// Copies bytes to a place of the buffer, one by one: for `copy_from_slice` the static library would need memmove.
pub(crate) fn put_bytes(buffer: &mut [u8], at: usize, bytes: &[u8])
    requires { at + length bytes.now ≤ length buffer.old }
    ensures { buffer.new ≡ placed buffer.old at bytes.now }
{
    for (i, byte) in bytes.iter().enumerate() {
        buffer[at + i] = *byte;
    }
}

// Writes what stands behind a separator of so many bytes to a place of the buffer.
pub(crate) fn put_tail(buffer: &mut [u8], at: usize, form: Form, separator_length: usize)
    requires { at + length (tail_of (form_number form) separator_length) ≤ length buffer.old }
    ensures { buffer.new ≡ placed buffer.old at (tail_of (form_number form) separator_length) }
{
    match form {
        Form::One => {}
        Form::Two => put_word(buffer, at, (separator_length % 0x1_0000_0000) as u32),
    }
}
