// Tag strings, written.
#![tactic(auto)]

mod bytes;

ghost use Rattle.std.specs.Prelude.{◌≡◌, length};
ghost use Rattle.pattern.specs.Opening.{opening};
ghost use Rattle.tag.specs.TagString.{is_form, tail_of, string_of, string_written, string_buffer, written, buffer_after};
ghost use Rattle.tag.specs.Forms.{form_number, IsNamed};
ghost use Rattle.tag.specs.Answers.{written_answer};

use basics::Refusal;

// The longest tag string, in bytes: 64 words of four, a separator of 256, and form 2's four bytes behind it.
pub const MAX_STRING: usize = 516;

// The form of a string that ends in its separator.
pub const FORM_1: u32 = 1;

// The form of a string in which the separator's length stands behind the separator.
pub const FORM_2: u32 = 2;

// The two forms.
#[derive(Clone, Copy, Debug, PartialEq, Eq)]
pub enum Form {
    One,
    Two,
}

impl TryFrom<u32> for Form {
    type Error = Refusal;

    ghost try_from_gives = { IsNamed };

    // The form that a number names.
    fn try_from(number: u32) -> Result<Form, Refusal> {
        match number {
            FORM_1 => Ok(Form::One),
            FORM_2 => Ok(Form::Two),
            _ => Err(Refusal::FormUnknown),
        }
    }
}

// Whether a number names a form.
pub fn is_form(number: u32) -> bool
    ensures { result ≡ is_form number }
{
    Form::try_from(number).is_ok()
}

// How many bytes stand behind the separator, whatever its length is.
fn tail_length(form: Form) -> usize
    ensures { result ≡ length (tail_of (form_number form) 0) }
{
    match form {
        Form::One => 0,
        Form::Two => 4,
    }
}

// Writes the string of merged words and a separator from the buffer's start on, where the buffer
// is long enough, and gives its length.
fn put_string(
    form: Form,
    words: &[u32],
    separator: &[u8],
    buffer: &mut [u8],
) -> Result<usize, Refusal>
    ensures { (written_answer result ≡ string_written (string_of (form_number form) words.now separator.now) buffer.old) ×
        (buffer.new ≡ string_buffer (string_of (form_number form) words.now separator.now) buffer.old) }
{
    let front = 4 * words.len() + separator.len();
    let length = front + tail_length(form);
    if buffer.len() < length {
        return Err(Refusal::BufferTooShort);
    }
    bytes::put_words(buffer, words);
    bytes::put_bytes(buffer, 4 * words.len(), separator);
    bytes::put_tail(buffer, front, form, separator.len());
    Ok(length)
}

// Writes the string of merged words and a separator as above, in form 1 for a number that names no form.
pub fn write_string(
    form: u32,
    words: &[u32],
    separator: &[u8],
    buffer: &mut [u8],
) -> Result<usize, Refusal>
    ensures { (written_answer result ≡ string_written (string_of form words.now separator.now) buffer.old) ×
        (buffer.new ≡ string_buffer (string_of form words.now separator.now) buffer.old) }
{
    let form = Form::try_from(form).unwrap_or(Form::One);
    put_string(form, words, separator, buffer)
}

// Writes the tag string of a form from the buffer's start on, where the pattern is accepted and the
// buffer is long enough, and gives its length.
pub fn write(
    form: u32,
    words: &[u32],
    separator: &[u8],
    buffer: &mut [u8],
) -> Result<usize, Refusal>
    ensures { (written_answer result ≡ written form (opening words.now separator.now) buffer.old) ×
        (buffer.new ≡ buffer_after form (opening words.now separator.now) buffer.old) }
{
    let form = Form::try_from(form)?;
    let merged = pattern::check(words, separator)?;
    put_string(form, merged.as_slice(), separator, buffer)
}
