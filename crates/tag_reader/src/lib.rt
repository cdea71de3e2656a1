// Tag strings, read back; and the elements cut from a tag string's digest.
#![tactic(auto)]

mod bytes;

ghost use Rattle.std.specs.Prelude.{◌≡◌, false, true, MatchResult, ◌+◌, ◌-◌, ◌≤◌, length};
ghost use Rattle.basics.specs.declared.Refusal.TheVariants.{NotTagString};
ghost use Rattle.basics.specs.Refusals.{first_number};
ghost use Rattle.pattern.specs.Opening.{answer_with};
ghost use Rattle.tag.specs.TagString.{words_of, body_of, length_in, words_part, body_rows, tail_missing, read_words, read_separator, separator_start};
ghost use Rattle.tag.specs.Forms.{form_number};
ghost use Rattle.pattern.specs.Answers.{words_answer};
ghost use Rattle.tag_reader.specs.Parts.{parts_read};
ghost use Rattle.tag_reader.specs.Answers.{parts_answer};
ghost use Rattle.tag.specs.Elements.{tag_elements};

use basics::Refusal;
use pattern::list::Words;
use tag::Form;

// What a tag string is made of: the merged words, and of the separator where it begins in the string and its length.
#[derive(Clone, Copy)]
pub struct Parts {
    pub words: Words,
    pub start: usize,
    pub length: usize,
}

// How many bytes precede the separator.
fn words_length(body: &[u8], separator_length: usize) -> usize
    requires { separator_length ≤ length body.now }
    ensures { result ≡ length body.now - separator_length }
{
    body.len() - separator_length
}

// The merged words of what precedes the tail, where the separator has so many bytes.
fn read_body(body: &[u8], separator_length: usize) -> Result<Words, Refusal>
    ensures { words_answer result ≡ answer_with (first_number (body_rows body.now separator_length)) (words_of (words_part body.now separator_length)) }
{
    if separator_length > pattern::MAX_SEPARATOR {
        return Err(Refusal::SeparatorTooLong);
    }
    if body.len() < separator_length {
        return Err(Refusal::NotTagString);
    }
    let length = words_length(body, separator_length);
    if length % 4 != 0 {
        return Err(Refusal::NotTagString);
    }
    let count = length / 4;
    if count > pattern::MAX_WORDS {
        return Err(Refusal::NotTagString);
    }
    let list = bytes::words_of(&body[..length]);
    if sound_words::is_sound(&list[..count]) {
        return Ok(Words { words: list, count });
    }
    Err(Refusal::NotTagString)
}

// What precedes the tail, and the separator's length: by the tail where the form has one, and
// otherwise the length given.
fn split_tail(form: Form, string: &[u8], separator_length: usize) -> Result<(&[u8], usize), Refusal>
    ensures { MatchResult result
        (λ p. (tail_missing (form_number form) string.now ≡ false) × (p.0.now ≡ body_of (form_number form) string.now) ×
        (p.1 ≡ length_in (form_number form) string.now separator_length))
        (λ refusal. (tail_missing (form_number form) string.now ≡ true) × (refusal ≡ NotTagString)) }
{
    match form {
        Form::One => Ok((string, separator_length)),
        Form::Two => {
            let (body, tail) = string.split_last_chunk().ok_or(Refusal::NotTagString)?;
            Ok((body, u32::from_be_bytes(*tail) as usize))
        }
    }
}

// The merged words of a tag string of a form, and the place of its separator. In form 1 that has
// the given length; in form 2 the length is ignored.
pub fn read_parts(form: u32, string: &[u8], separator_length: usize) -> Result<Parts, Refusal>
    ensures { parts_answer string.now result ≡ parts_read form string.now separator_length }
{
    let form = Form::try_from(form)?;
    let (body, length) = split_tail(form, string, separator_length)?;
    let words = read_body(body, length)?;
    Ok(Parts {
        words,
        start: 4 * words.count,
        length,
    })
}

// The merged words of a tag string, without the place of the separator.
pub fn read(form: u32, string: &[u8], separator_length: usize) -> Result<Words, Refusal>
    ensures { words_answer result ≡ read_words form string.now separator_length }
{
    let parts = read_parts(form, string, separator_length)?;
    Ok(parts.words)
}

// The separator of a tag string, as that part of the string itself, empty where `read` refuses.
// It lies in the string's memory, behind the words, and on a refusal at the string's end.
pub fn read_separator(form: u32, string: &[u8], separator_length: usize) -> &[u8]
    ensures { (result.now ≡ read_separator form string.now separator_length) ×
        (result.ref_ptr ≡ (string.entry.ref_ptr.0, separator_start form string.now separator_length + string.entry.ref_ptr.1)) }
{
    match read_parts(form, string, separator_length) {
        Ok(parts) => &string[parts.start..parts.start + parts.length],
        Err(_) => &string[string.len()..],
    }
}

// The eight elements of the tag: the digest's words, each cut to its low 30 bits.
pub fn elements(digest: [u8; 32]) -> [u32; 8]
    ensures { result ≡ tag_elements digest }
{
    let mut elements = [0u32; 8];
    let (chunks, _) = digest.as_chunks::<4>();
    for (k, bytes) in chunks.iter().enumerate() {
        elements[k] = u32::from_be_bytes(*bytes) & 0x3fff_ffff;
    }
    elements
}
