// Card lines answered: the tag string and the permutations of the session that a card declares, or the number that turns it away.
#![tactic(auto)]

pub mod text;

ghost use Rattle.std.specs.Prelude.{◌≡◌, ◌≤◌, length};
ghost use Rattle.basics.specs.Answers.{number_of};
ghost use Rattle.basics.specs.Lists.{placed};
ghost use Rattle.pattern.specs.Opening.{opening};
ghost use Rattle.tag.specs.TagString.{max_string};
ghost use Rattle.card.specs.Answer.{ok_text, no_text, card_answer, answer, with_newline};

use basics::Refusal;
use progress::place::Place;

// The bytes of the longest answer, with its newline.
pub const LONGEST_ANSWER: usize = 1050;

// Writes "(no N)" and a newline.
fn put_no(buffer: &mut [u8; 1050], refusal: Refusal) -> usize
    ensures { (result ≡ length (with_newline (no_text (number_of refusal)))) ×
        (buffer.new ≡ placed buffer.old 0 (with_newline (no_text (number_of refusal)))) }
{
    let number = u32::from(refusal);
    text::copy(buffer, 0, b"(no ");
    let number_end = text::put_decimal(buffer, 4, number as u64);
    text::copy(buffer, number_end, b")\n");
    number_end + 2
}

// Writes "(ok TAG COUNT)" for a tag string, and a newline.
fn put_ok(buffer: &mut [u8; 1050], string: &[u8], permutations: u64) -> usize
    requires { (length string.now ≤ max_string) × (permutations ≤ 99999999999) }
    ensures { (result ≡ length (with_newline (ok_text string.now permutations))) ×
        (buffer.new ≡ placed buffer.old 0 (with_newline (ok_text string.now permutations))) }
{
    text::copy(buffer, 0, b"(ok ");
    let tag_end = text::put_hex(buffer, 4, string);
    text::copy(buffer, tag_end, b" ");
    let count_end = text::put_decimal(buffer, tag_end + 1, permutations);
    text::copy(buffer, count_end, b")\n");
    count_end + 2
}

// Writes the answer to a card of these words and this separator, and a newline. Its tag string is of form 1.
fn answer_card(words: &[u32], separator: &[u8], buffer: &mut [u8; 1050]) -> usize
    ensures { (result ≡ length (with_newline (card_answer (opening words.now separator.now)))) ×
        (buffer.new ≡ placed buffer.old 0 (with_newline (card_answer (opening words.now separator.now)))) }
{
    let merged = match pattern::check(words, separator) {
        Ok(merged) => merged,
        Err(refusal) => return put_no(buffer, refusal),
    };
    let list = merged.as_slice();
    let mut string = [0u8; tag::MAX_STRING];
    let length = tag::write_string(tag::FORM_1, list, separator, &mut string).unwrap();
    let end = Place {
        phase: merged.count as u32,
        done: 0,
    };
    let permutations = counters::permutations::permutations_at(list, end);
    put_ok(buffer, &string[..length], permutations)
}

// Writes the answer to a line, and a newline, from the buffer's start on, and gives the number of these bytes.
pub fn answer(line: &[u8], buffer: &mut [u8; 1050]) -> usize
    ensures { (result ≡ length (with_newline (answer line.now))) ×
        (buffer.new ≡ placed buffer.old 0 (with_newline (answer line.now))) }
{
    match card_reader::read(line) {
        Some(card) => answer_card(card.words.as_slice(), card.separator.as_slice(), buffer),
        None => put_no(buffer, Refusal::NotCard),
    }
}
