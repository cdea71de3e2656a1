// The static library for C and Rust: each function makes one call of another crate, stores what that gives where the caller lends room for it, and
// answers with the number of what it answers.
#![tactic(auto)]

ghost use Rattle.std.specs.Prelude.{◌≡◌, length};
ghost use Rattle.sha3.specs.Sponge.{sha3};
ghost use Rattle.cutting.specs.Cutting.{cut_answer};
ghost use Rattle.pattern.specs.Answers.{words_answer};
ghost use Rattle.pattern.specs.Opening.{opening};
ghost use Rattle.tag.specs.TagString.{written as writing, buffer_after, read_words, read_separator, separator_start as start_of_separator};
ghost use Rattle.poseidon.specs.Permutation.{permuted};
ghost use Rattle.generator.specs.Generator.{generation};
ghost use Rattle.owners.specs.Owners.{table_of, checked, asked, value_of};
ghost use Rattle.seal.specs.Seal.{context, leaving, seal_note, open_note};
ghost use Rattle.session.specs.Calls.{giving, start, absorb, squeeze, squeeze_buffer, finish};
ghost use Rattle.tuilarder.specs.Layout.{layout};

use basics::{ACCEPTED, Refusal};
use owners::Asked;
use pattern::list::Words;
use seal::NoteContext;
use session::Session;

// Stores the words that an answer gives, and how many they are; zeros where it is a refusal.
fn store_words(answer: &Result<Words, Refusal>, words: &mut [u32; 64], count: &mut usize)
    ensures { (words.new ≡ (words_answer answer.now).words) × (count.new ≡ (words_answer answer.now).count) }
{
    match answer {
        Ok(list) => {
            *words = list.words;
            *count = list.count;
        }
        Err(_) => {
            *words = [0; 64];
            *count = 0;
        }
    }
}

// START into a lent record, whatever that held.
#[unsafe(no_mangle)]
pub extern "C" fn tuilarder_start(
    record: &mut Session,
    field: u32,
    form: u32,
    words: &[u32],
    separator: &[u8],
) -> u32
    ensures { giving result «record».new ≡ start field form (opening words.now separator.now) }
{
    match Session::start(field, form, words, separator) {
        Ok(opened) => {
            *record = opened;
            ACCEPTED
        }
        Err(refusal) => {
            *record = Session::wiped();
            u32::from(refusal)
        }
    }
}

// ABSORB on a lent record.
#[unsafe(no_mangle)]
pub extern "C" fn tuilarder_absorb(record: &mut Session, elements: &[u32]) -> u32
    ensures { giving result «record».new ≡ absorb «record».old elements.now }
{
    basics::number(&record.absorb(elements))
}

// SQUEEZE on a lent record.
#[unsafe(no_mangle)]
pub extern "C" fn tuilarder_squeeze(record: &mut Session, out: &mut [u32]) -> u32
    ensures { (giving result «record».new ≡ squeeze «record».old (length out.old)) ×
        (out.new ≡ squeeze_buffer «record».old out.old) }
{
    basics::number(&record.squeeze(out))
}

// FINISH of a lent record.
#[unsafe(no_mangle)]
pub extern "C" fn tuilarder_finish(record: &mut Session) -> u32
    ensures { giving result «record».new ≡ finish «record».old }
{
    basics::number(&record.finish())
}

// One permutation in place, in the field that a number names. Answers 0; or 18 where it names none, or 10 where an element is p or more, with the
// state as it was.
#[unsafe(no_mangle)]
pub extern "C" fn tuilarder_permute(field: u32, state: &mut [u32; 24]) -> u32
    ensures { (result ≡ (permuted field state.old).number) ×
        (state.new ≡ (permuted field state.old).state) }
{
    match poseidon::permute(field, *state) {
        Ok(permuted) => {
            *state = permuted;
            ACCEPTED
        }
        Err(refusal) => u32::from(refusal),
    }
}

// The round constants of the field that a number names, from the list's start on, zeros behind them, and how many they are. Refused, with 18, the
// list holds zeros, and the count is 0.
#[unsafe(no_mangle)]
pub extern "C" fn tuilarder_generate(
    field: u32,
    constants: &mut [u32; 744],
    count: &mut usize,
) -> u32
    ensures { (result ≡ (generation field).number) ×
        (constants.new ≡ (generation field).constants) ×
        (count.new ≡ (generation field).count) }
{
    match generator::generate(field) {
        Ok(generated) => {
            let found = generated.constants;
            *constants = found;
            *count = generated.count;
            ACCEPTED
        }
        Err(refusal) => {
            *constants = [0; 744];
            *count = 0;
            u32::from(refusal)
        }
    }
}

// The tag string of a pattern and a separator in a form, from the buffer's start on, with how many bytes it has. Refused, it writes no byte, and
// gives length 0.
#[unsafe(no_mangle)]
pub extern "C" fn tuilarder_write_tag(
    form: u32,
    words: &[u32],
    separator: &[u8],
    out: &mut [u8],
    written: &mut usize,
) -> u32
    ensures { (result ≡ (writing form (opening words.now separator.now) out.old).number) ×
        (written.new ≡ (writing form (opening words.now separator.now) out.old).length) ×
        (out.new ≡ buffer_after form (opening words.now separator.now) out.old) }
{
    let string = tag::write(form, words, separator, out);
    *written = string.unwrap_or(0);
    basics::number(&string)
}

// The merged words of a tag string of a form, and how many they are; and of its separator where it begins in the string, and its length. In form 1
// the separator has the given length; in form 2 that is ignored. Refused, it gives zeros, and the separator is the empty part at the string's end.
#[unsafe(no_mangle)]
pub extern "C" fn tuilarder_read_tag(
    form: u32,
    string: &[u8],
    separator_length: usize,
    words: &mut [u32; 64],
    count: &mut usize,
    separator_start: &mut usize,
    separator_count: &mut usize,
) -> u32
    ensures { (result ≡ (read_words form string.now separator_length).number) ×
        (words.new ≡ (read_words form string.now separator_length).words) ×
        (count.new ≡ (read_words form string.now separator_length).count) ×
        (separator_start.new ≡ start_of_separator form string.now separator_length) ×
        (separator_count.new ≡ length (read_separator form string.now separator_length)) }
{
    let parts = tag_reader::read_parts(form, string, separator_length);
    match parts {
        Ok(parts) => {
            let merged_words = parts.words.words;
            *words = merged_words;
            *count = parts.words.count;
            *separator_start = parts.start;
            *separator_count = parts.length;
        }
        Err(_) => {
            *words = [0; 64];
            *count = 0;
            *separator_start = string.len();
            *separator_count = 0;
        }
    }
    basics::number(&parts)
}

// Words cut into calls of at most 16,777,216 elements, and how many they are. Where 64 do not suffice, it gives zeros and number 1.
#[unsafe(no_mangle)]
pub extern "C" fn tuilarder_cut(words: &[u32], calls: &mut [u32; 64], count: &mut usize) -> u32
    ensures { (result ≡ (cut_answer words.now).number) ×
        (calls.new ≡ (cut_answer words.now).words) ×
        (count.new ≡ (cut_answer words.now).count) }
{
    let cut = cutting::cut(words);
    store_words(&cut, calls, count);
    basics::number(&cut)
}

// The SHA3-256 digest of any string of bytes, the empty one too, into 32 lent bytes.
#[unsafe(no_mangle)]
pub extern "C" fn tuilarder_sha3_256(data: &[u8], out: &mut [u8; 32])
    ensures { out.new ≡ sha3 «data».now }
{
    *out = sha3::sha3_256(data);
}

// Whether a table of owners is accepted, and what comes with the answer's number: with 15 the first row at fault, counted from 1, with 16 the
// least number that no row holds, and with 0 it is 0.
#[unsafe(no_mangle)]
pub extern "C" fn tuilarder_check_owners(table: &[u8], place: &mut u32) -> u32
    ensures { (result ≡ (checked (table_of table.now)).number) ×
        (place.new ≡ (checked (table_of table.now)).place) }
{
    match owners::check(table) {
        Ok(()) => {
            *place = 0;
            ACCEPTED
        }
        Err(fault) => {
            *place = fault.place();
            u32::from(Refusal::from(fault))
        }
    }
}

// The product line that owns a separator. The value is the line with 0, what `tuilarder_check_owners` gives with 15 and 16, and 0 with 17.
#[unsafe(no_mangle)]
pub extern "C" fn tuilarder_owner(table: &[u8], separator: &[u8], value: &mut u32) -> u32
    ensures { (result ≡ (asked (table_of table.now) separator.now).number) ×
        (value.new ≡ value_of (asked (table_of table.now) separator.now)) }
{
    let asked = owners::owner(table, separator);
    *value = owners::value(Asked::of(&asked));
    match asked {
        Ok(_) => ACCEPTED,
        Err(fault) => u32::from(Refusal::from(fault)),
    }
}

// A plain text of so many blocks sealed: its cipher elements and then the mark, which is the authentication tag, in a buffer that has as many places.
// Refused, it writes nothing.
#[unsafe(no_mangle)]
pub extern "C" fn tuilarder_seal(
    field: u32,
    key: &[u32],
    nonce: &[u32],
    separator: &[u8],
    lengths: &[u32],
    plain: &[u32],
    out: &mut [u32],
) -> u32
    ensures { leaving result out.new ≡
        seal_note (context field key.now nonce.now separator.now lengths.now) plain.now
        out.old }
{
    let context = NoteContext {
        field,
        key,
        nonce,
        separator,
        lengths,
    };
    basics::number(&context.seal(plain, out))
}

// The blocks of a note that was sealed, its cipher elements with the mark behind them, in a buffer that has as many places as the blocks have elements. With
// 21 the buffer holds zeros; refused for anything else, it writes nothing.
#[unsafe(no_mangle)]
pub extern "C" fn tuilarder_open(
    field: u32,
    key: &[u32],
    nonce: &[u32],
    separator: &[u8],
    lengths: &[u32],
    cipher: &[u32],
    out: &mut [u32],
) -> u32
    ensures { leaving result out.new ≡
        open_note (context field key.now nonce.now separator.now lengths.now) cipher.now
        out.old }
{
    let context = NoteContext {
        field,
        key,
        nonce,
        separator,
        lengths,
    };
    basics::number(&context.open(cipher, out))
}

// The version of these functions. It rises whenever one of them, or the record, changes for a caller.
const VERSION: u64 = 3;

// The bytes of a record.
const RECORD_BYTES: u64 = 392;

// What the library was compiled for, to be compared with what its caller was. The version is in the name too, so that a caller of another one is
// not linked.
#[unsafe(no_mangle)]
pub extern "C" fn tuilarder_layout_3() -> u64
    ensures { result ≡ layout }
{
    VERSION * 4294967296 + RECORD_BYTES
}
