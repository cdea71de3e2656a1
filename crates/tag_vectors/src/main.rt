// Checks, writes, cuts and reads the patterns and tag strings of standard input, and prints the answers. tests/tags.py
// says how lines are laid out; stdin is what it makes, and stdout what the second implementation answers to it, in
// Python, written from document 01 by other hands (tests/oracle).
#![tactic(auto)]

ghost use Rattle.std.specs.Prelude.{◌≤◌, ◌<◌, length};

use basics::Refusal;
use pattern::list::Words;

// A number with one byte more behind it, without what 64 bits don't hold.
fn shifted(value: u64, byte: u8) -> u64 {
    value % 0x100_0000_0000_0000 * 256 + u64::from(byte)
}

// The number that bytes write, highest first.
fn number(bytes: &[u8]) -> u64 {
    bytes.iter().fold(0, |value, byte| shifted(value, *byte))
}

// A sum with one word more, without what 64 bits don't hold.
fn added(sum: u64, word: u32) -> u64 {
    sum % 0x1_0000_0000_0000 + u64::from(word)
}

// The sum of words.
fn sum(words: &[u32]) -> u64 {
    words.iter().fold(0, |sum, word| added(sum, *word))
}

// Bytes, two digits each.
fn print_bytes(bytes: &[u8]) {
    for byte in bytes {
        io::print_hex(1, u64::from(*byte), 2);
    }
}

// Words, eight digits each.
fn print_words(words: &[u32]) {
    for word in words {
        io::print_hex(1, u64::from(*word), 8);
    }
}

// A number, and a space behind it.
fn print_number(number: u64) {
    io::print_decimal(1, number);
    io::write_all(1, b" ");
}

// An answer's number, its words with how many they are, and the sum of the places that are not used.
fn print_list(answer: Result<Words, Refusal>) {
    print_number(u64::from(basics::number(&answer)));
    let list = answer.unwrap_or(Words {
        words: [0; 64],
        count: 0,
    });
    print_number(list.count as u64);
    print_words(list.as_slice());
    io::write_all(1, b" ");
    io::print_decimal(1, sum(&list.words[list.count..]));
}

// What checking a pattern answers, what writing its tag string does, and the buffer then.
fn print_write(form: u32, words: &[u32], separator: &[u8], size: usize)
    requires { size ≤ 1024 }
{
    print_list(pattern::check(words, separator));
    io::write_all(1, b", ");
    let mut buffer = [0xa5u8; 1024];
    let written = tag::write(form, words, separator, &mut buffer[..size]);
    print_number(u64::from(basics::number(&written)));
    print_number(written.unwrap_or(0) as u64);
    print_bytes(&buffer[..size]);
}

// What reading a tag string answers, and its separator, with the place where that lies.
fn print_read(form: u32, string: &[u8], length: usize) {
    print_list(tag_reader::read(form, string, length));
    io::write_all(1, b", ");
    let (start, size) = match tag_reader::read_parts(form, string, length) {
        Ok(parts) => (parts.start, parts.length),
        Err(_) => (string.len(), 0),
    };
    print_number(start as u64);
    print_number(size as u64);
    print_bytes(tag_reader::read_separator(form, string, length));
}

// A line that asks for writing: its form, words, separator and the buffer's length. It gives the place behind the line.
fn write_line(text: &[u8], at: usize) -> usize
    ensures { at ≤ result }
{
    let first = hex_fields::field_at(text, at);
    let second = hex_fields::field_at(text, first.next);
    let third = hex_fields::field_at(text, second.next);
    let fourth = hex_fields::field_at(text, third.next);
    let form = hex_fields::words_of(&first.bytes);
    let words = hex_fields::words_of(&second.bytes);
    let size = number(&fourth.bytes[..fourth.count]) % 1025;
    print_write(
        form[0],
        &words[..second.count / 4],
        &third.bytes[..third.count],
        size as usize,
    );
    fourth.next
}

// A line that asks for reading: its form, string and separator's length. It gives the place behind the line.
fn read_line(text: &[u8], at: usize) -> usize
    ensures { at ≤ result }
{
    let first = hex_fields::field_at(text, at);
    let second = hex_fields::field_at(text, first.next);
    let third = hex_fields::field_at(text, second.next);
    let form = hex_fields::words_of(&first.bytes);
    let length = number(&third.bytes[..third.count]);
    print_read(form[0], &second.bytes[..second.count], length as usize);
    third.next
}

// A line that asks for cutting words. It gives the place behind the line.
fn cut_line(text: &[u8], at: usize) -> usize
    ensures { at ≤ result }
{
    let first = hex_fields::field_at(text, at);
    let words = hex_fields::words_of(&first.bytes);
    print_list(cutting::cut(&words[..first.count / 4]));
    first.next
}

// A line that asks for the elements of a digest. It gives the place behind the line.
fn elements_line(text: &[u8], at: usize) -> usize
    ensures { at ≤ result }
{
    let first = hex_fields::field_at(text, at);
    let mut digest = [0u8; 32];
    digest.copy_from_slice(&first.bytes[..32]);
    print_words(&tag_reader::elements(digest));
    first.next
}

// The line at a place, which begins with what it asks for. It gives the place behind the line.
fn print_line(text: &[u8], at: usize) -> usize
    requires at_in_bounds { at < length text.now }
    requires text_len_bound { length text.now ≤ 262144 }
    ensures { at < result }
{
    io::write_all(1, &text[at..at + 1]);
    io::write_all(1, b" ");
    match text[at] {
        b'w' => write_line(text, at + 2),
        b'r' => read_line(text, at + 2),
        b'c' => cut_line(text, at + 2),
        _ => elements_line(text, at + 2),
    }
}

// Each line of a text.
fn print_lines(text: &[u8])
    requires { length text.now ≤ 262144 }
{
    let mut at: usize = 0;
    while at < text.len() {
        at = print_line(text, at);
        io::write_all(1, b"\n");
    }
}

// Reads standard input, and answers it.
fn main() {
    let mut text = [0u8; 262144];
    let size = io::read_full(0, &mut text);
    print_lines(&text[..size]);
}
