// Seals and opens the notes of standard input, and prints each answer's number and the buffer that it leaves. A line is
// s or o, and then field number, key, nonce, separator, block lengths, text and the buffer's length as hexadecimal
// digits; stdout is what the second implementation answers to stdin, in Python, written from the papers by other hands
// (tests/oracle).
#![tactic(auto)]

ghost use Rattle.std.specs.Prelude.{◌≡◌, ◌≤◌, ◌<◌, length};

use seal::NoteContext;

// A word as eight digits.
fn print_word(word: u32) {
    io::print_hex(1, word as u64, 8);
}

// A number, and the words of a buffer.
fn print_answer(number: u32, buffer: &[u32]) {
    io::write_all(1, b" ");
    io::print_decimal(1, number as u64);
    io::write_all(1, b" ");
    for word in buffer {
        print_word(*word);
    }
}

// The words of a field, how many they are, and the place behind it.
#[derive(Clone, Copy)]
struct Words {
    list: [u32; 512],
    count: usize,
    next: usize,
    ghost fits: { count ≤ 512 },
}

impl Words {
    // The words that are used.
    fn as_slice(&self) -> &[u32] {
        &self.list[..self.count]
    }
}

// The field at a place of a text, as words.
fn words_at(text: &[u8], at: usize) -> Words
    ensures { at ≤ result.next }
{
    let field = hex_fields::field_at(text, at);
    Words {
        list: hex_fields::words_of(&field.bytes),
        count: field.count / 4,
        next: field.next,
    }
}

// A buffer of as many places as a field says, 512 at most, which are filled with one number; and the place behind the
// field.
fn buffer_at(text: &[u8], at: usize) -> Words
    ensures { at ≤ result.next }
{
    let size = words_at(text, at);
    Words {
        list: [0xa5a5_a5a5; 512],
        count: (size.list[0] as usize).min(512),
        next: size.next,
    }
}

// The answer to a call, printed with the buffer that it leaves.
fn print_call(seals: bool, context: &NoteContext, text: &[u32], buffer: &mut [u32]) {
    let answer = if seals {
        context.seal(text, buffer)
    } else {
        context.open(text, buffer)
    };
    print_answer(basics::number(&answer), buffer);
}

// The call that a line tells of, with its answer; and the place behind the line.
fn note_line(text: &[u8], at: usize, seals: bool) -> usize
    ensures { at ≤ result }
{
    let number = words_at(text, at);
    let key = words_at(text, number.next);
    let nonce = words_at(text, key.next);
    let separator = hex_fields::field_at(text, nonce.next);
    let lengths = words_at(text, separator.next);
    let note = words_at(text, lengths.next);
    let buffer = buffer_at(text, note.next);
    let context = NoteContext {
        field: number.list[0],
        key: key.as_slice(),
        nonce: nonce.as_slice(),
        separator: &separator.bytes[..separator.count],
        lengths: lengths.as_slice(),
    };
    let mut out = buffer.list;
    print_call(seals, &context, note.as_slice(), &mut out[..buffer.count]);
    buffer.next
}

// A line's kind and its answer; and the place behind the line.
fn print_line(text: &[u8], at: usize) -> usize
    requires at_in_bounds { at < length text.now }
    requires text_len_bound { length text.now ≤ 1048576 }
    ensures { at < result }
{
    let kind = text[at];
    io::write_all(1, &text[at..at + 1]);
    note_line(text, at + 2, kind == b's')
}

// Each line, and its answer.
fn print_lines(text: &[u8])
    requires { length text.now ≤ 1048576 }
{
    let mut at: usize = 0;
    while at < text.len() {
        at = print_line(text, at);
        io::write_all(1, b"\n");
    }
}

// Zeros, for all of standard input. The contract gives only the length, which lending the array needs.
fn input_buffer() -> [u8; 1048576]
    ensures { 1048576 ≡ length result }
{
    [0; 1048576]
}

fn main() {
    let mut text = input_buffer();
    let size = io::read_full(0, &mut text);
    print_lines(&text[..size]);
}
