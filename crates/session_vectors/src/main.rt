// Runs the calls of standard input through the library, carries the record from call to call, and prints what each call answers.
// tests/sessions.py says how lines are laid out; stdin is what it makes, and stdout what the second implementation answers to it, in
// Python, written from the papers by other hands (tests/oracle).
#![tactic(auto)]

ghost use Rattle.std.specs.Prelude.{◌≡◌, ◌≤◌, ◌<◌, length};

use hex_fields::Field;
use session::Session;

// The fields of a text, and the place in it that reading has come to.
#[derive(Drop)]
struct Reader<'a> {
    text: &'a [u8],
    at: usize,
}

impl Reader<'_> {
    // The next field, which reading goes past.
    fn field(&mut self) -> Field
        ensures long { length result.bytes ≡ 2048 }
        ensures used { result.count ≤ 2048 }
        ensures text { self.new.text.now ≡ self.old.text.now }
        ensures on { self.old.at ≤ self.new.at }
    {
        let field = hex_fields::field_at(self.text, self.at);
        self.at = field.next;
        field
    }

    // The words of the next field.
    fn words(&mut self) -> [u32; 512]
        ensures text { self.new.text.now ≡ self.old.text.now }
        ensures on { self.old.at ≤ self.new.at }
    {
        self.field().words()
    }

    // The record that the next three fields write: its numbers, its state and its words.
    fn record(&mut self) -> Session
        ensures text { self.new.text.now ≡ self.old.text.now }
        ensures on { self.old.at ≤ self.new.at }
    {
        let numbers = self.words();
        let state = self.words();
        let words = self.words();
        Session {
            status: numbers[0],
            field: numbers[1],
            form: numbers[2],
            state: first(&state),
            words: first(&words),
            count: numbers[3],
            phase: numbers[4],
            done: numbers[5],
            absorb_position: numbers[6],
            squeeze_position: numbers[7],
            permutations: joined(numbers[8], numbers[9]),
        }
    }
}

// The first words of a list.
fn first<const N: usize>(list: &[u32; 512]) -> [u32; N]
    requires { N ≤ 512 }
{
    let mut words = [0u32; N];
    words.copy_from_slice(&list[..N]);
    words
}

fn joined(high: u32, low: u32) -> u64 {
    u64::from(high) * 0x1_0000_0000 + u64::from(low)
}

// The numbers that write a record.
fn numbers_of(record: &Session) -> [u32; 10] {
    [
        record.status,
        record.field,
        record.form,
        record.count,
        record.phase,
        record.done,
        record.absorb_position,
        record.squeeze_position,
        (record.permutations / 0x1_0000_0000) as u32,
        (record.permutations % 0x1_0000_0000) as u32,
    ]
}

fn print_words(words: &[u32]) {
    for word in words {
        io::print_hex(1, u64::from(*word), 8);
    }
}

// A list without the zeros at its end. One that is as it was is a sign only, which keeps the output short.
fn print_part(old: &[u32], new: &[u32]) {
    if old == new {
        io::write_all(1, b" =");
        return;
    }
    io::write_all(1, b" ");
    let used = new
        .iter()
        .rposition(|word| *word != 0)
        .map_or(0, |last| last + 1);
    print_words(&new[..used]);
}

fn print_record(old: &Session, new: &Session) {
    print_part(&numbers_of(old), &numbers_of(new));
    print_part(&old.state, &new.state);
    print_part(&old.words, &new.words);
}

fn print_answer(number: u32, old: &Session, new: &Session) {
    io::write_all(1, b" ");
    io::print_decimal(1, u64::from(number));
    print_record(old, new);
}

fn start_line(reader: &mut Reader<'_>, record: &mut Session)
    ensures text { reader.new.text.now ≡ reader.old.text.now }
    ensures on { reader.old.at ≤ reader.new.at }
{
    let numbers = reader.words();
    let pattern = reader.field();
    let separator = reader.field();
    let words = pattern.words();
    let answer = Session::start(
        numbers[0],
        numbers[1],
        &words[..pattern.count / 4],
        separator.as_bytes(),
    );
    let old = *record;
    *record = answer.unwrap_or(Session::wiped());
    print_answer(basics::number(&answer), &old, record);
}

fn absorb_line(reader: &mut Reader<'_>, record: &mut Session)
    ensures text { reader.new.text.now ≡ reader.old.text.now }
    ensures on { reader.old.at ≤ reader.new.at }
{
    let field = reader.field();
    let elements = field.words();
    let old = *record;
    let answer = record.absorb(&elements[..field.count / 4]);
    print_answer(basics::number(&answer), &old, record);
}

fn squeeze_line(reader: &mut Reader<'_>, record: &mut Session)
    ensures text { reader.new.text.now ≡ reader.old.text.now }
    ensures on { reader.old.at ≤ reader.new.at }
{
    let field = reader.field();
    let mut elements = field.words();
    let buffer = &mut elements[..field.count / 4];
    let old = *record;
    let answer = record.squeeze(buffer);
    print_answer(basics::number(&answer), &old, record);
    io::write_all(1, b" ");
    print_words(buffer);
}

fn finish_line(record: &mut Session) {
    let old = *record;
    let answer = record.finish();
    print_answer(basics::number(&answer), &old, record);
}

fn record_line(reader: &mut Reader<'_>, record: &mut Session)
    ensures text { reader.new.text.now ≡ reader.old.text.now }
    ensures on { reader.old.at ≤ reader.new.at }
{
    let old = *record;
    *record = reader.record();
    print_record(&old, record);
}

fn run_line(reader: &mut Reader<'_>, record: &mut Session)
    requires in_bounds { reader.old.at < length reader.old.text.now }
    requires text_len_bound { length reader.old.text.now ≤ 1048576 }
    ensures text { reader.new.text.now ≡ reader.old.text.now }
    ensures on { reader.old.at < reader.new.at }
{
    let kind = reader.text[reader.at];
    io::write_all(1, &[kind]);
    reader.at += 2;
    match kind {
        b's' => start_line(reader, record),
        b'a' => absorb_line(reader, record),
        b'q' => squeeze_line(reader, record),
        b'f' => finish_line(record),
        _ => record_line(reader, record),
    }
}

fn run_lines(text: &[u8])
    requires { length text.now ≤ 1048576 }
{
    let mut record = Session::wiped();
    let mut reader = Reader { text, at: 0 };
    while reader.at < reader.text.len() {
        run_line(&mut reader, &mut record);
        io::write_all(1, b"\n");
    }
}

// Zeros, for all of standard input. The contract gives only the length, which lending the array needs.
fn input_buffer() -> [u8; 1048576]
    ensures { 1048576 ≡ length result }
{
    [0; 1048576]
}

fn main() {
    let mut text = input_buffer();
    let size = io::read_full(0, &mut text);
    run_lines(&text[..size]);
}
