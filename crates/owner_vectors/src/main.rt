// Checks the tables of standard input, asks each for the owner of a separator, and prints the answers. tests/owners.py says how lines
// are laid out; stdin is what it makes, and stdout what the second implementation answers to it, in Python, written from the papers by
// other hands (tests/oracle).
#![tactic(auto)]

ghost use Rattle.std.specs.Prelude.{◌≡◌, ◌<◌, length};

use basics::{ACCEPTED, Refusal};

// Numbers, with a space before each.
fn print_numbers(numbers: &[u32]) {
    for number in numbers {
        io::write_all(1, b" ");
        io::print_decimal(1, u64::from(*number));
    }
}

// The answer's number, and what comes with it.
fn print_check(table: &[u8]) {
    io::write_all(1, b"c");
    match owners::check(table) {
        Ok(()) => print_numbers(&[ACCEPTED, 0]),
        Err(fault) => print_numbers(&[u32::from(Refusal::from(fault)), fault.place()]),
    }
}

// The answer's number, what comes with a refusal, and the line.
fn print_owner(table: &[u8], separator: &[u8]) {
    io::write_all(1, b"o");
    match owners::owner(table, separator) {
        Ok(line) => print_numbers(&[ACCEPTED, 0, u32::from(line)]),
        Err(fault) => print_numbers(&[u32::from(Refusal::from(fault)), fault.place(), 0]),
    }
}

// A line of the output.
fn print_answers(table: &[u8], separator: &[u8]) {
    print_check(table);
    io::write_all(1, b", ");
    print_owner(table, separator);
    io::write_all(1, b"\n");
}

// The place behind the line.
fn print_line(text: &[u8], at: usize) -> usize
    requires { at < length text.now }
    ensures { at < result }
{
    let first = hex_fields::field_at(text, at);
    let second = hex_fields::field_at(text, first.next);
    print_answers(first.as_bytes(), second.as_bytes());
    second.next
}

// Each line of the input says where the next begins.
fn print_lines(text: &[u8]) {
    let mut at: usize = 0;
    while at < text.len() {
        at = print_line(text, at);
    }
}

// Zeros, for all of standard input. The contract gives only the length, which lending the array needs.
fn input_buffer() -> [u8; 524288]
    ensures { 524288 ≡ length result }
{
    [0; 524288]
}

// The lines of standard input, answered on standard output.
fn main() {
    let mut text = input_buffer();
    let size = io::read_full(0, &mut text);
    print_lines(&text[..size]);
}
