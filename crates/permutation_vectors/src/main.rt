// Permutes each state of standard input in the field that the line names, and prints the answer: its number, then its 24 elements.
// A line of input is a field number and a state: 25 numbers of ten digits, zeros in front, one byte behind each; 238 lines at most.
// stdin is what tests/permutation_states.py makes, and stdout what the second implementation answers to it, in Python, written from
// the papers by other hands (tests/oracle).
#![tactic(auto)]

use basics::Refusal;

// The bytes of a number in a line, with the byte behind it.
const NUMBER: usize = 11;

// The bytes of a line.
const LINE: usize = 25 * NUMBER;

// The number with one digit more behind it.
fn with_digit(value: u32, digit: &u8) -> u32 {
    ((value as u64 * 10 + *digit as u64 % 16) % 4294967296) as u32
}

// The number of ten digits that a text begins with.
fn number(text: &[u8]) -> u32 {
    text.iter().take(10).fold(0, with_digit)
}

// The state in a line, behind the field's number.
fn state_in(line: &[u8]) -> [u32; 24] {
    let mut state = [0u32; 24];
    for (x, text) in state.iter_mut().zip(line.chunks_exact(NUMBER).skip(1)) {
        *x = number(text);
    }
    state
}

// Prints an answer's number and its state, or the state that was refused.
fn print_answer(answer: Result<[u32; 24], Refusal>, given: [u32; 24]) {
    io::print_decimal(1, u64::from(basics::number(&answer)));
    for x in answer.unwrap_or(given) {
        io::write_all(1, b" ");
        io::print_decimal(1, u64::from(x));
    }
    io::write_all(1, b"\n");
}

fn main() {
    let mut text = io::large_buffer();
    let size = io::read_full(0, &mut text);
    for line in text[..size].chunks_exact(LINE) {
        let state = state_in(line);
        print_answer(poseidon::permute(number(line), state), state);
    }
}
