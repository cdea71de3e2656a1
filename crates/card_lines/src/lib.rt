// Lines out of an input that comes in pieces of any size, and their answers. Between calls the caller keeps the line in progress, which no
// newline has ended yet: its bytes in 2,049 places, and how many they are, at the start 0. With 2,049 bytes it is too long, whatever follows.
#![tactic(auto)]

ghost use Rattle.std.specs.Prelude.{◌≡◌, ◌≤◌, min, length};
ghost use Rattle.basics.specs.Lists.{placed};
ghost use Rattle.card_lines.specs.Stream.{first_line, extended_length, extended, held_answer, writes, fed, line_after, last_answer};
ghost use Rattle.card_lines.specs.Calls.{start_fed, next_fed, answered_fed, answered_line, answered_text};

use card::LONGEST_ANSWER;

// The places of the line in progress: one more than a line may have.
pub const PLACES: usize = 2049;

// The places of the output of many lines.
pub const OUTPUT: usize = 65536;

// How many bytes the line in progress has, how many bytes of the piece are used, and how many bytes of output are written.
#[derive(Clone, Copy)]
pub struct Fed {
    pub held: usize,
    pub used: usize,
    pub written: usize,
}

// How many bytes precede the first newline, or all if there is none.
fn line_end(piece: &[u8]) -> usize
    ensures { (result ≡ length (first_line piece.now)) × (result ≤ length piece.now) }
{
    for (i, byte) in piece.iter().enumerate() {
        if *byte == b'\n' {
            return i;
        }
    }
    piece.len()
}

// At most 2,049.
fn within(held: usize) -> usize
    ensures { result ≡ min held 2049 }
{
    held.min(PLACES)
}

// Puts bytes behind the line in progress, as far as there are places, and gives its length.
fn extend(line: &mut [u8; 2049], held: usize, bytes: &[u8]) -> usize
    ensures { (result ≡ extended_length held bytes.now) × (line.new ≡ extended line.old held bytes.now) }
{
    let start = within(held);
    start + card::text::copy(line, start, bytes)
}

// Writes the answer to the line in progress, and a newline.
fn answer_held(line: &[u8], held: usize, answer: &mut [u8; 1050]) -> usize
    requires { length line.now ≡ 2049 }
    ensures { (result ≡ length (held_answer line.now held)) ×
        (answer.new ≡ placed answer.old 0 (held_answer line.now held)) }
{
    let end = within(held);
    card::answer(&line[..end], answer)
}

// Takes the bytes of a piece up to its first newline, or all if it has none. At a newline the answer to the line is written from the
// start of `answer` on, with a newline, and the next line begins.
pub fn feed(line: &mut [u8; 2049], held: usize, piece: &[u8], answer: &mut [u8; 1050]) -> Fed
    ensures { (result ≡ fed line.old held piece.now) ×
        (line.new ≡ line_after line.old held piece.now) ×
        (answer.new ≡ placed answer.old 0 (writes line.old held piece.now)) }
{
    let end = line_end(piece);
    let total = extend(line, held, &piece[..end]);
    if end == piece.len() {
        return Fed {
            held: total,
            used: end,
            written: 0,
        };
    }
    let written = answer_held(line, total, answer);
    Fed {
        held: 0,
        used: end + 1,
        written,
    }
}

// Before the first piece: no line is in progress.
pub fn start() -> Fed
    ensures { result ≡ start_fed }
{
    Fed {
        held: 0,
        used: 0,
        written: 0,
    }
}

// Before each piece, from what the last call gave: none of it is used.
pub fn next_piece(last: Fed) -> Fed
    ensures { result ≡ next_fed last }
{
    Fed {
        held: last.held,
        used: 0,
        written: 0,
    }
}

// Answers the lines of a piece, from what the last call gave: from the place `last.used` on, until no byte is left, or the output has no room for
// the longest answer. The answers stand one behind the other from the output's start on. A piece is used up where `last.used` is its length or more.
pub fn answer_lines(line: &mut [u8; 2049], last: Fed, piece: &[u8], output: &mut [u8; 65536]) -> Fed
    ensures { (result ≡ answered_fed line.old last piece.now) ×
        (line.new ≡ answered_line line.old last piece.now) ×
        (output.new ≡ placed output.old 0 (answered_text line.old last piece.now)) }
{
    let mut answer = [0u8; 1050];
    let mut held = last.held;
    let mut used = last.used;
    let mut written: usize = 0;
    while used < piece.len() && OUTPUT - written >= LONGEST_ANSWER {
        let one = feed(line, held, &piece[used..], &mut answer);
        let count = one.written;
        card::text::copy(output, written, &answer[..count]);
        held = one.held;
        used += one.used;
        written += count;
    }
    Fed {
        held,
        used,
        written,
    }
}

// At the end of the input, from what the last call gave: writes the answer to the line in progress, if it has a byte, and gives the number of
// bytes written: 0 exactly if no line is in progress.
pub fn end(line: &[u8; 2049], last: Fed, answer: &mut [u8; 1050]) -> usize
    ensures { (result ≡ length (last_answer line.now last.held)) ×
        (answer.new ≡ placed answer.old 0 (last_answer line.now last.held)) }
{
    let held = last.held;
    if held == 0 {
        return 0;
    }
    answer_held(line, held, answer)
}
