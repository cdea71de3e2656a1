// Answers the card lines of standard input on standard output, a line each, in the order of the input. Document 01, "Cards".
#![tactic(auto)]

ghost use Rattle.std.specs.Prelude.{◌≡◌, ◌≤◌, length, IfSome};
ghost use Rattle.card_lines.specs.Calls.{kept_of, next_kept, piece_kept};

use card_lines::Fed;
use std::io::Read;

const STDOUT: i32 = 1;

const STDERR: i32 = 2;

// Writes the first bytes of the output.
fn write(output: &[u8], filled: usize) -> bool
    requires { filled ≤ length output.now }
{
    let is_written = io::write_all(STDOUT, &output[..filled]);
    if !is_written {
        io::write_all(STDERR, b"cards: output could not be written\n");
    }
    is_written
}

// Answers the lines of a piece. Answers are written together, when there is no room for the longest one, and at the end of the piece. If all could be
// written, it gives what the calls on the whole piece leave.
fn answer_piece(
    line: &mut [u8; 2049],
    last: Fed,
    piece: &[u8],
    output: &mut [u8; 65536],
) -> Option<Fed>
    ensures { IfSome result (λ fed. kept_of line.new fed ≡
        piece_kept (length piece.now) (next_kept (kept_of line.old last)) piece.now) }
{
    let mut fed = card_lines::next_piece(last);
    while fed.used < piece.len() {
        fed = card_lines::answer_lines(line, fed, piece, output);
        if !write(output, fed.written) {
            return None;
        }
    }
    Some(fed)
}

// Answers the line that the end of the input ends, if there is one.
fn answer_last(line: &[u8; 2049], fed: Fed, answer: &mut [u8; 1050]) {
    let written = card_lines::end(line, fed, answer);
    write(answer, written);
}

fn say_not_read() {
    io::write_all(STDERR, b"cards: input could not be read\n");
}

// A proved loop has to end, and nothing says that the input does. So it has as many turns as no run uses up.
fn main(rt: HostRuntime) {
    let mut line = [0u8; 2049];
    let mut fed = card_lines::start();
    let mut input = io::large_buffer();
    let mut output = io::large_buffer();
    let mut stdin = rt.stdin();
    for _ in 0..u64::MAX {
        let Ok(count) = stdin.read(&mut input) else {
            say_not_read();
            return;
        };
        if count == 0 {
            break;
        }
        let Some(next) = answer_piece(&mut line, fed, &input[..count], &mut output) else {
            return;
        };
        fed = next;
    }
    let mut answer = [0u8; 1050];
    answer_last(&line, fed, &mut answer);
}
