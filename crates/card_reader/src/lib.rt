// Reads a card line: its separator and its words.
#![tactic(auto)]

pub mod kept;

ghost use Rattle.std.specs.Prelude.{◌≡◌, ◌≤◌, length};
ghost use Rattle.card_grammar.specs.Card.{card_of};
ghost use Rattle.card_reader.specs.Reading.{reading};
ghost use Rattle.card_reader.specs.Answers.{card_given};

use card_grammar::machine::{Mode, Move};
use kept::Kept;

// The longest line, in bytes, without its newline.
pub const MAX_LINE: usize = 2048;

// A card's separator and words, with zeros behind them. Each has one place more than START takes: a longer one is cut to that, and START
// turns it away all the same.
#[derive(Clone, Copy)]
pub struct Card {
    pub separator: Kept<u8, 257>,
    pub words: Kept<u32, 65>,
}

// Reads a line of at most 2,048 bytes, byte by byte.
fn read_short(line: &[u8]) -> Option<Card>
    requires { length line.now ≤ 2048 }
    ensures { card_given result ≡ reading (card_of line.now) }
{
    let mut separator = Kept::empty(0);
    let mut words = Kept::empty(0);
    let mut mode = Mode::Head(0);
    for byte in line {
        mode = match card_machine::step(mode, *byte) {
            Move::To(next) => next,
            Move::Byte(value) => {
                separator.keep(value);
                Mode::More
            }
            Move::Word(word) => {
                words.keep(word);
                Mode::Calls
            }
        };
    }
    let Mode::End = mode else {
        return None;
    };
    Some(Card { separator, words })
}

// What a line is read as: the card that it is, or none.
pub fn read(line: &[u8]) -> Option<Card>
    ensures { card_given result ≡ reading (card_of line.now) }
{
    if line.len() > MAX_LINE {
        return None;
    }
    read_short(line)
}
