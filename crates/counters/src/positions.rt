// The positions that the steps give at a place.
ghost use Rattle.std.specs.Prelude.{◌≡◌};
ghost use Rattle.counters.specs.Positions.{in_last_block, positions_after, positions_at};

use progress::place::Place;

// How many elements a block has.
const RATE: u32 = 8;

// An absorb and a squeeze position.
#[derive(Clone, Copy)]
pub struct Positions {
    pub absorb: u32,
    pub squeeze: u32,
}

// How many elements the last block of so many elements has.
fn in_last_block(elements: u32) -> u32
    ensures { result ≡ in_last_block elements }
{
    (elements % RATE + 7) % RATE + 1
}

// The positions that an element of a phase leaves, counted from 1.
fn positions_after(word: u32, element: u32) -> Positions
    ensures { result ≡ positions_after word element }
{
    let filled = in_last_block(element);
    if words::is_absorb(word) {
        Positions {
            absorb: filled,
            squeeze: RATE,
        }
    } else {
        Positions {
            absorb: 0,
            squeeze: filled,
        }
    }
}

// The positions at a place.
pub fn positions_at(words: &[u32], place: Place) -> Positions
    ensures { result ≡ positions_at words.now place.phase place.done }
{
    if place.done > 0 {
        return positions_after(words::phase_word(words, place.phase), place.done);
    }
    if place.phase == 0 {
        return Positions {
            absorb: 0,
            squeeze: 0,
        };
    }
    let word = words::phase_word(words, place.phase - 1);
    positions_after(word, words::length_of(word))
}
