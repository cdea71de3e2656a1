// How many permutations the phases of a merged pattern take.
ghost use Rattle.std.specs.Prelude.{◌≡◌, ◌<◌, length, get_or};
ghost use Rattle.basics.specs.Lists.{sum};
ghost use Rattle.words.specs.Words.{length_of};
ghost use Rattle.counters.specs.Permutations.{phase_permutations, permutations_at};

use progress::place::Place;

// The permutations for so many elements of a phase.
pub fn phase_permutations(word: u32, done: u32) -> u64
    ensures { result ≡ phase_permutations word done }
{
    let blocks = (done as u64 + 7) / 8;
    if !words::is_absorb(word) {
        return blocks;
    }
    if done == 0 {
        return 0;
    }
    blocks - 1
}

// The permutations for all elements of a phase. Numbers of 32 bits hold them, of which the compiler takes
// four at a time.
fn whole_phase(word: u32) -> u32
    ensures { result ≡ phase_permutations word (length_of word) }
{
    let length = words::length_of(word);
    if length == 0 {
        return 0;
    }
    let squeezed = (length + 7) / 8;
    if words::is_absorb(word) {
        squeezed - 1
    } else {
        squeezed
    }
}

// The permutations of whole phases.
fn whole_phases(words: &[u32]) -> u64
    requires { length words.now < 4294967296 }
    ensures { result ≡ sum (length words.now) (λ k. phase_permutations (get_or words.now k 0) (length_of (get_or words.now k 0))) }
{
    let mut permutations: u64 = 0;
    for word in words {
        permutations += whole_phase(*word) as u64;
    }
    permutations
}

// The permutations at a place: those of the phases before, and of the elements done in this one.
// Phases without a word count none.
pub fn permutations_at(words: &[u32], place: Place) -> u64
    ensures { result ≡ permutations_at words.now place.phase place.done }
{
    let before = words.len().min(place.phase as usize);
    let word = words::phase_word(words, place.phase);
    whole_phases(&words[..before]) + phase_permutations(word, place.done)
}
