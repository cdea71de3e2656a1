// The place in a pattern, and calls against it.
ghost use Rattle.std.specs.Prelude.{◌≡◌};
ghost use Rattle.words.specs.Kinds.{absorbs};
ghost use Rattle.progress.specs.Place.{sound_place, in_pattern, place_after};

use words::Kind;

// A phase number, from 0, and how many elements of that phase are done.
#[derive(Clone, Copy, Debug, PartialEq, Eq)]
pub struct Place {
    pub phase: u32,
    pub done: u32,
}

impl Place {
    // Whether the place is one in the pattern.
    pub fn is_sound(self, words: &[u32], count: u32) -> bool
        ensures { result ≡ sound_place words.now count self.phase self.done }
    {
        if self.phase > count {
            return false;
        }
        if self.phase == count {
            return self.done == 0;
        }
        self.done < words::length_of(words::phase_word(words, self.phase))
    }

    // Whether so many elements of a kind lie in the phase.
    pub fn in_pattern(self, words: &[u32], count: u32, kind: Kind, elements: usize) -> bool
        ensures { result ≡ in_pattern words.now count self.phase self.done (absorbs kind) elements }
    {
        if self.phase >= count {
            return false;
        }
        let word = words::phase_word(words, self.phase);
        if words::kind_of(word) != kind {
            return false;
        }
        let length = words::length_of(word);
        if self.done > length {
            return false;
        }
        elements <= (length - self.done) as usize
    }

    // The place after so many elements of the phase, of which no more are done than it has left.
    pub fn after(self, words: &[u32], count: u32, elements: usize) -> Place
        ensures { result ≡ place_after words.now count self.phase self.done elements }
    {
        if self.phase >= count {
            return self;
        }
        let length = words::length_of(words::phase_word(words, self.phase));
        if self.done >= length {
            return self;
        }
        if elements >= (length - self.done) as usize {
            return Place {
                phase: self.phase + 1,
                done: 0,
            };
        }
        Place {
            phase: self.phase,
            done: self.done + elements as u32,
        }
    }
}
