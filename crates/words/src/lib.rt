// The words that declare a pattern: kind and length.
#![tactic(auto)]

ghost use Rattle.std.specs.Prelude.{◌≡◌, get_or};
ghost use Rattle.basics.specs.Logic.{same};
ghost use Rattle.words.specs.Words.{is_absorb, length_of};
ghost use Rattle.words.specs.Kinds.{absorbs};

// The top bit of a word, set for ABSORB.
const ABSORB: u32 = 2147483648;

// What the elements of a call are: absorbed or squeezed.
#[derive(Clone, Copy, Debug, PartialEq, Eq)]
pub enum Kind {
    Absorb,
    Squeeze,
}

// The kind of the call that a word declares.
pub fn kind_of(word: u32) -> Kind
    ensures { absorbs result ≡ is_absorb word }
{
    if is_absorb(word) {
        Kind::Absorb
    } else {
        Kind::Squeeze
    }
}

// Whether a word is ABSORB; else it is SQUEEZE.
pub fn is_absorb(word: u32) -> bool
    ensures { result ≡ is_absorb word }
{
    word >= ABSORB
}

// How many elements a word stands for.
pub fn length_of(word: u32) -> u32
    ensures { result ≡ length_of word }
{
    word % ABSORB
}

// Whether both are ABSORB, or both SQUEEZE.
pub fn same_kind(a: u32, b: u32) -> bool
    ensures { result ≡ same (is_absorb a) (is_absorb b) }
{
    kind_of(a) == kind_of(b)
}

// The word of a phase, and 0 behind the last.
pub fn phase_word(words: &[u32], phase: u32) -> u32
    ensures { result ≡ get_or words.now phase 0 }
{
    words.get(phase as usize).copied().unwrap_or(0)
}
