// Whether words are those of a sound record.
#![tactic(auto)]

ghost use Rattle.std.specs.Prelude.{◌≡◌, true, ◌≤◌, length, leb, eqb};
ghost use Rattle.basics.specs.Logic.{◌and◌, all};
ghost use Rattle.words.specs.Words.{is_absorb, length_of};
ghost use Rattle.pattern.specs.Pattern.{alternate, sound_words, sound_places};
ghost use Rattle.sound_words.specs.Faults.{fault_of};

// 1 where a word is of the kind of the word before it, or its length is 0; else 0.
fn fault(last: u32, word: u32) -> u32
    ensures { result ≡ fault_of (is_absorb last) word }
{
    u32::from(words::same_kind(last, word) || words::length_of(word) == 0)
}

// Whether kinds alternate from ABSORB, and lengths are at least 1. Faults are counted to the end, since the compiler
// takes four words at a time in a loop that nothing leaves early.
fn alternate(words: &[u32]) -> bool
    requires { length words.now ≤ 64 }
    ensures { result ≡ alternate true words.now and all (λ w. leb 1 (length_of w)) words.now }
{
    // a SQUEEZE, so that the first word has to be ABSORB
    let mut last: u32 = 0;
    let mut faults: u32 = 0;
    for word in words {
        faults += fault(last, *word);
        last = *word;
    }
    faults == 0
}

// Whether words are those of a sound record: 1 to 64, alternating from ABSORB, of lengths of at least 1.
pub fn is_sound(words: &[u32]) -> bool
    ensures { result ≡ sound_words words.now }
{
    (1..=pattern::MAX_WORDS).contains(&words.len()) && alternate(words)
}

// Whether all are 0, as unused words have to be.
fn all_zero(words: &[u32]) -> bool
    ensures { result ≡ all (λ w. eqb w 0) words.now }
{
    words.iter().all(|word| *word == 0)
}

// Whether places hold so many sound words, and zeros behind them.
pub fn places_sound(places: &[u32], count: u32) -> bool
    ensures { result ≡ sound_places places.now count }
{
    let Some((used, unused)) = places.split_at_checked(count as usize) else {
        return false;
    };
    is_sound(used) && all_zero(unused)
}
