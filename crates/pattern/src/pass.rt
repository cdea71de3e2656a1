// The pass over the declared words: each is checked and merged, and looked at once.
ghost use Rattle.std.specs.Prelude.{◌≡◌, List, [], ◌∷◌, ◌++◌, ◌≢◌, false, ℕ, ◌+◌, ◌-◌, ◌*◌, ◌≤◌, ◌<◌, length, get_or, replicate, OnOk};
ghost use Rattle.words.specs.Words.{length_of};
ghost use Rattle.basics.specs.Logic.{any};
ghost use Rattle.pattern.specs.Pattern.{phases, too_long};
ghost use Rattle.basics.specs.Answers.{number_of, answer_number};
ghost use Rattle.pattern.specs.Steps.{Holds, holding, refusal_number, count_in};
ghost use Rattle.pattern.specs.Pass.{held_after, earned, rank, earlier, pass_step};

use crate::{MAX_CALL, MAX_WORDS};
use basics::Refusal;

// Numbers are compared by their doubles, among which 19 counts between 2 and 3.
const BETWEEN_2_AND_3: u64 = 5;

// What the pass holds beside the list of merged words: how many words the list has, or a refusal.
type Held = Result<usize, Refusal>;

// A word with so many elements more.
fn lengthened(word: u32, elements: u32) -> u32
    requires { length_of word + elements ≤ 2147483647 }
    ensures { result ≡ word + elements }
{
    word + elements
}

// A word merged behind the words of a list. Answers how many words there are then.
fn add_word(list: &mut [u32; 64], count: usize, word: u32) -> usize
    requires { (count < 64) × (count ≢ 0 → length_of (get_or list.old (count - 1) 0) + length_of word ≤ 2147483647) }
    ensures { (ws : List ℕ) → any too_long (phases ws) ≡ false → Holds ws list.old count
        → Holds (ws ++ (word ∷ [])) list.new result }
{
    if count == 0 {
        list[count] = word;
        return count + 1;
    }
    let last = list[count - 1];
    if !words::same_kind(last, word) {
        list[count] = word;
        return count + 1;
    }
    list[count - 1] = lengthened(last, words::length_of(word));
    count
}

// What a word earns by itself behind n words.
fn earned_by(n: usize, word: u32) -> Option<Refusal>
    ensures { refusal_number result ≡ earned n word }
{
    if n >= MAX_WORDS {
        return Some(Refusal::WordCountOutOfRange);
    }
    if words::length_of(word) == 0 {
        return Some(Refusal::WordLengthZero);
    }
    if words::length_of(word) > MAX_CALL {
        return Some(Refusal::CallTooLong);
    }
    (n == 0 && !words::is_absorb(word)).then_some(Refusal::FirstWordSqueeze)
}

// Where a refusal stands in the order of checking.
fn rank_of(refusal: Refusal) -> u64
    ensures { result ≡ rank (number_of refusal) }
{
    if refusal == Refusal::CallTooLong {
        return BETWEEN_2_AND_3;
    }
    2 * u64::from(u32::from(refusal))
}

// The one of two refusals that is checked first.
fn earlier_of(held: Refusal, earned: Refusal) -> Refusal
    ensures { number_of result ≡ earlier (number_of held) (number_of earned) }
{
    if rank_of(earned) < rank_of(held) {
        return earned;
    }
    held
}

// What is held where a refusal may be earned besides: the one that is checked first.
pub(crate) fn settled(held: Held, earned: Option<Refusal>) -> Held
    ensures number { answer_number result ≡ earlier (answer_number held) (refusal_number earned) }
    ensures count { OnOk result (result ≡ held) }
{
    let Some(refusal) = earned else {
        return held;
    };
    match held {
        Ok(_) => Err(refusal),
        Err(first) => Err(earlier_of(first, refusal)),
    }
}

// One word more behind n words: a refusal that is held stays, unless the word earns an earlier one; while there is
// none, the word is merged. A merged length is a sum of at most n lengths within the limit, so that it fits a word.
fn pass_word(list: &mut [u32; 64], held: Held, n: usize, word: u32) -> Held
    requires { answer_number held ≡ 0 → (count_in held ≤ n) ×
        (count_in held ≢ 0 → length_of (get_or list.old (count_in held - 1) 0) ≤ n * 16777216) }
    ensures { ((ws : List ℕ) → length ws ≡ n → holding (answer_number held) list.old (count_in held) ≡ held_after ws
        → holding (answer_number result) list.new (count_in result) ≡ pass_step n (held_after ws) word) ×
        (answer_number result ≢ 0 → list.new ≡ list.old) }
{
    let count = settled(held, earned_by(n, word))?;
    Ok(add_word(list, count, word))
}

// The pass over the words, of which there are 65 at most. The list has to be zeros.
pub(crate) fn pass(words: &[u32], list: &mut [u32; 64]) -> Held
    requires { (length words.now ≤ 65) × (list.old ≡ replicate 64 0) }
    ensures { holding (answer_number result) list.new (count_in result) ≡ held_after words.now }
{
    let mut held = Ok(0);
    for (n, word) in words.iter().enumerate() {
        held = pass_word(list, held, n, *word);
    }
    held
}
