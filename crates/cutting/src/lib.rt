// Words cut into calls that a pattern may declare.
#![tactic(auto)]

ghost use Rattle.std.specs.Prelude.{◌≡◌, List, [], ◌∷◌, ◌++◌, ℕ, ◌-◌, ◌<◌, length, OnOk, IfErr};
ghost use Rattle.basics.specs.Answers.{number_of};
ghost use Rattle.words.specs.Words.{length_of};
ghost use Rattle.pattern.specs.Answers.{words_answer};
ghost use Rattle.cutting.specs.Cutting.{cut_answer};
ghost use Rattle.cutting.specs.Steps.{HasCalls, calls_of};

use basics::Refusal;
use pattern::list::Words;
use pattern::{MAX_CALL, MAX_WORDS};

// The first call of a word that is longer than the limit.
fn full_call(word: u32) -> u32
    requires { 16777216 < length_of word }
    ensures { result ≡ word - (length_of word - 16777216) }
{
    word - (words::length_of(word) - MAX_CALL)
}

// One call more, where there is room for it.
fn push(calls: &mut Words, call: u32) -> Result<(), Refusal>
    ensures ok { OnOk result ((cs : List ℕ) → HasCalls calls.old cs → HasCalls calls.new (cs ++ (call ∷ []))) }
    ensures err { IfErr result (λ e. (number_of e ≡ 1) × (calls.old.count ≡ 64)) }
{
    if calls.count == MAX_WORDS {
        return Err(Refusal::WordCountOutOfRange);
    }
    calls.words[calls.count] = call;
    calls.count += 1;
    Ok(())
}

// The calls of a word, where there is room for all of them.
fn push_calls(calls: &mut Words, word: u32) -> Result<(), Refusal>
    ensures ok { OnOk result ((cs : List ℕ) → HasCalls calls.old cs → HasCalls calls.new (cs ++ calls_of 16777216 word)) }
    ensures err { IfErr result (λ e. (number_of e ≡ 1) ×
        ((cs : List ℕ) → HasCalls calls.old cs → 64 < length (cs ++ calls_of 16777216 word))) }
{
    let mut left = word;
    while words::length_of(left) > MAX_CALL {
        push(calls, full_call(left))?;
        left -= MAX_CALL;
    }
    push(calls, left)
}

// Words cut into calls of MAX_CALL and any rest, where 64 calls suffice.
pub fn cut(words: &[u32]) -> Result<Words, Refusal>
    ensures { words_answer result ≡ cut_answer words.now }
{
    let mut calls = Words {
        words: [0; 64],
        count: 0,
    };
    for word in words {
        push_calls(&mut calls, *word)?;
    }
    Ok(calls)
}
