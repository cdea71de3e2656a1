// Patterns: the start check, which merges.
#![tactic(auto)]

pub mod list;
mod pass;

ghost use Rattle.std.specs.Prelude.{◌≡◌};
ghost use Rattle.pattern.specs.Opening.{opening, checked};
ghost use Rattle.pattern.specs.Answers.{words_answer};
ghost use Rattle.pattern.specs.Pass.{ending};
ghost use Rattle.pattern.specs.Steps.{refusal_number};

use basics::Refusal;
use list::Words;

// The longest pattern, in words.
pub const MAX_WORDS: usize = 64;

// The longest call that a pattern may declare, in elements.
pub const MAX_CALL: u32 = 16777216;

// The longest separator, in bytes.
pub const MAX_SEPARATOR: usize = 256;

// What is left for the end of the pass: the separator's length.
fn ending_of(separator_length: usize) -> Option<Refusal>
    ensures { refusal_number result ≡ ending separator_length }
{
    (separator_length > MAX_SEPARATOR).then_some(Refusal::SeparatorTooLong)
}

// The start check: one pass over the words, and what is left for its end; the refusal that is checked first wins.
pub fn check(words: &[u32], separator: &[u8]) -> Result<Words, Refusal>
    ensures { words_answer result ≡ checked (opening words.now separator.now) }
{
    if words.is_empty() {
        return Err(Refusal::WordCountOutOfRange);
    }
    let mut list = [0u32; 64];
    let looked_at = words.len().min(MAX_WORDS + 1);
    let passed = pass::pass(&words[..looked_at], &mut list);
    let count = pass::settled(passed, ending_of(separator.len()))?;
    Ok(Words { words: list, count })
}
