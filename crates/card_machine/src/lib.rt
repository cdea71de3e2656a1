// The machine that reads a card line, a byte at a time.
#![tactic(auto)]

ghost use Rattle.std.specs.Prelude.{◌≡◌, ◌<◌, MatchOption, slice_index};
ghost use Rattle.card_grammar.specs.Machine.{hex_value, decimal_value, expected, move_of};

use card_grammar::machine::{Mode, Move};

// What stands before the separator of a card, and behind it.
const HEAD: &[u8; 13] = b"(card (domain";

const MIDDLE: &[u8; 8] = b") (calls";

// The byte at a place of a text, and 0 behind it, which no byte of a text is.
fn byte_at(text: &[u8], place: u32) -> u8
    ensures { result ≡ slice_index text.now place }
{
    text.get(place as usize).copied().unwrap_or(0)
}

// The value of a lower-case hexadecimal digit.
fn hex_value(byte: u8) -> Option<u8>
    ensures { MatchOption result (hex_value byte ≡ 16) (λ value. (value < 16) × (value ≡ hex_value byte)) }
{
    match byte {
        b'0'..=b'9' => Some(byte - b'0'),
        b'a'..=b'f' => Some(byte - b'a' + 10),
        _ => None,
    }
}

// The value of a decimal digit.
fn decimal_value(byte: u8) -> Option<u8>
    ensures { MatchOption result (decimal_value byte ≡ 10) (λ value. (value < 10) × (value ≡ decimal_value byte)) }
{
    match byte {
        b'0'..=b'9' => Some(byte - b'0'),
        _ => None,
    }
}

// Before a byte that is fixed: it leads to `next`, any other to no card.
fn expect(byte: u8, wanted: u8, next: Mode) -> Move
    ensures { result ≡ expected byte wanted next }
{
    if byte == wanted {
        Move::To(next)
    } else {
        Move::To(Mode::Dead)
    }
}

// In the text before the separator.
fn head_step(place: u32, byte: u8) -> Move
    ensures { result ≡ move_of (Mode.Head place) byte }
{
    let wanted = byte_at(HEAD, place);
    if place < 12 {
        return expect(byte, wanted, Mode::Head(place + 1));
    }
    expect(byte, wanted, Mode::Domain)
}

// Behind "(card (domain": the separator follows, or its bracket closes.
fn domain_step(byte: u8) -> Move
    ensures { result ≡ move_of Mode.Domain byte }
{
    if byte == b' ' {
        return Move::To(Mode::First);
    }
    expect(byte, b')', Mode::Middle(1))
}

// The first digit of a pair.
fn first_step(byte: u8) -> Move
    ensures { result ≡ move_of Mode.First byte }
{
    match hex_value(byte) {
        Some(value) => Move::To(Mode::Half(u32::from(value))),
        None => Move::To(Mode::Dead),
    }
}

// The second digit of a pair ends a byte. `high` is below 16 in every mode that a line leads to; the test shows that
// the byte fits.
fn half_step(high: u32, byte: u8) -> Move
    ensures { result ≡ move_of (Mode.Half high) byte }
{
    match hex_value(byte) {
        Some(low) if high < 16 => Move::Byte((high * 16 + u32::from(low)) as u8),
        _ => Move::To(Mode::Dead),
    }
}

// Behind a pair: the bracket closes, or another pair begins.
fn more_step(byte: u8) -> Move
    ensures { result ≡ move_of Mode.More byte }
{
    if byte == b')' {
        return Move::To(Mode::Middle(1));
    }
    first_step(byte)
}

// In the text behind the separator.
fn middle_step(place: u32, byte: u8) -> Move
    ensures { result ≡ move_of (Mode.Middle place) byte }
{
    let wanted = byte_at(MIDDLE, place);
    if place < 7 {
        return expect(byte, wanted, Mode::Middle(place + 1));
    }
    expect(byte, wanted, Mode::Calls)
}

// Behind the calls so far: one more follows, or their bracket closes.
fn calls_step(byte: u8) -> Move
    ensures { result ≡ move_of Mode.Calls byte }
{
    if byte == b' ' {
        return Move::To(Mode::Open);
    }
    expect(byte, b')', Mode::Close)
}

// A call's kind is a letter, and the top bit of its word.
fn kind_step(byte: u8) -> Move
    ensures { result ≡ move_of Mode.Kind byte }
{
    if byte == b'a' {
        return Move::To(Mode::Space(2147483648));
    }
    expect(byte, b's', Mode::Space(0))
}

// A call's length has no leading zero.
fn start_step(top: u32, byte: u8) -> Move
    ensures { result ≡ move_of (Mode.Start top) byte }
{
    if byte == b'0' {
        return Move::To(Mode::Zero(top));
    }
    match decimal_value(byte) {
        Some(value) => Move::To(Mode::Length(top, u32::from(value))),
        None => Move::To(Mode::Dead),
    }
}

// Nothing but the bracket follows a length of 0.
fn zero_step(top: u32, byte: u8) -> Move
    ensures { result ≡ move_of (Mode.Zero top) byte }
{
    if byte == b')' {
        Move::Word(top)
    } else {
        Move::To(Mode::Dead)
    }
}

// The bracket ends a word; a digit goes on with its length. The word is below 2^32 in every mode that a line leads to;
// the checked sum shows that it fits.
fn length_step(top: u32, length: u32, byte: u8) -> Move
    ensures { result ≡ move_of (Mode.Length top length) byte }
{
    if byte == b')' {
        return match top.checked_add(length) {
            Some(word) => Move::Word(word),
            None => Move::To(Mode::Dead),
        };
    }
    let Some(value) = decimal_value(byte) else {
        return Move::To(Mode::Dead);
    };
    let longer = u64::from(length) * 10 + u64::from(value);
    if longer <= 2147483647 {
        Move::To(Mode::Length(top, longer as u32))
    } else {
        Move::To(Mode::Dead)
    }
}

// What a byte does in a mode.
pub fn step(mode: Mode, byte: u8) -> Move
    ensures { result ≡ move_of mode byte }
{
    match mode {
        Mode::Head(place) => head_step(place, byte),
        Mode::Domain => domain_step(byte),
        Mode::First => first_step(byte),
        Mode::Half(high) => half_step(high, byte),
        Mode::More => more_step(byte),
        Mode::Middle(place) => middle_step(place, byte),
        Mode::Calls => calls_step(byte),
        Mode::Open => expect(byte, b'(', Mode::Kind),
        Mode::Kind => kind_step(byte),
        Mode::Space(top) => expect(byte, b' ', Mode::Start(top)),
        Mode::Start(top) => start_step(top, byte),
        Mode::Zero(top) => zero_step(top, byte),
        Mode::Length(top, length) => length_step(top, length, byte),
        Mode::Close => expect(byte, b')', Mode::End),
        Mode::End => Move::To(Mode::Dead),
        Mode::Dead => Move::To(Mode::Dead),
    }
}
