// The machine that reads a card line, a byte at a time: where it stands, and what a byte does.

// Where the machine stands in a line. Every number is a u32, even a small one: with one width the compiler keeps a mode in registers.
#[derive(Clone, Copy, Debug, PartialEq, Eq)]
pub enum Mode {
    // in "(card (domain", before the byte at that place
    Head(u32),
    // behind "(card (domain"
    Domain,
    // behind the space that follows: the first pair of digits has to begin
    First,
    // behind the first digit of a pair, which is that number
    Half(u32),
    // behind a pair
    More,
    // in ") (calls", before the byte at that place
    Middle(u32),
    // behind ") (calls", or behind a call
    Calls,
    // behind the space before a call
    Open,
    // behind the call's opening bracket
    Kind,
    // behind the letter of the kind, which is the word's top bit as a number
    Space(u32),
    // behind the space that follows: the length has to begin
    Start(u32),
    // behind the length 0
    Zero(u32),
    // behind the first digits of a length, which are that number
    Length(u32, u32),
    // behind the bracket that closes the calls
    Close,
    // behind a whole card
    End,
    // no card begins so
    Dead,
}

// What a byte does: it moves the machine on, or ends a byte of the separator or a word.
#[derive(Clone, Copy, Debug, PartialEq, Eq)]
pub enum Move {
    To(Mode),
    Byte(u8),
    Word(u32),
}
