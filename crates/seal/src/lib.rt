// Sealing coin notes, which is authenticated encryption: a key and a nonce are absorbed by a session, and each block
// is added to elements that it squeezes, and absorbed; the last elements squeezed are the mark, which is the
// authentication tag. Nothing but lent buffers is as long as a note.
#![tactic(auto)]

ghost use Rattle.std.specs.Prelude.{◌≡◌, true, List, [], ◌∷◌, ◌++◌, ℕ, ◌+◌, ◌≤◌, length, take};
ghost use mathlib.Core.List.{zip_with};
ghost use Rattle.basics.specs.Lists.{joined, total};
ghost use Rattle.basics.specs.Answers.{answer_number};
ghost use Rattle.basics.specs.Refusals.{first_number};
ghost use Rattle.session.specs.Record.{squeezed_all};
ghost use Rattle.session.specs.declared.Session.{Session};
ghost use Rattle.seal.specs.Seal.{seal_words, keyed, after_blocks, cipher_blocks, plain_blocks, blocks_of, is_mark, sound_lengths, are_elements, note_rows, leaving, seal_note, open_note};
ghost use Rattle.seal.specs.Contexts.{context_of};
ghost use Rattle.seal.specs.Steps.{Starts, AcceptsBlocks, AcceptsMark, cipher_none, plain_none, after_none, opened_none};

use basics::Refusal;
use field::Field;
use pattern::list::Words;
use session::Session;

// How many elements a key, a nonce and a mark have.
const KEY_LENGTH: usize = 8;

const NONCE_LENGTH: usize = 8;

const MARK_LENGTH: usize = 8;

// The form of a note's tag string.
const NOTE_FORM: u32 = 1;

// How many blocks a note may have.
const MAX_BLOCKS: usize = 31;

// The top bit of a word, set for ABSORB.
const ABSORB: u32 = 2147483648;

// What a note is sealed under: the same opens it.
#[derive(Clone, Copy)]
pub struct NoteContext<'a> {
    // the field number
    pub field: u32,
    pub key: &'a [u32],
    pub nonce: &'a [u32],
    pub separator: &'a [u8],
    // how many elements each block has
    pub lengths: &'a [u32],
}

// Whether these are the lengths of 1 to 31 blocks that a pattern may declare.
fn are_sound_lengths(lengths: &[u32]) -> bool
    ensures { result ≡ sound_lengths lengths.now }
{
    if lengths.is_empty() {
        return false;
    }
    if lengths.len() > MAX_BLOCKS {
        return false;
    }
    lengths.iter().all(|n| 1 <= *n && *n <= pattern::MAX_CALL)
}

// How many elements the blocks have in all.
fn total(lengths: &[u32]) -> usize
    requires { sound_lengths lengths.now ≡ true }
    ensures { result ≡ total lengths.now }
{
    lengths.iter().map(|n| *n as usize).sum()
}

// The words that declare the calls of a note.
fn declare(lengths: &[u32]) -> Words
    requires { sound_lengths lengths.now ≡ true }
    ensures { take result.count result.words ≡ seal_words lengths.now }
{
    let mut words = [0u32; 64];
    words[0] = ABSORB + (KEY_LENGTH + NONCE_LENGTH) as u32;
    for (i, n) in lengths.iter().enumerate() {
        words[2 * i + 1] = *n;
        words[2 * i + 2] = ABSORB + *n;
    }
    words[2 * lengths.len() + 1] = MARK_LENGTH as u32;
    Words {
        words,
        count: 2 * lengths.len() + 2,
    }
}

// Combines each element of a block with one that was squeezed, in whose place the result goes.
fn combine<F: Fn(u32, u32) -> u32>(block: &[u32], squeezed: &mut [u32], f: F)
    requires long { length block.now ≡ length squeezed.old }
    requires callable { F.IsAlwaysCallable f }
    ensures { (g : ℕ → ℕ → ℕ) → ((x y z : ℕ) → F.post f x y z → z ≡ g x y) →
        squeezed.new ≡ zip_with g block.now squeezed.old }
{
    for (i, x) in block.iter().enumerate() {
        squeezed[i] = f(*x, squeezed[i]);
    }
}

// A pass over the blocks of a note: sealing, or opening.
trait Pass {
    // what the blocks of a text give
    ghost given: { Session → List (List ℕ) → List (List ℕ) };

    // the session behind them
    ghost after: { Session → List (List ℕ) → Session };

    // that their calls are accepted
    ghost Asks: { Session → List (List ℕ) → Type 0 };

    // One block, whose result goes into a buffer.
    fn pass_block(session: &mut Session, block: &[u32], out: &mut [u32])
        requires long { length block.now ≡ length out.old }
        requires asked { (blocks : List (List ℕ)) × Asks session.old (block.now ∷ blocks) }
        ensures gives { (blocks : List (List ℕ)) → given session.old (block.now ∷ blocks) ≡ out.new ∷ given session.new blocks }
        ensures leaves { (blocks : List (List ℕ)) → after session.old (block.now ∷ blocks) ≡ after session.new blocks }
        ensures asks { (blocks : List (List ℕ)) → Asks session.old (block.now ∷ blocks) → Asks session.new blocks };

    // no block gives none, and leaves the session
    ghost given_none: { (r : Session) → given r [] ≡ [] };

    ghost after_none: { (r : Session) → after r [] ≡ r };
}

// Sealing: each element of a plain block is added to one that the session squeezes.
struct Sealing;

impl Pass for Sealing {
    ghost given = { cipher_blocks };

    ghost after = { after_blocks };

    ghost Asks = { AcceptsBlocks };

    fn pass_block(session: &mut Session, block: &[u32], out: &mut [u32]) {
        let field = field::field_of(session.field);
        session.squeeze(out).unwrap();
        combine(block, out, |x, y| field::add(field, x, y));
        session.absorb(block).unwrap();
    }

    ghost given_none = { cipher_none };

    ghost after_none = { after_none };
}

// Opening: the elements that the session squeezes are taken from those of a cipher block.
struct Opening;

impl Pass for Opening {
    ghost given = { plain_blocks };

    ghost after = { λ r blocks. after_blocks r (plain_blocks r blocks) };

    ghost Asks = { λ r blocks. AcceptsBlocks r (plain_blocks r blocks) };

    fn pass_block(session: &mut Session, block: &[u32], out: &mut [u32]) {
        let field = field::field_of(session.field);
        let p = field::modulus(field);
        session.squeeze(out).unwrap();
        // what is squeezed is below p
        combine(block, out, |x, y| field::add(field, x, p.saturating_sub(y)));
        session.absorb(out).unwrap();
    }

    ghost given_none = { plain_none };

    ghost after_none = { opened_none };
}

// All blocks of a text, one after the other.
fn pass_blocks<P: Pass>(session: &mut Session, lengths: &[u32], text: &[u32], out: &mut [u32])
    requires { (total lengths.now ≤ length text.now) × (total lengths.now ≡ length out.old) ×
        P.Asks session.old (blocks_of lengths.now text.now) }
    ensures { (session.new ≡ P.after session.old (blocks_of lengths.now text.now)) ×
        (out.new ≡ joined (P.given session.old (blocks_of lengths.now text.now))) }
{
    let mut at: usize = 0;
    for n in lengths {
        let end = at + *n as usize;
        P::pass_block(session, &text[at..end], &mut out[at..end]);
        at = end;
    }
}

// Whether a mark is what stands in a list. Differences are counted to the end, so that no element is left uncompared
// behind the first that differs.
fn is_mark(mark: &[u32], given: &[u32]) -> bool
    requires { (length mark.now ≡ 8) × (length given.now ≡ 8) }
    ensures { result ≡ is_mark mark.now given.now }
{
    let mut differences: u32 = 0;
    for (x, y) in mark.iter().zip(given) {
        differences += u32::from(x != y);
    }
    differences == 0
}

// Whether what a session squeezes last is the given mark.
fn has_mark(session: &mut Session, given: &[u32]) -> bool
    requires { (length given.now ≡ 8) × AcceptsMark session.old }
    ensures { result ≡ is_mark (squeezed_all session.old 8) given.now }
{
    let mut mark = [0u32; MARK_LENGTH];
    session.squeeze(&mut mark).unwrap();
    is_mark(&mark, given)
}

impl NoteContext<'_> {
    // Seals a plain text of so many blocks: its cipher elements and then the mark go into a buffer, which has as many
    // places. Refused, it writes nothing.
    pub fn seal(&self, plain: &[u32], out: &mut [u32]) -> Result<(), Refusal>
        ensures { leaving (answer_number result) out.new ≡ seal_note (context_of self.now) plain.now out.old }
    {
        self.check(plain, 0, out.len(), MARK_LENGTH)?;
        let mut session = self.start();
        let (cipher, mark) = out.split_at_mut(plain.len());
        pass_blocks::<Sealing>(&mut session, self.lengths, plain, cipher);
        session.squeeze(mark).unwrap();
        Ok(())
    }

    // Opens a note as sealing left it: its blocks go into a buffer, which has as many places as they have elements.
    // Where the mark differs, the buffer is left with zeros; refused for anything else, it writes nothing.
    pub fn open(&self, note: &[u32], out: &mut [u32]) -> Result<(), Refusal>
        ensures { leaving (answer_number result) out.new ≡ open_note (context_of self.now) note.now out.old }
    {
        self.check(note, MARK_LENGTH, out.len(), 0)?;
        let mut session = self.start();
        pass_blocks::<Opening>(&mut session, self.lengths, note, out);
        if !has_mark(&mut session, &note[out.len()..]) {
            out.fill(0);
            return Err(Refusal::MarkDiffers);
        }
        Ok(())
    }

    // The rows that sealing and opening share, for a buffer of so many places.
    fn check(
        &self,
        text: &[u32],
        text_mark: usize,
        buffer: usize,
        buffer_mark: usize,
    ) -> Result<(), Refusal>
        requires { (text_mark ≤ 8) × (buffer_mark ≤ 8) }
        ensures { answer_number result ≡ first_number (note_rows (context_of self.now) text.now text_mark buffer buffer_mark) }
    {
        let field = Field::try_from(self.field)?;
        if self.separator.len() > pattern::MAX_SEPARATOR {
            return Err(Refusal::SeparatorTooLong);
        }
        if !are_sound_lengths(self.lengths) {
            return Err(Refusal::SealLengthInvalid);
        }
        if self.key.len() != KEY_LENGTH {
            return Err(Refusal::SealLengthInvalid);
        }
        if self.nonce.len() != NONCE_LENGTH {
            return Err(Refusal::SealLengthInvalid);
        }
        let size = total(self.lengths);
        if text.len() != size + text_mark {
            return Err(Refusal::SealLengthInvalid);
        }
        if buffer != size + buffer_mark {
            return Err(Refusal::SealLengthInvalid);
        }
        if !self.are_elements(field, text) {
            return Err(Refusal::ElementNotReduced);
        }
        Ok(())
    }

    // Whether key, nonce and text are elements of a field.
    fn are_elements(&self, field: Field, text: &[u32]) -> bool
        ensures { result ≡ are_elements field self.now.key.now self.now.nonce.now text.now }
    {
        field::is_reduced(field, self.key)
            && field::is_reduced(field, self.nonce)
            && field::is_reduced(field, text)
    }

    // The key and then the nonce.
    fn key_and_nonce(&self) -> [u32; KEY_LENGTH + NONCE_LENGTH]
        requires { (length self.now.key.now ≡ 8) × (length self.now.nonce.now ≡ 8) }
        ensures { result ≡ self.now.key.now ++ self.now.nonce.now }
    {
        let mut both = [0u32; KEY_LENGTH + NONCE_LENGTH];
        both[..KEY_LENGTH].copy_from_slice(self.key);
        both[KEY_LENGTH..].copy_from_slice(self.nonce);
        both
    }

    // The session of a note, with key and nonce absorbed.
    fn start(&self) -> Session
        requires { Starts (context_of self.now) }
        ensures { result ≡ keyed (context_of self.now) }
    {
        let words = declare(self.lengths);
        let mut session = Session::start(
            self.field,
            NOTE_FORM,
            words.as_slice(),
            self.separator,
        ).unwrap();
        session.absorb(&self.key_and_nonce()).unwrap();
        session
    }
}
