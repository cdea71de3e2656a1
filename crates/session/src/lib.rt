// Sessions: START, ABSORB, SQUEEZE and FINISH over a record.
#![tactic(auto)]

ghost use Rattle.std.specs.Prelude.{◌≡◌, ◌+◌, ◌^◌, ◌<◌, length};
ghost use Rattle.basics.specs.Answers.{number_of, answer_number};
ghost use Rattle.basics.specs.Refusals.{first_number};
ghost use Rattle.words.specs.Kinds.{absorbs};
ghost use Rattle.pattern.specs.Opening.{opening};
ghost use Rattle.sponge.specs.Sponge.{sponge};
ghost use Rattle.sponge.specs.Counted.{counted};
ghost use Rattle.session.specs.Record.{wiped, tag_state};
ghost use Rattle.session.specs.Soundness.{sound};
ghost use Rattle.session.specs.Calls.{giving, record_rows, call_rows, absorb_rows, finish_rows, start, absorb, squeeze, squeeze_buffer, finish};
ghost use Rattle.session.specs.Answers.{start_answer};
ghost use Rattle.session.specs.Steps.{refused_with, moved_on};

use basics::Refusal;
use field::Field;
use progress::place::Place;
use sponge::SpongeState;
use tag::Form;
use words::Kind;

// The record of a session, laid out as C does it. Any contents at all may be handed over: a call looks at them before it uses them.
#[repr(C)]
#[derive(Clone, Copy)]
pub struct Session {
    // OPEN, otherwise closed
    pub status: u32,
    // the field number
    pub field: u32,
    // the form number of the tag string
    pub form: u32,
    pub state: [u32; Session::WIDTH],
    // the merged words of the pattern, with unused ones 0
    pub words: [u32; 64],
    // how many words are used
    pub count: u32,
    // the number of the word that is being done, from 0
    pub phase: u32,
    // how many elements of it are done
    pub done: u32,
    pub absorb_position: u32,
    pub squeeze_position: u32,
    pub permutations: u64,
}

// The status of an open record.
const OPEN: u32 = 1;

// The state that the eight elements of a tag open: they stand behind the outer elements.
fn tag_state(elements: [u32; 8]) -> [u32; Session::WIDTH]
    ensures { result ≡ tag_state elements }
{
    let mut state = [0u32; Session::WIDTH];
    state[Session::RATE..Session::RATE + 8].copy_from_slice(&elements);
    state
}

impl Session {
    // How many outer elements the state has: those that are absorbed into and squeezed from.
    pub const RATE: usize = 8;

    // How many inner elements it has.
    pub const CAPACITY: usize = 16;

    // How many elements it has in all.
    pub const WIDTH: usize = Session::RATE + Session::CAPACITY;

    // A record of zeros, which a refused START and a finished session leave.
    pub fn wiped() -> Session
        ensures { result ≡ wiped }
    {
        Session {
            status: 0,
            field: 0,
            form: 0,
            state: [0; Session::WIDTH],
            words: [0; 64],
            count: 0,
            phase: 0,
            done: 0,
            absorb_position: 0,
            squeeze_position: 0,
            permutations: 0,
        }
    }

    // START: opens a session in the field and with the form of tag string that numbers name, for a pattern and a separator.
    pub fn start(field: u32, form: u32, words: &[u32], separator: &[u8]) -> Result<Session, Refusal>
        ensures { start_answer result ≡ start field form (opening words.now separator.now) }
    {
        Field::try_from(field)?;
        Form::try_from(form)?;
        let merged = pattern::check(words, separator)?;
        let mut string = [0u8; tag::MAX_STRING];
        let length = tag::write_string(form, merged.as_slice(), separator, &mut string).unwrap();
        let digest = sha3::sha3_256(&string[..length]);
        Ok(Session {
            status: OPEN,
            field,
            form,
            state: tag_state(tag_reader::elements(digest)),
            words: merged.words,
            count: merged.count as u32,
            phase: 0,
            done: 0,
            absorb_position: 0,
            squeeze_position: 0,
            permutations: 0,
        })
    }

    // ABSORB: takes the elements of a list in.
    pub fn absorb(&mut self, input: &[u32]) -> Result<(), Refusal>
        ensures { giving (answer_number result) self.new ≡ absorb self.old input.now }
    {
        if let Err(refusal) = self.check_absorb(input) {
            return self.refuse(refusal);
        }
        let mut sponge = self.sponge();
        let permutations = sponge.absorb(field::field_of(self.field), input);
        self.move_on(sponge, permutations, input.len());
        Ok(())
    }

    // SQUEEZE: fills a buffer with elements.
    pub fn squeeze(&mut self, output: &mut [u32]) -> Result<(), Refusal>
        ensures { (giving (answer_number result) self.new ≡ squeeze self.old (length output.old)) ×
            (output.new ≡ squeeze_buffer self.old output.old) }
    {
        let elements = output.len();
        if let Err(refusal) = self.check_call(Kind::Squeeze, elements) {
            return self.refuse(refusal);
        }
        let mut sponge = self.sponge();
        let permutations = sponge.squeeze(field::field_of(self.field), output);
        self.move_on(sponge, permutations, elements);
        Ok(())
    }

    // FINISH: ends a session whose pattern is done.
    pub fn finish(&mut self) -> Result<(), Refusal>
        ensures { giving (answer_number result) self.new ≡ finish self.old }
    {
        if let Err(refusal) = self.check_finish() {
            return self.refuse(refusal);
        }
        *self = Session::wiped();
        Ok(())
    }

    // A call that is turned away: 9 and 11 wipe the record, and other numbers leave it.
    fn refuse(&mut self, refusal: Refusal) -> Result<(), Refusal>
        ensures { giving (answer_number result) self.new ≡ refused_with (number_of refusal) self.old }
    {
        if let Refusal::PatternNotDone | Refusal::CallNotInPattern = refusal {
            *self = Session::wiped();
        }
        Err(refusal)
    }

    // The place in the pattern.
    fn place(&self) -> Place
        ensures { (result.phase ≡ self.now.phase) × (result.done ≡ self.now.done) }
    {
        Place {
            phase: self.phase,
            done: self.done,
        }
    }

    // The state and its positions.
    fn sponge(&self) -> SpongeState
        ensures { counted result 0 ≡ sponge self.now.state self.now.absorb_position self.now.squeeze_position 0 }
    {
        SpongeState {
            state: self.state,
            absorb_position: self.absorb_position,
            squeeze_position: self.squeeze_position,
        }
    }

    // Whether the record is sound.
    fn is_sound(&self) -> bool
        ensures { result ≡ sound self.now }
    {
        let Ok(field) = Field::try_from(self.field) else {
            return false;
        };
        if !tag::is_form(self.form) {
            return false;
        }
        if !sound_words::places_sound(&self.words, self.count) {
            return false;
        }
        let place = self.place();
        if !place.is_sound(&self.words, self.count) {
            return false;
        }
        if !field::is_reduced(field, &self.state) {
            return false;
        }
        if self.permutations != counters::permutations::permutations_at(&self.words, place) {
            return false;
        }
        let positions = counters::positions::positions_at(&self.words, place);
        self.absorb_position == positions.absorb && self.squeeze_position == positions.squeeze
    }

    // The rows about the record: open, and sound.
    fn check_record(&self) -> Result<(), Refusal>
        ensures { answer_number result ≡ first_number (record_rows self.now) }
    {
        if self.status != OPEN {
            return Err(Refusal::RecordNotOpen);
        }
        if !self.is_sound() {
            return Err(Refusal::RecordNotSound);
        }
        Ok(())
    }

    // The rows of a call of so many elements of a kind, which ABSORB and SQUEEZE share.
    fn check_call(&self, kind: Kind, elements: usize) -> Result<(), Refusal>
        ensures { answer_number result ≡ first_number (call_rows (absorbs kind) elements self.now) }
    {
        self.check_record()?;
        if elements == 0 {
            return Ok(());
        }
        let place = self.place();
        if !place.in_pattern(&self.words, self.count, kind, elements) {
            return Err(Refusal::CallNotInPattern);
        }
        Ok(())
    }

    // The rows of ABSORB.
    fn check_absorb(&self, input: &[u32]) -> Result<(), Refusal>
        ensures { answer_number result ≡ first_number (absorb_rows self.now input.now) }
    {
        self.check_call(Kind::Absorb, input.len())?;
        if !field::is_reduced(field::field_of(self.field), input) {
            return Err(Refusal::ElementNotReduced);
        }
        Ok(())
    }

    // The rows of FINISH.
    fn check_finish(&self) -> Result<(), Refusal>
        ensures { answer_number result ≡ first_number (finish_rows self.now) }
    {
        self.check_record()?;
        if self.phase != self.count {
            return Err(Refusal::PatternNotDone);
        }
        Ok(())
    }

    // Moves on by so many elements of the phase, to what a call made of the sponge.
    fn move_on(&mut self, sponge: SpongeState, permutations: u64, elements: usize)
        requires { self.old.permutations + permutations < 2 ^ 64 }
        ensures { self.new ≡ moved_on self.old (counted sponge permutations) elements }
    {
        let place = self.place().after(&self.words, self.count, elements);
        let state = sponge.state;
        self.state = state;
        self.absorb_position = sponge.absorb_position;
        self.squeeze_position = sponge.squeeze_position;
        self.permutations += permutations;
        self.phase = place.phase;
        self.done = place.done;
    }
}
