// The sponge, element by element: SAFE's state, with an absorb and a squeeze position from 0 to 8.
#![tactic(auto)]

mod permute;

ghost use Rattle.std.specs.Prelude.{◌≡◌, length};
ghost use Rattle.poseidon.specs.Permutation.{parameters};
ghost use Rattle.sponge.specs.Sponge.{absorb_element, absorb_elements, squeezed_element, squeeze_element, squeeze_elements, squeezed_elements};
ghost use Rattle.sponge.specs.Counted.{counted};
ghost use Rattle.sponge.specs.Steps.{permutations_for, state_for};

use field::Field;
use permute::{Lent, Permute};

// How many outer elements the state has. Positions are 32-bit numbers, as in a session's record.
const RATE: u32 = 8;

// The most elements for which tables are made where a permutation is.
const FEW: usize = 8;

// What SAFE keeps: the state and both positions. Calls give how many permutations they take.
#[derive(Clone, Copy)]
pub struct SpongeState {
    pub state: [u32; 24],
    pub absorb_position: u32,
    pub squeeze_position: u32,
}

// Permutes the state where a position is RATE. Gives how many permutations that is.
fn permute_if_full<P: Permute>(by: &P, state: &mut [u32; 24], position: u32) -> u64
    ensures { (result ≡ permutations_for position) × (state.new ≡ state_for (parameters (P.field_of by.now)) position state.old) }
{
    if position != RATE {
        return 0;
    }
    *state = by.permute(*state);
    1
}

impl SpongeState {
    // Absorbs an element. Gives how many permutations that takes.
    fn absorb_element<P: Permute>(&mut self, by: &P, element: u32) -> u64
        ensures { counted self.new result ≡ absorb_element (parameters (P.field_of by.now)) (counted self.old 0) element }
    {
        let permutations = permute_if_full(by, &mut self.state, self.absorb_position);
        let at = self.absorb_position % RATE;
        let place = at as usize;
        self.state[place] = field::add(by.field(), self.state[place], element);
        self.absorb_position = at + 1;
        self.squeeze_position = RATE;
        permutations
    }

    // Absorbs elements one after the other.
    fn absorb_by<P: Permute>(&mut self, by: &P, input: &[u32]) -> u64
        ensures { counted self.new result ≡ absorb_elements (parameters (P.field_of by.now)) (counted self.old 0) input.now }
    {
        let mut permutations = 0;
        for element in input {
            permutations += self.absorb_element(by, *element);
        }
        permutations
    }

    // Absorbs any number of elements, with tables made once and lent to every permutation. It is public, and so not compiled into `absorb`, which would
    // otherwise make room for the tables in every call.
    pub fn absorb_many(&mut self, field: Field, input: &[u32]) -> u64
        ensures { counted self.new result ≡ absorb_elements (parameters field) (counted self.old 0) input.now }
    {
        match field {
            Field::BabyBear => {
                let tables = poseidon::baby_bear();
                self.absorb_by(
                    &Lent {
                        field,
                        tables: &tables,
                    },
                    input,
                )
            }
            Field::KoalaBear => {
                let tables = poseidon::koala_bear();
                self.absorb_by(
                    &Lent {
                        field,
                        tables: &tables,
                    },
                    input,
                )
            }
        }
    }

    // Absorbs elements one after the other. More than eight permute once at least and most often several times.
    pub fn absorb(&mut self, field: Field, input: &[u32]) -> u64
        ensures { counted self.new result ≡ absorb_elements (parameters field) (counted self.old 0) input.now }
    {
        if input.len() <= FEW {
            self.absorb_by(&field, input)
        } else {
            self.absorb_many(field, input)
        }
    }

    // Squeezes an element into a place. Gives how many permutations that takes.
    fn squeeze_element<P: Permute>(&mut self, by: &P, out: &mut u32) -> u64
        ensures { (counted self.new result ≡ squeeze_element (parameters (P.field_of by.now)) (counted self.old 0)) ×
            (out.new ≡ squeezed_element (parameters (P.field_of by.now)) (counted self.old 0)) }
    {
        let permutations = permute_if_full(by, &mut self.state, self.squeeze_position);
        if self.squeeze_position == RATE {
            self.absorb_position = 0;
        }
        let at = self.squeeze_position % RATE;
        *out = self.state[at as usize];
        self.squeeze_position = at + 1;
        permutations
    }

    // Squeezes elements one after the other, until the output is full.
    fn squeeze_by<P: Permute>(&mut self, by: &P, output: &mut [u32]) -> u64
        ensures { (counted self.new result ≡ squeeze_elements (parameters (P.field_of by.now)) (counted self.old 0) (length output.old)) ×
            (output.new ≡ squeezed_elements (parameters (P.field_of by.now)) (counted self.old 0) (length output.old)) }
    {
        let mut permutations = 0;
        for out in output {
            permutations += self.squeeze_element(by, out);
        }
        permutations
    }

    // Squeezes any number of elements, with tables made once and lent to every permutation. It is public, and so not compiled into `squeeze`, which would
    // otherwise make room for the tables in every call.
    pub fn squeeze_many(&mut self, field: Field, output: &mut [u32]) -> u64
        ensures { (counted self.new result ≡ squeeze_elements (parameters field) (counted self.old 0) (length output.old)) ×
            (output.new ≡ squeezed_elements (parameters field) (counted self.old 0) (length output.old)) }
    {
        match field {
            Field::BabyBear => {
                let tables = poseidon::baby_bear();
                self.squeeze_by(
                    &Lent {
                        field,
                        tables: &tables,
                    },
                    output,
                )
            }
            Field::KoalaBear => {
                let tables = poseidon::koala_bear();
                self.squeeze_by(
                    &Lent {
                        field,
                        tables: &tables,
                    },
                    output,
                )
            }
        }
    }

    // Squeezes elements one after the other, until the output is full.
    pub fn squeeze(&mut self, field: Field, output: &mut [u32]) -> u64
        ensures { (counted self.new result ≡ squeeze_elements (parameters field) (counted self.old 0) (length output.old)) ×
            (output.new ≡ squeezed_elements (parameters field) (counted self.old 0) (length output.old)) }
    {
        if output.len() <= FEW {
            self.squeeze_by(&field, output)
        } else {
            self.squeeze_many(field, output)
        }
    }
}
