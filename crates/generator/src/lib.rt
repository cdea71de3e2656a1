// The generator of the round constants (Grain).
#![tactic(auto)]

mod tables;

ghost use Rattle.std.specs.Prelude.{◌≡◌, length, drop};
ghost use Rattle.basics.specs.Lists.{zero_padded};
ghost use Rattle.field.specs.Field.{partial_rounds};
ghost use Rattle.generator.specs.Answers.{generated_answer};
ghost use Rattle.generator.specs.Generator.{first_register, next_bit, shifted, new_bits, found, generation};
ghost use Rattle.generator.specs.Steps.{bits_left, NextOutput, NextCandidate, NextConstant};

use basics::Refusal;
use field::Field;

// How many new bits are dropped at the start.
const DROPPED: usize = 160;

// How many new bits are taken at most, the dropped ones included.
const LIMIT: usize = 262144;

// How many output bits make a candidate.
const CANDIDATE_BITS: u32 = 31;

// The constants of a field, zeros behind them, and how many they are.
#[derive(Clone, Copy)]
pub struct Constants {
    pub constants: [u32; 744],
    pub count: usize,
}

// Where the generator stands: the register, oldest bit first, and how many new bits may still be taken.
#[derive(Drop)]
struct Source {
    register: [u8; 80],
    left: usize,
}

// The exclusive or of the six register bits, as the parity of their sum.
fn next_bit(register: &[u8; 80]) -> u8
    ensures { result ≡ next_bit register.now }
{
    let sum = u32::from(register[62])
        + u32::from(register[51])
        + u32::from(register[38])
        + u32::from(register[23])
        + u32::from(register[13])
        + u32::from(register[0]);
    (sum % 2) as u8
}

impl Source {
    // The source behind the new bits that are dropped, which the limit counts too.
    fn start(register: [u8; 80], limit: usize) -> Source
        ensures { bits_left result ≡ drop 160 (new_bits limit register) }
    {
        let mut source = Source {
            register,
            left: limit.saturating_sub(DROPPED),
        };
        for _ in 0..DROPPED {
            source.shift();
        }
        source
    }

    // Takes the next bit in, and the oldest out. Answers the next bit.
    fn shift(&mut self) -> u8
        ensures bit { result ≡ next_bit self.old.register }
        ensures register { self.new.register ≡ shifted self.old.register }
        ensures left { self.new.left ≡ self.old.left }
    {
        let bit = next_bit(&self.register);
        self.register.rotate_left(1);
        self.register[79] = bit;
        bit
    }

    // Takes new bits in pairs until the first of a pair is 1, or fewer than two are left.
    fn next_output(&mut self) -> Option<u8>
        ensures { NextOutput self.old self.new result }
    {
        while 2 <= self.left {
            self.left -= 2;
            let first = self.shift();
            let second = self.shift();
            if first == 1 {
                return Some(second);
            }
        }
        None
    }

    // The number that the next 31 output bits write, first highest.
    fn next_candidate(&mut self) -> Option<u32>
        ensures { NextCandidate self.old self.new result }
    {
        let mut value: u32 = 0;
        for _ in 0..CANDIDATE_BITS {
            value = value * 2 + u32::from(self.next_output()?);
        }
        Some(value)
    }

    // The next candidate below the modulus.
    fn next_constant(&mut self, modulus: u32) -> Option<u32>
        ensures { NextConstant modulus self.old self.new result }
    {
        while let Some(candidate) = self.next_candidate() {
            if candidate < modulus {
                return Some(candidate);
            }
        }
        None
    }
}

// Runs the generator from a register on, until the list lent is full or the limit of new bits is reached. Answers how many constants were
// found; zeros stand behind them.
pub fn generate_from(register: [u8; 80], modulus: u32, limit: usize, constants: &mut [u32]) -> usize
    ensures { (result ≡ length (found register modulus (length constants.old) limit)) ×
        (constants.new ≡ zero_padded (length constants.old) (found register modulus (length constants.old) limit)) }
{
    let mut source = Source::start(register, limit);
    let mut count = 0;
    for place in constants.iter_mut() {
        *place = match source.next_constant(modulus) {
            Some(constant) => {
                count += 1;
                constant
            }
            None => 0,
        };
    }
    count
}

// The register at its start, for the partial rounds of a field.
pub fn first_register(field: Field) -> [u8; 80]
    ensures { result ≡ first_register (partial_rounds field) }
{
    match field {
        Field::BabyBear => tables::BABY_BEAR_REGISTER,
        Field::KoalaBear => tables::KOALA_BEAR_REGISTER,
    }
}

// The round constants of the field that a number names, 24 to a round.
pub fn generate(field: u32) -> Result<Constants, Refusal>
    ensures { generated_answer result ≡ generation field }
{
    let field = Field::try_from(field)?;
    let wanted = 24 * (4 + field::partial_rounds(field) + 4);
    let mut constants = [0; 744];
    let count = generate_from(
        first_register(field),
        field::modulus(field),
        LIMIT,
        &mut constants[..wanted],
    );
    Ok(Constants { constants, count })
}
