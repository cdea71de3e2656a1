// Numbers of several bytes.
ghost use Rattle.std.specs.Prelude.{◌≡◌, [], ◌∷◌};
ghost use Rattle.basics.specs.Digits.{number};

// The number of four bytes, highest byte first.
pub fn big_endian(b0: u8, b1: u8, b2: u8, b3: u8) -> u32
    ensures { result ≡ number 256 (b0 ∷ b1 ∷ b2 ∷ b3 ∷ []) }
{
    u32::from_be_bytes([b0, b1, b2, b3])
}
