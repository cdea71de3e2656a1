// Words read from bytes: four each, highest byte first.
ghost use Rattle.std.specs.Prelude.{◌≡◌, ◌/◌, ◌≤◌, length};
ghost use Rattle.basics.specs.Lists.{zero_padded};
ghost use Rattle.tag.specs.TagString.{words_of};

// The words of a string of at most 64 words, and zeros behind them.
pub(crate) fn words_of(string: &[u8]) -> [u32; 64]
    requires { length string.now / 4 ≤ 64 }
    ensures { result ≡ zero_padded 64 (words_of string.now) }
{
    let mut words = [0u32; 64];
    let (chunks, _) = string.as_chunks::<4>();
    for (k, bytes) in chunks.iter().enumerate() {
        words[k] = u32::from_be_bytes(*bytes);
    }
    words
}
