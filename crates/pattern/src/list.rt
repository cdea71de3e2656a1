// Words in an array that has room for a whole pattern.
ghost use Rattle.std.specs.Prelude.{◌≡◌, ◌≤◌, take};

// Up to 64 words, with unused places 0.
#[derive(Clone, Copy)]
pub struct Words {
    pub words: [u32; 64],
    pub count: usize,
    ghost fits: { count ≤ 64 },
}

impl Words {
    // The words that are used.
    pub fn as_slice(&self) -> &[u32]
        ensures { result.now ≡ take self.now.count self.now.words }
    {
        &self.words[..self.count]
    }
}
