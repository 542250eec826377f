// What the words are to say.
ghost use Rattle.std.specs.Prelude.{◌≡◌, ℕ, ◌<◌, ◌^◌};

/// What a table of words is to say: the entry of each index below its size, and which qualities are reached.
pub trait Truth: Copy + Send + Sync {
    ghost use Rattle.race_core.specs.declared.entry.Entry.{Entry};
    ghost use Rattle.race_core.specs.Codes.{Fits32};

    ghost size: { Self → ℕ };

    // The entry of each index below the size.
    ghost entry: { Self → ℕ → Entry };

    // Which qualities are reached.
    ghost reached: { Self → ℕ → Type 0 };

    /// The number of indices, below 2 ^ 32.
    fn size(&self) -> usize
        ensures { result ≡ size self.now };

    // The laws that each truth proves.
    ghost size_fits: { (t : Self) → size t < 2 ^ 32 };

    ghost entry_fits: { (t : Self) (index : ℕ) → index < size t → Fits32 (entry t index) };

    ghost reached_fits: { (t : Self) (q : ℕ) → reached t q → q < 2 ^ 32 };
}
