//! Values that the four words of a record hold.

/// A value that the four words of a record hold. A program writes the block for a type of its own; the law says that a
/// value comes back as it was.
pub trait Words {
    ghost use Rattle.std.specs.Prelude.{◌≡◌, ℕ, List};

    /// The four words of a value.
    ghost packed: { Self → List ℕ };

    /// The four words of a value.
    fn pack(self) -> [u64; 4]
        ensures { result ≡ packed self };

    /// The value that has these four words.
    fn unpack(words: [u64; 4]) -> Self
        ensures { (value : Self) → packed value ≡ words → result ≡ value };
}

impl Words for u64 {
    ghost use Rattle.std.specs.Prelude.{[], ◌∷◌};

    ghost packed = { λ value. value ∷ 0 ∷ 0 ∷ 0 ∷ [] };

    fn pack(self) -> [u64; 4] {
        [self, 0, 0, 0]
    }

    fn unpack(words: [u64; 4]) -> u64 {
        words[0]
    }
}

impl Words for (u64, u64) {
    ghost use Rattle.std.specs.Prelude.{[], ◌∷◌};

    ghost packed = { λ value. value.0 ∷ value.1 ∷ 0 ∷ 0 ∷ [] };

    fn pack(self) -> [u64; 4] {
        [self.0, self.1, 0, 0]
    }

    fn unpack(words: [u64; 4]) -> (u64, u64) {
        (words[0], words[1])
    }
}

impl Words for (u64, u64, u64) {
    ghost use Rattle.std.specs.Prelude.{[], ◌∷◌};

    ghost packed = { λ value. value.0 ∷ value.1 ∷ value.2 ∷ 0 ∷ [] };

    fn pack(self) -> [u64; 4] {
        [self.0, self.1, self.2, 0]
    }

    fn unpack(words: [u64; 4]) -> (u64, u64, u64) {
        (words[0], words[1], words[2])
    }
}

impl Words for (u64, u64, u64, u64) {
    ghost use Rattle.std.specs.Prelude.{[], ◌∷◌};

    ghost packed = { λ value. value.0 ∷ value.1 ∷ value.2 ∷ value.3 ∷ [] };

    fn pack(self) -> [u64; 4] {
        [self.0, self.1, self.2, self.3]
    }

    fn unpack(words: [u64; 4]) -> (u64, u64, u64, u64) {
        (words[0], words[1], words[2], words[3])
    }
}

impl Words for [u64; 4] {
    ghost packed = { λ value. value };

    fn pack(self) -> [u64; 4] {
        self
    }

    fn unpack(words: [u64; 4]) -> [u64; 4] {
        words
    }
}

/// A value that one word holds: what a key of a map can have. The law says that a value comes back as it was.
pub trait Word {
    ghost use Rattle.std.specs.Prelude.{◌≡◌, ℕ};

    /// The word of a value.
    ghost packed: { Self → ℕ };

    /// The word of a value.
    fn pack(self) -> u64
        ensures { result ≡ packed self };

    /// The value that has this word.
    fn unpack(word: u64) -> Self
        ensures { (value : Self) → packed value ≡ word → result ≡ value };
}

impl Word for u64 {
    ghost packed = { λ value. value };

    fn pack(self) -> u64 {
        self
    }

    fn unpack(word: u64) -> u64 {
        word
    }
}

impl Word for bool {
    ghost use Rattle.std.specs.Prelude.{if◌then◌else◌};

    ghost packed = { λ value. if value then 1 else 0 };

    fn pack(self) -> u64 {
        self as u64
    }

    fn unpack(word: u64) -> bool {
        word != 0
    }
}
