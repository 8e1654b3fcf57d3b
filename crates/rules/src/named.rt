//! Values that are written by a word.
ghost use Rattle.std.specs.Prelude.{◌≡◌, ℕ, List, Some};
ghost use Rattle.std.specs.Str.{bytes_eq};
ghost use Rattle.rules.specs.Names.{first_named};

/// A type whose values are written by words.
pub trait Spelled: Copy {
    /// The word of a value.
    ghost spelling: { Self → List ℕ };

    /// The word of the value, as scripts and reports have it.
    fn text(self) -> &'static str
        ensures { result.now ≡ spelling self };

    /// Whether a word is the word of the value.
    fn is_named(self, word: &[u8]) -> bool
        ensures { result ≡ bytes_eq word.now (spelling self) }
    {
        word == self.text().as_bytes()
    }
}

/// A type whose values can be found by their words.
pub trait Named: Spelled + 'static {
    /// Its values, in the order in which they are searched.
    ghost values: { List Self };

    /// Its values, in the order in which they are searched.
    fn all() -> &'static [Self]
        ensures { result.now ≡ values };

    /// The word of each value names that value.
    ghost read_back: { (value : Self) → first_named Self.spelling values (Self.spelling value) ≡ Some value };

    /// The value that a word names, if it names one.
    final fn named(word: &[u8]) -> Option<Self>
        ensures { result ≡ first_named Self.spelling values word.now }
    {
        Self::all().iter().copied().find(|v| v.is_named(word))
    }
}
