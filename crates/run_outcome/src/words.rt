//! Words of a line.
ghost use Rattle.std.specs.Prelude.{◌≡◌, ◌≢◌, ◌++◌, List, ℕ, MatchOption};

/// What stands behind a word that a text begins with; none where it begins otherwise.
pub fn after_word<'a>(text: &'a [u8], word: &[u8]) -> Option<&'a [u8]>
    ensures cases { MatchOption result ((rest : List ℕ) → text.now ≢ word.now ++ rest) (λ rest.
        text.now ≡ word.now ++ rest.now) }
{
    text.strip_prefix(word)
}
