// What the searches for instructions and for keywords share: the one or two candidates that are left are compared. By `==` on slices a search takes a third
// longer than by `scan::same`: 18 ns a word, in place of 13.
ghost use Rattle.std.specs.Prelude.{◌≡◌, [], ◌∷◌};
ghost use Rattle.instructions.specs.Candidates.{candidate, among};

// What a word means where w is that word.
pub fn only<T: Copy>(w: &[u8], word: &[u8], meaning: T) -> Option<T>
    ensures { result ≡ among w.now (candidate meaning word.now ∷ []) }
{
    if scan::same(w, word) {
        Some(meaning)
    } else {
        None
    }
}

// What a word or another means where w is one of them.
pub fn either<T: Copy>(
    w: &[u8],
    word: &[u8],
    meaning: T,
    other: &[u8],
    other_meaning: T,
) -> Option<T>
    ensures { result ≡ among w.now (candidate meaning word.now ∷ candidate other_meaning other.now ∷ []) }
{
    if scan::same(w, word) {
        return Some(meaning);
    }
    only(w, other, other_meaning)
}
