// The words that name the files of the hosts.
ghost use Rattle.std.specs.Prelude.{◌≡◌, [], ◌∷◌, ℕ, List, true, false, map, IfSome, IfNone, string_bytes};
ghost use Rattle.engine.specs.Words.{AreFiles, IsPair, IsRunOver};

use crate::words::geometry;

/// The words FROM and TO of a form of words that runs a script over files; `None` for every other list of words.
pub fn files(words: &[String]) -> Option<(&str, &str)>
    ensures form { IfSome result (λ f. (blocks : ℕ) × (shelf : ℕ)
        × IsRunOver (map string_bytes words.now) blocks shelf f.0.now f.1.now) }
    ensures none { IfNone result ((blocks shelf : ℕ) (from to : List ℕ)
        → IsRunOver (map string_bytes words.now) blocks shelf from to → ⊥) }
{
    match geometry(words) {
        Some(_) => last_two(&words[4..]),
        None => None,
    }
}

/// Whether these are words that may stand behind the sizes.
pub(crate) fn are_files(words: &[String]) -> bool
    ensures yes { result ≡ true → AreFiles (map string_bytes words.now) }
    ensures no { result ≡ false → AreFiles (map string_bytes words.now) → ⊥ }
{
    if words.is_empty() {
        return true;
    }
    match last_two(words) {
        Some((from, to)) => is_pair(from, to),
        None => false,
    }
}

/// Whether these two words name two files.
fn is_pair(from: &str, to: &str) -> bool
    ensures yes { result ≡ true → IsPair from.now to.now }
    ensures no { result ≡ false → IsPair from.now to.now → ⊥ }
{
    if from.is_empty() {
        return false;
    }
    if to.is_empty() {
        return false;
    }
    from != to
}

/// The two words of a list of two; `None` of every other list.
fn last_two(words: &[String]) -> Option<(&str, &str)>
    ensures form { IfSome result (λ f. map string_bytes words.now ≡ f.0.now ∷ f.1.now ∷ []) }
    ensures none { IfNone result ((from to : List ℕ) → map string_bytes words.now ≡ from ∷ to ∷ [] → ⊥) }
{
    match words {
        [from, to] => Some((from.as_str(), to.as_str())),
        _ => None,
    }
}
