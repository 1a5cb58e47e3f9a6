// The words of the command line.
ghost use Rattle.std.specs.Prelude.{◌≡◌, ◌≢◌, ◌*◌, ◌^◌, ◌<◌, ◌≤◌, ℕ, [], true, false, map, length, slice_index_or};
ghost use Rattle.std.specs.Prelude.{IfSome, IfNone, decimal, string_bytes};
ghost use Rattle.engine.specs.Words.{IsCheck, IsRunSerial, IsShow, IsNoForm, HasForm, AreSizes};

use crate::file_words::are_files;
use itoa::Buffer;

/// What the words ask for.
#[derive(Clone, Copy)]
pub(crate) enum Form {
    RunSerial,
    Show,
    Check,
}

/// The form of the words; `None` for every list of words that is none.
pub(crate) fn asked_form(words: &[String]) -> Option<Form>
    ensures form { IfSome result (λ f. HasForm f (map string_bytes words.now)) }
    ensures none { IfNone result (IsNoForm (map string_bytes words.now)) }
{
    if is_show(words) {
        return Some(Form::Show);
    }
    if is_check(words) {
        return Some(Form::Check);
    }
    match geometry(words) {
        Some(_) => Some(Form::RunSerial),
        None => None,
    }
}

fn is_show(words: &[String]) -> bool
    ensures yes { result ≡ true → IsShow (map string_bytes words.now) }
    ensures no { result ≡ false → IsShow (map string_bytes words.now) → ⊥ }
{
    words.len() == 1 && is_word(word(words, 0), "show")
}

fn is_check(words: &[String]) -> bool
    ensures yes { result ≡ true → IsCheck (map string_bytes words.now) }
    ensures no { result ≡ false → IsCheck (map string_bytes words.now) → ⊥ }
{
    words.len() == 1 && is_word(word(words, 0), "check")
}

/// The blocks and the shelf of a form of words that runs a script; `None` for every other list of words.
pub fn geometry(words: &[String]) -> Option<(u32, u32)>
    ensures form { IfSome result (λ g. IsRunSerial (map string_bytes words.now) g.0 g.1) }
    ensures none { IfNone result ((blocks shelf : ℕ) → IsRunSerial (map string_bytes words.now) blocks shelf → ⊥) }
{
    if words.len() < 4 {
        return None;
    }
    if !is_word(word(words, 0), "run") {
        return None;
    }
    if !is_word(word(words, 1), "serial") {
        return None;
    }
    if !are_files(&words[4..]) {
        return None;
    }
    sizes(word(words, 2), word(words, 3))
}

fn word(words: &[String], i: usize) -> &str
    requires { i < length words.now }
    ensures { result.now ≡ slice_index_or (map string_bytes words.now) i [] }
{
    words[i].as_str()
}

fn is_word(word: &str, wanted: &str) -> bool
    ensures yes { result ≡ true → word.now ≡ wanted.now }
    ensures no { result ≡ false → word.now ≢ wanted.now }
{
    word == wanted
}

/// The two numbers, where they are the sizes of a namespace in shelves.
fn sizes(blocks: &str, shelf: &str) -> Option<(u32, u32)>
    ensures fit { IfSome result (λ g. AreSizes blocks.now shelf.now g.0 g.1) }
    ensures none { IfNone result ((b s : ℕ) → AreSizes blocks.now shelf.now b s → ⊥) }
{
    let blocks = number(blocks)?;
    let shelf = number(shelf)?;
    if blocks == 0 || blocks > 131_072 || shelf == 0 || shelf > 65_536 {
        return None;
    }
    let shelves = blocks / shelf;
    if shelves > 64 || shelves * shelf != blocks {
        return None;
    }
    Some((blocks, shelf))
}

/// The number that a word spells in decimal, without leading zeroes.
fn number(word: &str) -> Option<u32>
    ensures spelled { IfSome result (λ n. word.now ≡ decimal n) }
    ensures none { IfNone result ((n : ℕ) → n < 2 ^ 32 → word.now ≢ decimal n) }
{
    let n = word.parse::<u32>().ok()?;
    if Buffer::new().format(n) == word {
        Some(n)
    } else {
        None
    }
}
