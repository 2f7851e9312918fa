//! Tables of words, and the first of them that stands at the front of a text.

ghost use Rattle.std.specs.Prelude.{◌≡◌, ◌≤◌, IsTrue, length, map, option_map};
ghost use Rattle.jz_lex.specs.LexingWords.{begins, heads, in_word};
ghost use Rattle.jz_lex.specs.InnerFront.{fits, first_of};

use super::bytes::in_word;

pub(super) fn begins(word: &str, text: &[u8]) -> bool
    ensures value { result ≡ begins word.now text.now }
    ensures within { IsTrue result → length word.now ≤ length text.now }
{
    text.starts_with(word.as_bytes())
}

fn goes_on_as_word(text: &[u8]) -> bool
    ensures { result ≡ heads in_word text.now }
{
    match text {
        [] => false,
        [byte, ..] => in_word(*byte),
    }
}

fn fits(apart: bool, word: &str, text: &[u8]) -> bool
    ensures { result ≡ fits apart word.now text.now }
{
    begins(word, text) && !(apart && goes_on_as_word(&text[word.len()..]))
}

/// How long the first of these words is that stands at the front of the text; if they are to stand
/// apart, the text does not go on with a byte of a name behind it.
pub(super) fn first_length(apart: bool, words: &[&str], text: &[u8]) -> Option<usize>
    ensures { result
        ≡ option_map (λ w. length w) (first_of apart (map (λ w. w.now) words.now) text.now) }
{
    for word in words {
        if fits(apart, word, text) {
            return Some(word.len());
        }
    }
    None
}
