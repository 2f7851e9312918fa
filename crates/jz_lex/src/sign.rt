//! Casts and signs.

ghost use Rattle.std.specs.Prelude.{◌≡◌, length, option_map, true, false};
ghost use Rattle.jz_lex.specs.LexingWords.{casts, signs, suffixed_signs};
ghost use Rattle.jz_lex.specs.InnerFront.{first_of, sign_of};

use super::table::first_length;

/// The longer ones stand first in each table.
const CASTS: [&str; 8] = ["16u", "32u", "64u", "16s", "32s", "64s", "8u", "8s"];

const SIGNS: [&str; 46] = [
    ">>s=", "<<r=", ">>r=", "<<=", ">>=", "/s=", "%s=", "+=", "-=", "*=", "/=", "%=", "&=", "|=",
    "^=", "->", "==", "!=", "<=", ">=", "<<", ">>", "&&", "||", "(", ")", "{", "}", "[", "]", ",",
    ";", ":", "#", "=", "+", "-", "*", "/", "%", "&", "|", "^", "<", ">", "!",
];

/// The signs that end with a letter, which no byte of a name follows.
const SUFFIXED_SIGNS: [&str; 9] = [">>s", "<<r", ">>r", "<=s", ">=s", "<s", ">s", "/s", "%s"];

/// How long the cast is at the front of a text.
#[tactic(auto, unfolding(crate::specs::LexingWords::casts))]
pub(super) fn cast_length(text: &[u8]) -> Option<usize>
    ensures { result ≡ option_map (λ w. length w) (first_of false casts text.now) }
{
    first_length(false, &CASTS, text)
}

#[tactic(auto, unfolding(crate::specs::LexingWords::signs))]
fn plain_length(text: &[u8]) -> Option<usize>
    ensures { result ≡ option_map (λ w. length w) (first_of false signs text.now) }
{
    first_length(false, &SIGNS, text)
}

#[tactic(auto, unfolding(crate::specs::LexingWords::suffixed_signs))]
fn suffixed_length(text: &[u8]) -> Option<usize>
    ensures { result ≡ option_map (λ w. length w) (first_of true suffixed_signs text.now) }
{
    first_length(true, &SUFFIXED_SIGNS, text)
}

/// How long the longest sign is at the front of a text.
pub(super) fn sign_length(text: &[u8]) -> Option<usize>
    ensures { result ≡ option_map (λ w. length w) (sign_of text.now) }
{
    match (plain_length(text), suffixed_length(text)) {
        (Some(plain), Some(suffixed)) if plain < suffixed => Some(suffixed),
        (Some(plain), _) => Some(plain),
        (None, suffixed) => suffixed,
    }
}
