//! How far a string goes.

ghost use Rattle.std.specs.Prelude.{◌≡◌, ◌≤◌, ◌<◌, ◌==◌, IsTrue, IfSome, length};
ghost use Rattle.std.specs.List.{take_while};
ghost use Rattle.jz_lex.specs.LexingWords.{heads, in_string};
ghost use Rattle.jz_lex.specs.InnerFront.{string_length};

#[tactic(auto, unfolding(crate::specs::LexingWords::in_string))]
fn in_string(byte: u8) -> bool
    ensures { result ≡ in_string byte }
{
    byte != b'"' && byte != b'\n'
}

fn written_length(text: &[u8]) -> usize
    ensures { result ≡ length (take_while in_string text.now) }
{
    text.iter().take_while(|byte| in_string(**byte)).count()
}

fn begins_with_quote(text: &[u8]) -> bool
    ensures value { result ≡ heads (λ b. b == 34) text.now }
    ensures within { IsTrue result → 0 < length text.now }
{
    match text {
        [] => false,
        [byte, ..] => *byte == b'"',
    }
}

/// How long the string is whose quote stands before this text, without that quote; none if its line
/// does not close it.
#[tactic(auto, using(crate::proofs::LexingWords::run_within), unfolding(crate::specs::InnerFront::string_length))]
pub(super) fn string_length(text: &[u8]) -> Option<usize>
    ensures value { result ≡ string_length text.now }
    ensures within { IfSome result (λ n. n ≤ length text.now) }
{
    let length = written_length(text);
    let (_written, more) = text.split_at(length);
    if begins_with_quote(more) {
        Some(length + 1)
    } else {
        None
    }
}
