//! How far comments and strings go.

ghost use Rattle.std.specs.Prelude.{◌≡◌, ◌≤◌, ◌+◌, IfSome, length};
ghost use Rattle.std.specs.List.{take_while};
ghost use Rattle.jz_lex.specs.Lexing.{in_line};
ghost use Rattle.jz_lex.specs.InnerFront.{before_end};

use super::table::begins;

/// How many bytes stand before the end of the line.
pub(super) fn line_length(text: &[u8]) -> usize
    ensures { result ≡ length (take_while in_line text.now) }
{
    text.iter().take_while(|byte| **byte != b'\n').count()
}

/// How many bytes stand before the first end of a comment between signs.
#[tactic(auto, using(crate::proofs::Comments::end_none))]
pub(super) fn before_end(text: &[u8]) -> Option<usize>
    ensures value { result ≡ before_end text.now }
    ensures within { IfSome result (λ n. n + 2 ≤ length text.now) }
{
    for at in 0..text.len() {
        if begins("*/", &text[at..]) {
            return Some(at);
        }
    }
    None
}
