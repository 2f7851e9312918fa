//! Places in a text, and the earlier of two.

ghost use Rattle.std.specs.Prelude.{◌≡◌, Option, Some};
ghost use Rattle.jz_tree.specs.Span.{Span};
ghost use Rattle.jz_type_names.specs.Order.{is_before, unless, earlier, earliest};

use jz_tree::Span;

/// Whether a stands before b in the text.
pub fn is_before(a: Span, b: Span) -> bool
    ensures { result ≡ is_before a b }
{
    a.line < b.line || a.line == b.line && a.col < b.col
}

/// The place, unless the test is passed.
pub fn unless(fine: bool, at: Span) -> Option<Span>
    ensures { result ≡ earliest (unless fine at) }
{
    if fine { None } else { Some(at) }
}

/// The earlier of two places, if there is one.
#[tactic(auto, using(crate::proofs::Earliest::earlier_laws))]
pub fn earlier_of(a: Option<Span>, b: Option<Span>) -> Option<Span>
    ensures is { result ≡ earlier a b }
    ensures before { (rest : Option Span) → earlier result rest ≡ earlier a (earlier b rest) }
{
    match a {
        None => b,
        Some(f) => match b {
            None => a,
            Some(g) => if is_before(g, f) { Some(g) } else { Some(f) },
        },
    }
}

/// The place, or one that is earlier.
pub fn sooner(first: Option<Span>, at: Span) -> Span
    ensures { Some result ≡ earlier first (Some at) }
{
    match first {
        None => at,
        Some(there) => if is_before(at, there) { at } else { there },
    }
}
