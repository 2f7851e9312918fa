//! What holds of every text and its tokens, apart from how they are found.

ghost use Rattle.std.specs.Prelude.{◌≡◌, ◌==◌, ◌+◌, ℕ, List, [], ◌∷◌, ◌++◌, not, true, count_by};
ghost use Rattle.std.specs.List.{All, suffix_len};
ghost use Rattle.jz_data.specs.Laws.{AtMostOne, NeverBoth};
ghost use Rattle.jz_io.specs.declared.span.Span.{Span};
ghost use Rattle.jz_lex.specs.Lexing.{first_place, after, IsLexed, HasNoToken};
ghost use Rattle.jz_lex.specs.LexingWords.{in_word};
ghost use Rattle.jz_lex.specs.Identifiers.{IsIdentifier, IsSpelled};
ghost use Rattle.jz_lex.specs.declared.token.Token.{Token};
ghost use Rattle.jz_lex.specs.declared.token.TokenKind.TheVariants as kind;

/// A text has at most one list of tokens.
pub fn one_lexing()
    ensures { (text : List ℕ) → AtMostOne (IsLexed text) }
{}

/// A text with tokens has no fault.
pub fn lexed_or_refused()
    ensures { (text : List ℕ) → NeverBoth (IsLexed text) (HasNoToken text) }
{}

/// A text has at most one fault: its first.
pub fn one_fault()
    ensures { (text : List ℕ) → AtMostOne (HasNoToken text) }
{}

/// Among the tokens of a text its end is the last one, and no other.
pub fn end_stands_last()
    ensures { (text : List ℕ) (tokens : List Token) → IsLexed text tokens →
        (before : List Token) × (e : Span)
        × (tokens ≡ before ++ record { kind = kind.End; span = e } ∷ [])
        × All (λ t. t.kind ≡ kind.End → ⊥) before }
{}

/// Each identifier among the tokens of a text is spelled as one.
pub fn identifiers_are_spelled()
    ensures { (text : List ℕ) (tokens : List Token) → IsLexed text tokens → All IsSpelled tokens }
{}

/// Each byte of an identifier is a letter, a digit or an underscore.
pub fn identifiers_have_word_bytes()
    ensures { (word : List ℕ) → IsIdentifier word → All (λ byte. in_word byte ≡ true) word }
{}

/// The place behind bytes of a text: its line is one more than their line feeds, and its column one
/// more than the bytes behind the last of these.
pub fn places_count_line_feeds()
    ensures line { (bytes : List ℕ)
        → (after first_place bytes).line ≡ 1 + count_by (λ b. b == 10) bytes }
    ensures column { (bytes : List ℕ)
        → (after first_place bytes).col ≡ 1 + suffix_len (λ b. not (b == 10)) bytes }
{}
