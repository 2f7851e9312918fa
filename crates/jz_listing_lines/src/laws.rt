//! What holds of every line.

ghost use Rattle.std.specs.Prelude.{◌≡◌};
ghost use Rattle.jz_listing_lines.specs.declared.line.Line.{Line as Said};
ghost use Rattle.jz_listing_lines.specs.Lines.{IsLine, line_text};

/// Lines of one text say the same.
pub fn one_line()
    ensures { (l m : Said) → IsLine l → IsLine m → line_text l ≡ line_text m → l ≡ m }
{}
