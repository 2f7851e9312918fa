//! Argument words by the names of their parameters.

ghost use Rattle.std.specs.Prelude.{◌≡◌, map};
ghost use Rattle.jz_type_names.specs.Scopes.{text_of_param};
ghost use Rattle.jz_preconditions.specs.Meeting.{word_named};

use jz_tree::{Param, Text};

/// The word of the first parameter of that name.
pub(crate) fn word_named(params: &[Param], words: &[u64], name: &Text) -> Option<u64>
    ensures { result ≡ word_named (map text_of_param params.now) words.now name.now }
{
    let mut left = params;
    let mut values = words;
    loop {
        let [param, more @ ..] = left else {
            return None;
        };
        let [word, rest @ ..] = values else {
            return None;
        };
        if name == &param.var.name {
            return Some(*word);
        }
        left = more;
        values = rest;
    }
}
