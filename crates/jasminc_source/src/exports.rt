//! Export functions by their names.

ghost use Rattle.std.specs.Prelude.{◌≡◌, ◌<◌, None, Some, IfSome, length, slice_get};
ghost use Rattle.jz_type_rows.specs.Exports.{is_exported};
ghost use Rattle.jasminc_source.specs.Exports.{has_name, export_named, IsFoundAt};

use jz_tree::{Fun, FunKind, Seq};

pub fn is_exported(fun: &Fun) -> bool
    ensures { result ≡ is_exported fun.now.kind }
{
    match fun.kind {
        FunKind::Inline => false,
        FunKind::Export => true,
    }
}

fn has_name(fun: &Fun, name: &str) -> bool
    ensures { result ≡ has_name name.now fun.now }
{
    is_exported(fun) && fun.name.as_str() == name
}

/// Where the export function of that name stands among the functions.
pub fn place_of(funs: &Seq<Fun>, name: &str) -> Option<usize>
    ensures found { IfSome result (IsFoundAt name.now funs.now) }
    ensures none { result ≡ None → export_named name.now funs.now ≡ None }
{
    for (i, fun) in funs.as_slice().iter().enumerate() {
        if has_name(fun, name) {
            return Some(i);
        }
    }
    None
}

/// The function at a place.
pub fn function_at(funs: &Seq<Fun>, place: usize) -> &Fun
    requires { place < length funs.now }
    ensures { slice_get funs.now place ≡ Some result.now }
{
    &funs.as_slice()[place]
}
