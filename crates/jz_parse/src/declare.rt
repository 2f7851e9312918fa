//! Reads declarations: parameters, result types and variables.

ghost use Rattle.std.specs.Prelude.{◌≡◌, IfOk};
ghost use Rattle.jz_grammar.specs.Kinds.{has};
ghost use Rattle.jz_grammar.specs.Gave.{Gave};
ghost use Rattle.jz_parse.specs.Trees.{declared_of, declared_all, param_of, params_all};
ghost use Rattle.jz_parse.specs.InnerReaders.{storages, storage, word_or_array, value_type, declaration, names_more, name_list, group, next_group, groups_more, groups, group_starts, params, rtype, next_rtype, rtypes_more, arrow_types, results, next_name, next_starts, declared_more, declared_names, decl};

use crate::notes;
use jz_grammar::{Cursor, Stop};
use jz_parse_expr::index;
use jz_tree::{Boxed, Decl, Note, Param, Ret, Seq, Span, Storage, Text, Ty, Var, copy_notes};
use std::alloc::{AllocError, Global};

/// A name and its place.
type Name = (Text, Span);

#[tactic(auto, unfolding(crate::specs::InnerReaders::storage))]
fn storage(c: &mut Cursor) -> Result<Storage, Stop>
    ensures { Gave result c.new (storage c.old) }
{
    if c.is_word("reg") {
        let _reg = c.word("reg")?;
        return Ok(Storage::Reg);
    }
    if c.is_word("stack") {
        let _stack = c.word("stack")?;
        return Ok(Storage::Stack);
    }
    let _inline = c.word("inline")?;
    Ok(Storage::Inline)
}

/// Whether a storage stands there.
#[tactic(auto, using(crate::proofs::Lists::begins_storage))]
pub fn begins_storage(c: &Cursor) -> bool
    ensures { result ≡ has storages c.now }
{
    c.is_word("reg") || c.is_word("stack") || c.is_word("inline")
}

#[tactic(auto, unfolding(crate::specs::InnerReaders::word_or_array))]
fn word_or_array(alloc: Global, c: &mut Cursor, depth: u32) -> Result<Ty, Stop>
    ensures { Gave result c.new (word_or_array depth c.old) }
{
    let size = c.word_type()?;
    if c.is_sign("[") {
        let count = index(alloc, c, depth)?;
        return Ok(Ty::Array(size, Boxed::new(alloc, count)?));
    }
    Ok(Ty::Word(size))
}

#[tactic(auto, unfolding(crate::specs::InnerReaders::value_type))]
fn value_type(alloc: Global, c: &mut Cursor, depth: u32) -> Result<Ty, Stop>
    ensures { Gave result c.new (value_type depth c.old) }
{
    if c.is_word("int") {
        let _int = c.word("int")?;
        return Ok(Ty::Int);
    }
    if c.is_word("bool") {
        let _bool = c.word("bool")?;
        return Ok(Ty::Bool);
    }
    let ty = word_or_array(alloc, c, depth)?;
    Ok(ty)
}

#[tactic(auto, unfolding(crate::specs::InnerReaders::declaration))]
fn declaration(alloc: Global, c: &mut Cursor, depth: u32) -> Result<Decl, Stop>
    ensures { Gave result c.new (declaration depth c.old) }
{
    let storage = storage(c)?;
    let ty = value_type(alloc, c, depth)?;
    Ok(Decl { storage, ty })
}

#[tactic(auto, using(crate::proofs::Lists::names_done, crate::proofs::Lists::names_next, crate::proofs::Lists::names_wrong, crate::proofs::Lists::names_shorter))]
fn names_more(alloc: Global, c: &mut Cursor, first: Seq<Name>) -> Result<Seq<Name>, Stop>
    ensures { Gave result c.new (names_more first c.old) }
{
    let mut out = first;
    while c.is_identifier() {
        let next = c.name(alloc)?;
        out.push(next)?;
    }
    Ok(out)
}

/// One name and more.
#[tactic(auto, unfolding(crate::specs::InnerReaders::name_list))]
fn name_list(alloc: Global, c: &mut Cursor) -> Result<Seq<Name>, Stop>
    ensures { Gave result c.new (name_list c.old) }
{
    let first = c.name(alloc)?;
    let mut out = Seq::new(alloc);
    out.push(first)?;
    names_more(alloc, c, out)
}

/// A variable of this declaration.
fn declared(alloc: Global, decl: &Decl, name: Name) -> Result<Var, AllocError>
    ensures { IfOk result (λ var. var ≡ declared_of decl.now name) }
{
    let (name, span) = name;
    Ok(Var {
        name,
        copy: 0,
        cell: None,
        decl: Some(decl.copy(alloc)?),
        span,
    })
}

/// A parameter of this declaration.
fn param_of(alloc: Global, notes: &Seq<Note>, decl: &Decl, name: Name) -> Result<Param, AllocError>
    ensures { IfOk result (λ param. param ≡ param_of notes.now decl.now name) }
{
    let notes = copy_notes(alloc, notes)?;
    let var = declared(alloc, decl, name)?;
    Ok(Param { notes, var })
}

/// A parameter of each name.
fn params_of(
    alloc: Global,
    notes: &Seq<Note>,
    decl: &Decl,
    names: Seq<Name>,
) -> Result<Seq<Param>, AllocError>
    ensures { IfOk result (λ params. params ≡ params_all notes.now decl.now names) }
{
    names.into_try_map(alloc, |name| param_of(alloc, notes, decl, name))
}

/// A variable of each name.
fn vars_of(alloc: Global, decl: &Decl, names: Seq<Name>) -> Result<Seq<Var>, AllocError>
    ensures { IfOk result (λ vars. vars ≡ declared_all decl.now names) }
{
    names.into_try_map(alloc, |name| declared(alloc, decl, name))
}

#[tactic(auto, unfolding(crate::specs::InnerReaders::group))]
fn group(alloc: Global, c: &mut Cursor, depth: u32) -> Result<Seq<Param>, Stop>
    ensures { Gave result c.new (group depth c.old) }
{
    let notes = notes(alloc, c, depth)?;
    let decl = declaration(alloc, c, depth)?;
    let names = name_list(alloc, c)?;
    let params = params_of(alloc, &notes, &decl, names)?;
    Ok(params)
}

#[tactic(auto, unfolding(crate::specs::InnerReaders::next_group))]
fn next_group(alloc: Global, c: &mut Cursor, depth: u32) -> Result<Seq<Param>, Stop>
    ensures { Gave result c.new (next_group depth c.old) }
{
    let _comma = c.sign(",")?;
    let params = group(alloc, c, depth)?;
    Ok(params)
}

#[tactic(auto, using(crate::proofs::Lists::groups_done, crate::proofs::Lists::groups_next, crate::proofs::Lists::groups_wrong, crate::proofs::Lists::groups_shorter))]
fn groups_more(
    alloc: Global,
    c: &mut Cursor,
    depth: u32,
    first: Seq<Param>,
) -> Result<Seq<Param>, Stop>
    ensures { Gave result c.new (groups_more depth first c.old) }
{
    let mut out = first;
    while c.is_sign(",") {
        let next = next_group(alloc, c, depth)?;
        out.append(next)?;
    }
    Ok(out)
}

#[tactic(auto, unfolding(crate::specs::InnerReaders::groups))]
fn groups(alloc: Global, c: &mut Cursor, depth: u32) -> Result<Seq<Param>, Stop>
    ensures { Gave result c.new (groups depth c.old) }
{
    let first = group(alloc, c, depth)?;
    groups_more(alloc, c, depth, first)
}

/// Whether a group of parameters stands there.
#[tactic(auto, using(crate::proofs::Lists::begins_group))]
fn begins_group(c: &Cursor) -> bool
    ensures { result ≡ has group_starts c.now }
{
    c.is_sign("#") || begins_storage(c)
}

/// The parameters and their parentheses.
#[tactic(auto, unfolding(crate::specs::InnerReaders::params))]
pub fn params(alloc: Global, c: &mut Cursor, depth: u32) -> Result<Seq<Param>, Stop>
    ensures { Gave result c.new (params depth c.old) }
{
    let (_open, inner) = c.open("(", depth)?;
    let out = if begins_group(c) {
        groups(alloc, c, inner)?
    } else {
        Seq::new(alloc)
    };
    let _close = c.sign(")")?;
    Ok(out)
}

#[tactic(auto, unfolding(crate::specs::InnerReaders::rtype))]
fn rtype(alloc: Global, c: &mut Cursor, depth: u32) -> Result<Ret, Stop>
    ensures { Gave result c.new (rtype depth c.old) }
{
    let notes = notes(alloc, c, depth)?;
    let decl = declaration(alloc, c, depth)?;
    Ok(Ret { notes, decl })
}

#[tactic(auto, unfolding(crate::specs::InnerReaders::next_rtype))]
fn next_rtype(alloc: Global, c: &mut Cursor, depth: u32) -> Result<Ret, Stop>
    ensures { Gave result c.new (next_rtype depth c.old) }
{
    let _comma = c.sign(",")?;
    let ret = rtype(alloc, c, depth)?;
    Ok(ret)
}

#[tactic(auto, using(crate::proofs::Lists::rtypes_done, crate::proofs::Lists::rtypes_next, crate::proofs::Lists::rtypes_wrong, crate::proofs::Lists::rtypes_shorter))]
fn rtypes_more(alloc: Global, c: &mut Cursor, depth: u32, first: Seq<Ret>) -> Result<Seq<Ret>, Stop>
    ensures { Gave result c.new (rtypes_more depth first c.old) }
{
    let mut out = first;
    while c.is_sign(",") {
        let next = next_rtype(alloc, c, depth)?;
        out.push(next)?;
    }
    Ok(out)
}

/// The result types behind an arrow.
#[tactic(auto, unfolding(crate::specs::InnerReaders::arrow_types))]
fn arrow_types(alloc: Global, c: &mut Cursor, depth: u32) -> Result<Seq<Ret>, Stop>
    ensures { Gave result c.new (arrow_types depth c.old) }
{
    let _arrow = c.sign("->")?;
    let first = rtype(alloc, c, depth)?;
    let mut out = Seq::new(alloc);
    out.push(first)?;
    rtypes_more(alloc, c, depth, out)
}

/// The result types and the arrow before them, or none.
#[tactic(auto, unfolding(crate::specs::InnerReaders::results))]
pub fn results(alloc: Global, c: &mut Cursor, depth: u32) -> Result<Seq<Ret>, Stop>
    ensures { Gave result c.new (results depth c.old) }
{
    if c.is_sign("->") {
        let rets = arrow_types(alloc, c, depth)?;
        return Ok(rets);
    }
    Ok(Seq::new(alloc))
}

#[tactic(auto, unfolding(crate::specs::InnerReaders::next_name))]
fn next_name(alloc: Global, c: &mut Cursor) -> Result<Name, Stop>
    ensures { Gave result c.new (next_name c.old) }
{
    if c.is_sign(",") {
        let _comma = c.sign(",")?;
    }
    let name = c.name(alloc)?;
    Ok(name)
}

#[tactic(auto, using(crate::proofs::Lists::begins_name))]
fn begins_name(c: &Cursor) -> bool
    ensures { result ≡ has next_starts c.now }
{
    c.is_sign(",") || c.is_identifier()
}

#[tactic(auto, using(crate::proofs::Lists::declared_done, crate::proofs::Lists::declared_next, crate::proofs::Lists::declared_wrong, crate::proofs::Lists::declared_shorter))]
fn declared_more(alloc: Global, c: &mut Cursor, first: Seq<Name>) -> Result<Seq<Name>, Stop>
    ensures { Gave result c.new (declared_more first c.old) }
{
    let mut out = first;
    while begins_name(c) {
        let next = next_name(alloc, c)?;
        out.push(next)?;
    }
    Ok(out)
}

/// One name and more, with commas between them or none.
#[tactic(auto, unfolding(crate::specs::InnerReaders::declared_names))]
fn declared_names(alloc: Global, c: &mut Cursor) -> Result<Seq<Name>, Stop>
    ensures { Gave result c.new (declared_names c.old) }
{
    let first = c.name(alloc)?;
    let mut out = Seq::new(alloc);
    out.push(first)?;
    declared_more(alloc, c, out)
}

/// The variables of a declaration.
#[tactic(auto, unfolding(crate::specs::InnerReaders::decl))]
pub fn decl(alloc: Global, c: &mut Cursor, depth: u32) -> Result<Seq<Var>, Stop>
    ensures { Gave result c.new (decl depth c.old) }
{
    let decl = declaration(alloc, c, depth)?;
    let names = declared_names(alloc, c)?;
    let _end = c.sign(";")?;
    let vars = vars_of(alloc, &decl, names)?;
    Ok(vars)
}
