//! Sets of names that grow as statements are walked, and are cut back where a way ends.

ghost use Rattle.std.specs.Prelude.{◌≡◌, ◌≤◌, IfOk, OnOk, length, take, filter};
ghost use Rattle.jz_type_storage.specs.InnerWalks.{members, Adds, Puts, AddsAll, Joins};

use indexmap::IndexSet;
use jz_tree::Text;
use std::alloc::{AllocError, Global};

/// Whether the set has a name.
#[tactic(auto, unfolding(crate::specs::InnerWalks::members))]
pub(crate) fn has(set: &IndexSet<Text>, name: &Text) -> bool
    ensures { result ≡ members set.now.keys name.now }
{
    set.contains(name)
}

/// Adds a name.
fn add(set: &mut IndexSet<Text>, name: Text) -> Result<(), AllocError>
    ensures { OnOk result (Adds set.old.keys name set.new.keys) }
{
    set.insert(name)?;
    Ok(())
}

/// Adds a name that is asked.
pub(crate) fn put(
    asked: &IndexSet<Text>,
    set: &mut IndexSet<Text>,
    name: &Text,
) -> Result<(), AllocError>
    ensures { OnOk result (Puts (members asked.now.keys) set.old.keys name.now set.new.keys) }
{
    if has(asked, name) {
        add(set, name.clone()?)?;
    }
    Ok(())
}

/// The names that are in the set too.
fn shared(alloc: Global, names: &[Text], set: &IndexSet<Text>) -> Result<Vec<Text>, AllocError>
    ensures { IfOk result (λ r. r.items ≡ filter (members set.now.keys) names.now) }
{
    let mut kept = Vec::new(alloc);
    for name in names {
        if has(set, name) {
            kept.push(name.clone()?)?;
        }
    }
    Ok(kept)
}

pub(crate) fn add_all(set: &mut IndexSet<Text>, names: &[Text]) -> Result<(), AllocError>
    ensures { OnOk result (AddsAll set.old.keys names.now set.new.keys) }
{
    for name in names {
        add(set, name.clone()?)?;
    }
    Ok(())
}

/// Cuts the set back to its first names, and adds of `names` those that it had.
pub(crate) fn join(
    alloc: Global,
    set: &mut IndexSet<Text>,
    start: usize,
    names: &IndexSet<Text>,
) -> Result<(), AllocError>
    requires { start ≤ length set.old.keys }
    ensures { let first = take start set.old.keys in
        OnOk result (Joins first names.now.keys set.old.keys set.new.keys) }
{
    let kept = shared(alloc, names.as_slice(), set)?;
    set.truncate(start);
    add_all(set, kept.as_slice())?;
    Ok(())
}
