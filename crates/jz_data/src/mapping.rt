//! Lists that a function makes of lists, item by item; the first failure ends it.

ghost use Rattle.std.specs.Prelude.{IfOk, IfErr};
ghost use Rattle.std.specs.Fn.{FnReturnsAt};
ghost use Rattle.jz_data.specs.Maps.{Maps, IsImage, IsFailure, Gives};

use crate::seq::Seq;
use std::alloc::{AllocError, Global};

/// What `f` makes of each item of a slice. A failure is that of the first item that has one, or
/// want of memory.
pub fn try_map_slice<T, U: Drop, E: From<AllocError>, F: Fn(&T) -> Result<U, E>>(
    alloc: Global,
    items: &[T],
    f: F,
) -> Result<Seq<U>, E>
    requires { F.IsAlwaysCallable f }
    ensures each { IfOk result (Maps (FnReturnsAt F.Fn f) items.now) }
    ensures image { IsImage (FnReturnsAt F.Fn f) items.now result }
    ensures err { IfErr result (IsFailure E.from_gives (FnReturnsAt F.Fn f) items.now) }
{
    let mut out = Seq::new(alloc);
    for item in items {
        let made = f(item)?;
        out.push(made)?;
    }
    Ok(out)
}

impl<T> Seq<T> {
    /// What `f` makes of each item. A failure is that of the first item that has one, or want of
    /// memory.
    pub fn try_map<U: Drop, E: From<AllocError>, F: Fn(&T) -> Result<U, E>>(
        &self,
        alloc: Global,
        f: F,
    ) -> Result<Seq<U>, E>
        requires { F.IsAlwaysCallable f }
        ensures each { IfOk result (Maps (FnReturnsAt F.Fn f) self.now) }
        ensures image { IsImage (FnReturnsAt F.Fn f) self.now result }
        ensures err { IfErr result (IsFailure E.from_gives (FnReturnsAt F.Fn f) self.now) }
    {
        try_map_slice(alloc, self.as_slice(), f)
    }

    /// The same by value.
    pub fn into_try_map<U: Drop, E: From<AllocError>, F: Fn(T) -> Result<U, E>>(
        self,
        alloc: Global,
        f: F,
    ) -> Result<Seq<U>, E>
    where
        T: Drop,
        requires { F.IsAlwaysCallable f }
        ensures each { IfOk result (Maps (Gives F.Fn f) self) }
        ensures image { IsImage (Gives F.Fn f) self result }
        ensures err { IfErr result (IsFailure E.from_gives (Gives F.Fn f) self) }
    {
        let mut out = Seq::new(alloc);
        for item in self.into_vec() {
            let made = f(item)?;
            out.push(made)?;
        }
        Ok(out)
    }
}
