//! What the needs of each variable leave it.

ghost use Rattle.std.specs.Prelude.{◌≡◌, ℕ, ◌<◌, ◌^◌, ◌||◌, ◌&&◌, true, nat_eq, length, IfOk};
ghost use Rattle.std.specs.List.{All, list_all, list_any};
ghost use Rattle.jz_ir.specs.Places.{Below, need_fits, op_fits, has_need};
ghost use Rattle.jz_fit.specs.InnerWants.{admits, is_needed, wanted_at, passing_first};

use jz_data::Seq;
use jz_ir::{Need, Op, place_number};
use std::alloc::{AllocError, Global};

/// The places that the needs of a variable leave: all, the one with this number, or none.
#[derive(Clone, Copy)]
pub(crate) enum Wanted {
    Anywhere,
    Only(u8),
    Nowhere,
}

impl Wanted {
    pub(crate) fn admits(self, place: u8) -> bool
        ensures { result ≡ admits self place }
    {
        match self {
            Wanted::Anywhere => true,
            Wanted::Only(number) => number == place,
            Wanted::Nowhere => false,
        }
    }

    pub(crate) fn is_needed(self) -> bool
        ensures { result ≡ is_needed self }
    {
        match self {
            Wanted::Anywhere => false,
            Wanted::Only(_) => true,
            Wanted::Nowhere => true,
        }
    }
}

/// With one need more, of the place with this number.
fn with_need(wanted: Wanted, place: u8) -> Wanted
    ensures fits { (q : ℕ) → admits result q ≡ (nat_eq place q && admits wanted q) }
    ensures needed { is_needed result ≡ true }
{
    match wanted {
        Wanted::Anywhere => Wanted::Only(place),
        Wanted::Only(number) => {
            if number == place {
                Wanted::Only(place)
            } else {
                Wanted::Nowhere
            }
        }
        Wanted::Nowhere => Wanted::Nowhere,
    }
}

fn add_need(wants: &mut Vec<Wanted>, need: Need)
    requires { need.variable < length wants.old.items }
    ensures count { length wants.new.items ≡ length wants.old.items }
    ensures fits { (v q : ℕ) → v < length wants.old.items → admits (wanted_at wants.new.items v) q
        ≡ (need_fits v q need && admits (wanted_at wants.old.items v) q) }
    ensures needed { (v : ℕ) → v < length wants.old.items → is_needed (wanted_at wants.new.items v)
        ≡ (nat_eq need.variable v || is_needed (wanted_at wants.old.items v)) }
{
    let variable = need.variable as usize;
    let wanted = wants[variable];
    wants[variable] = with_need(wanted, place_number(need.place));
}

fn add_needs(wants: &mut Vec<Wanted>, needs: &Seq<Need>)
    requires { All (λ need. need.variable < length wants.old.items) needs.now }
    ensures count { length wants.new.items ≡ length wants.old.items }
    ensures fits { (v q : ℕ) → v < length wants.old.items → admits (wanted_at wants.new.items v) q
        ≡ (list_all (need_fits v q) needs.now && admits (wanted_at wants.old.items v) q) }
    ensures needed { (v : ℕ) → v < length wants.old.items → is_needed (wanted_at wants.new.items v)
        ≡ (list_any (λ need. nat_eq need.variable v) needs.now
        || is_needed (wanted_at wants.old.items v)) }
{
    for need in needs.as_slice() {
        add_need(wants, *need);
    }
}

/// What the needs of each variable leave it.
pub(crate) fn wants_of(alloc: Global, ops: &[Op], count: usize) -> Result<Vec<Wanted>, AllocError>
    requires { All (Below count) ops.now }
    ensures count { IfOk result (λ wants. length wants.items ≡ count) }
    ensures fits { IfOk result (λ wants. (v q : ℕ) → v < count
        → admits (wanted_at wants.items v) q ≡ list_all (op_fits v q) ops.now) }
    ensures needed { IfOk result (λ wants. (v : ℕ) → v < count
        → is_needed (wanted_at wants.items v) ≡ has_need ops.now v) }
{
    let mut wants = vec![in alloc; Wanted::Anywhere; count]?;
    for op in ops {
        add_needs(&mut wants, &op.needs);
    }
    Ok(wants)
}

/// The variables with needs, and then the others, each in the order of declaration.
pub(crate) fn place_order(alloc: Global, wants: &[Wanted]) -> Result<Vec<u32>, AllocError>
    requires { length wants.now < 2 ^ 32 }
    ensures { IfOk result (λ order. order.items
        ≡ passing_first (λ v. is_needed (wanted_at wants.now v)) (length wants.now)) }
{
    let mut order = Vec::new(alloc);
    for variable in 0..wants.len() {
        let wanted = wants[variable];
        if wanted.is_needed() {
            order.push(variable as u32)?;
        }
    }
    for variable in 0..wants.len() {
        let wanted = wants[variable];
        if !wanted.is_needed() {
            order.push(variable as u32)?;
        }
    }
    Ok(order)
}
