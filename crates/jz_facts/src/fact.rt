//! Facts as values, and which says which.

ghost use Rattle.std.specs.Prelude.{◌≡◌, ◌==◌, ◌%◌, nat_le, ◌&&◌};
ghost use Rattle.jz_meaning.specs.States.{same_cell, same_key};
ghost use Rattle.jz_meaning.specs.Values.{key_of, ref_of};
ghost use Rattle.jz_facts.specs.Facts as facts;
ghost use Rattle.jz_facts.specs.Coded.{fact_of};

use jz_tree::Var;

/// What is known of a scalar or, by `Cell`, of a stack array. A parameter in the second place of
/// `Under` and `Is` stands for its value at entry.
#[derive(Drop)]
pub enum Fact {
    /// It has a value.
    Set(Var),
    /// The cell of that index has one.
    Cell(Var, u32),
    AtLeast(Var, u64),
    AtMost(Var, u64),
    /// It is below the parameter.
    Under(Var, Var),
    /// It is what the parameter was.
    Is(Var, Var),
    /// Of 2, 4 or 8.
    Multiple(Var, u8),
}

fn same_index(a: Option<u32>, b: Option<u32>) -> bool
    ensures { result ≡ same_cell a b }
{
    match a {
        None => match b {
            None => true,
            Some(_) => false,
        },
        Some(i) => match b {
            None => false,
            Some(j) => i == j,
        },
    }
}

/// Whether both are one variable, wherever they stand.
pub fn same_variable(a: &Var, b: &Var) -> bool
    ensures { result ≡ same_key (key_of (ref_of a.now)) (key_of (ref_of b.now)) }
{
    a.name == b.name && (a.copy == b.copy && same_index(a.cell, b.cell))
}

/// Whether `m` is a multiple of `n`.
fn is_multiple(m: u8, n: u8) -> bool
    ensures { result ≡ (m % n == 0) }
{
    if n == 0 {
        return m == 0;
    }
    m % n == 0
}

/// Whether the first fact says the second.
pub fn entails(a: &Fact, b: &Fact) -> bool
    ensures { result ≡ facts.entails (fact_of a.now) (fact_of b.now) }
{
    match a {
        Fact::Set(v) => match b {
            Fact::Set(w) => same_variable(v, w),
            _ => false,
        },
        Fact::Cell(v, k) => match b {
            Fact::Cell(w, j) => same_variable(v, w) && *k == *j,
            _ => false,
        },
        Fact::AtLeast(v, c) => match b {
            Fact::AtLeast(w, d) => same_variable(v, w) && *d <= *c,
            _ => false,
        },
        Fact::AtMost(v, c) => match b {
            Fact::AtMost(w, d) => same_variable(v, w) && *c <= *d,
            _ => false,
        },
        Fact::Under(v, x) => match b {
            Fact::Under(w, y) => same_variable(v, w) && same_variable(x, y),
            _ => false,
        },
        Fact::Is(v, x) => match b {
            Fact::Is(w, y) => same_variable(v, w) && same_variable(x, y),
            _ => false,
        },
        Fact::Multiple(v, m) => match b {
            Fact::Multiple(w, n) => same_variable(v, w) && is_multiple(*m, *n),
            _ => false,
        },
    }
}
