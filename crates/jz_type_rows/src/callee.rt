//! What the calls of a function need to know of it.

ghost use Rattle.std.specs.Prelude.{◌≡◌, ℕ, [], ◌∷◌, ◌++◌, List, map, IfOk, OnOk};
ghost use Rattle.std.specs.Option.{option_copied};
ghost use Rattle.jz_tree.specs.declared.program.Fun.{Fun};
ghost use Rattle.jz_type_names.specs.Lent.{these};
ghost use Rattle.jz_type_names.specs.Parts.{layer_of, set_by};
ghost use Rattle.jz_type_names.specs.Scopes.{text_of, text_of_param};
ghost use Rattle.jz_type_rows.specs.Callees.{place_among, set_in};
ghost use Rattle.jz_type_rows.specs.Callees.{names_set, is_written, of_callee, entered_by, left_by};
ghost use Rattle.jz_type_rows.specs.Callees.{callee_of, callee_by};
ghost use Rattle.jz_type_rows.specs.Tables.{HasCallees};
ghost use Rattle.jz_type_rows.specs.InnerTables.{HasNames, HasPlaces};

use crate::tables::{Names, add_place, place};
use jz_tree::{Expr, Fun, FunKind, Lval, Param, Program, Rhs, Seq, Stmt, StmtKind, Var};
use jz_type_names::{ByName, is_array, known, set_by, statements};
use std::alloc::{AllocError, Global};

/// What the calls of a function need to know of it; made once for all of them.
#[derive(Drop)]
pub struct Callee {
    pub(crate) kind: FunKind,
    /// Of each parameter whether it is an array that the function writes.
    pub(crate) written: Seq<bool>,
    /// Of each result the number of the parameter that it is, if it is one.
    pub(crate) returned: Seq<Option<usize>>,
    /// The parameters as what the arguments are copied to.
    pub(crate) entered: Seq<Lval>,
    /// The results as what is copied to the left sides.
    pub(crate) left: Seq<Expr>,
}

fn add_set<'a>(alloc: Global, list: &mut Vec<&'a Var>, stmt: &'a Stmt) -> Result<(), AllocError>
    ensures { let set = set_by (layer_of stmt.now) in
        OnOk result (these list.new.items ≡ these list.old.items ++ set) }
{
    for var in set_by(alloc, stmt)? {
        list.push(var)?;
    }
    Ok(())
}

/// The variables that statements set, those that stand in them among them.
fn set_in(alloc: Global, body: &Seq<Stmt>) -> Result<Vec<&Var>, AllocError>
    ensures { IfOk result (λ vs. these vs.items ≡ set_in body.now) }
{
    let mut list = Vec::new(alloc);
    for stmt in statements(alloc, body)? {
        add_set(alloc, &mut list, stmt)?;
    }
    Ok(list)
}

fn names_of(alloc: Global, vars: &[&Var]) -> Result<Names, AllocError>
    ensures { IfOk result (λ s. HasNames s (map text_of (these vars.now))) }
{
    let mut names = Names::new(alloc);
    for var in vars {
        names.add(&var.name)?;
    }
    Ok(names)
}

fn names_set(alloc: Global, fun: &Fun) -> Result<Names, AllocError>
    ensures { IfOk result (λ s. HasNames s (names_set fun.now)) }
{
    let vars = set_in(alloc, &fun.body)?;
    names_of(alloc, &vars)
}

fn is_written(names: &Names, param: &Param) -> bool
    ensures { (ns : List (List ℕ)) → HasNames names.now ns → result ≡ is_written ns param.now }
{
    is_array(known(&param.var)) && names.has(&param.var.name)
}

fn written(alloc: Global, names: &Names, params: &Seq<Param>) -> Result<Seq<bool>, AllocError>
    ensures { (ns : List (List ℕ)) → HasNames names.now ns
        → IfOk result (λ w. w ≡ map (is_written ns) params.now) }
{
    let mut list = Seq::new(alloc);
    for param in params.as_slice() {
        list.push(is_written(names, param))?;
    }
    Ok(list)
}

fn places_of(alloc: Global, params: &Seq<Param>) -> Result<ByName<usize>, AllocError>
    ensures { IfOk result (λ t. HasPlaces t (map text_of_param params.now)) }
{
    let mut places = ByName::new(alloc);
    for (number, param) in params.as_slice().iter().enumerate() {
        add_place(&mut places, &param.var.name, number)?;
    }
    Ok(places)
}

fn returned(
    alloc: Global,
    places: &ByName<usize>,
    vars: &Seq<Var>,
) -> Result<Seq<Option<usize>>, AllocError>
    ensures { (ns : List (List ℕ)) → HasPlaces places.now ns
        → IfOk result (λ r. r ≡ map (place_among ns) vars.now) }
{
    let mut list = Seq::new(alloc);
    for var in vars.as_slice() {
        list.push(place(places, &var.name))?;
    }
    Ok(list)
}

fn of_callee(alloc: Global, var: &Var) -> Result<Var, AllocError>
    ensures { IfOk result (λ v. v ≡ of_callee var.now) }
{
    let Var {
        name,
        copy: _,
        cell,
        decl,
        span,
    } = var.copy(alloc)?;
    Ok(Var {
        name,
        copy: 1,
        cell,
        decl,
        span,
    })
}

fn entered_by(alloc: Global, param: &Param) -> Result<Lval, AllocError>
    ensures { IfOk result (λ to. to ≡ entered_by param.now) }
{
    Ok(Lval::Var(of_callee(alloc, &param.var)?))
}

fn entered(alloc: Global, params: &Seq<Param>) -> Result<Seq<Lval>, AllocError>
    ensures { IfOk result (λ to. to ≡ map entered_by params.now) }
{
    params.try_map(alloc, |param| entered_by(alloc, param))
}

fn left_by(alloc: Global, var: &Var) -> Result<Expr, AllocError>
    ensures { IfOk result (λ e. e ≡ left_by var.now) }
{
    Ok(Expr::Var(of_callee(alloc, var)?))
}

fn left(alloc: Global, vars: &Seq<Var>) -> Result<Seq<Expr>, AllocError>
    ensures { IfOk result (λ es. es ≡ map left_by vars.now) }
{
    vars.try_map(alloc, |var| left_by(alloc, var))
}

impl Callee {
    /// What the calls of this function need to know of it.
    pub fn of(alloc: Global, fun: &Fun) -> Result<Callee, AllocError>
        ensures { IfOk result (λ callee. callee ≡ callee_of fun.now) }
    {
        let names = names_set(alloc, fun)?;
        let places = places_of(alloc, &fun.params)?;
        Ok(Callee {
            kind: fun.kind,
            written: written(alloc, &names, &fun.params)?,
            returned: returned(alloc, &places, &fun.result)?,
            entered: entered(alloc, &fun.params)?,
            left: left(alloc, &fun.result)?,
        })
    }
}

/// The functions of a program by their names, as their calls need them.
#[derive(Drop)]
pub struct Callees {
    callees: ByName<Callee>,
}

impl Callees {
    fn add(&mut self, alloc: Global, fun: &Fun) -> Result<(), AllocError>
        ensures { (fs : List Fun) → HasCallees self.old fs
            → OnOk result (HasCallees self.new (fs ++ fun.now ∷ [])) }
    {
        let callee = Callee::of(alloc, fun)?;
        self.callees.add(&fun.name, callee)?;
        Ok(())
    }

    /// The functions of a program; of several with one name the first counts.
    pub fn of(alloc: Global, program: &Program) -> Result<Callees, AllocError>
        ensures { IfOk result (λ callees. HasCallees callees program.now.funs) }
    {
        let mut callees = Callees {
            callees: ByName::new(alloc),
        };
        for fun in program.funs.as_slice() {
            callees.add(alloc, fun)?;
        }
        Ok(callees)
    }

    /// The function that a statement calls, where it calls one that is there.
    pub fn called(&self, stmt: &Stmt) -> Option<&Callee>
        ensures { (fs : List Fun) → HasCallees self.now fs
            → option_copied result ≡ callee_by fs (layer_of stmt.now) }
    {
        match &stmt.kind {
            StmtKind::Assign {
                to: _,
                op: _,
                rhs: Rhs::Call(name, _, _),
                cond: _,
            } => self.callees.get(name),
            _ => None,
        }
    }
}
