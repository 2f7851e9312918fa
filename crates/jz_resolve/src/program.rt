//! Programs whose variables have their declarations, whose lengths and constants are numbers.

ghost use Rattle.std.specs.Prelude.{◌≡◌, IfOk, OnOk, [], map, option_map};
ghost use Rattle.jz_resolve.specs.Programs.{counted_by, counted_ty, counted_decl, counted_var, counted_param, counted_ret, counted_fun, resolved_program};
ghost use Rattle.jz_resolve.specs.Resolving.{stmt_with, var_with};
ghost use Rattle.jz_resolve.specs.Tables.{values_in};
ghost use Rattle.jz_resolve.specs.InnerTables.{names_of_fun, fun_by, whole_by, const_by, IsScope};

use crate::expressions::resolve_expr;
use crate::scope::Scope;
use crate::statements::{resolve_block, resolve_vars};
use crate::table::{ConstantTable, constants};
use jz_tree::{Boxed, Const, Decl, Expr, Fun, Param, Program, Ret, Seq, Stmt, Ty, Var};
use jz_type_names::span_of;
use std::alloc::{AllocError, Global};

fn count(alloc: Global, constants: &ConstantTable, length: &Expr) -> Result<Expr, AllocError>
    ensures { IfOk result (λ e. e ≡ counted_by (values_in constants.now) length.now) }
{
    match constants.number_of(alloc, length)? {
        None => Ok(Expr::Num(0, span_of(length))),
        Some(number) => Ok(Expr::Num(number, span_of(length))),
    }
}

fn count_ty(alloc: Global, constants: &ConstantTable, ty: Ty) -> Result<Ty, AllocError>
    ensures { IfOk result (λ t. t ≡ counted_ty (values_in constants.now) ty) }
{
    match ty {
        Ty::Int => Ok(Ty::Int),
        Ty::Bool => Ok(Ty::Bool),
        Ty::Word(size) => Ok(Ty::Word(size)),
        Ty::Array(size, length) => {
            let length = count(alloc, constants, length.get())?;
            Ok(Ty::Array(size, Boxed::new(alloc, length)?))
        }
    }
}

fn count_decl(alloc: Global, constants: &ConstantTable, decl: Decl) -> Result<Decl, AllocError>
    ensures { IfOk result (λ d. d ≡ counted_decl (values_in constants.now) decl) }
{
    let Decl { storage, ty } = decl;
    let ty = count_ty(alloc, constants, ty)?;
    Ok(Decl { storage, ty })
}

fn count_declared(
    alloc: Global,
    constants: &ConstantTable,
    decl: Option<Decl>,
) -> Result<Option<Decl>, AllocError>
    ensures { IfOk result (λ d. d ≡ option_map (counted_decl (values_in constants.now)) decl) }
{
    match decl {
        None => Ok(None),
        Some(decl) => Ok(Some(count_decl(alloc, constants, decl)?)),
    }
}

fn count_var(alloc: Global, constants: &ConstantTable, var: Var) -> Result<Var, AllocError>
    ensures { IfOk result (λ v. v ≡ counted_var (values_in constants.now) var) }
{
    let Var {
        name,
        copy,
        cell,
        decl,
        span,
    } = var;
    let decl = count_declared(alloc, constants, decl)?;
    Ok(Var {
        name,
        copy,
        cell,
        decl,
        span,
    })
}

fn count_vars(
    alloc: Global,
    constants: &ConstantTable,
    vars: Seq<Var>,
) -> Result<Seq<Var>, AllocError>
    ensures { IfOk result (λ r. r ≡ map (counted_var (values_in constants.now)) vars) }
{
    vars.into_try_map(alloc, |var| count_var(alloc, constants, var))
}

fn count_param(alloc: Global, constants: &ConstantTable, param: Param) -> Result<Param, AllocError>
    ensures { IfOk result (λ p. p ≡ counted_param (values_in constants.now) param) }
{
    let Param { notes, var } = param;
    let var = count_var(alloc, constants, var)?;
    Ok(Param { notes, var })
}

fn count_params(
    alloc: Global,
    constants: &ConstantTable,
    params: Seq<Param>,
) -> Result<Seq<Param>, AllocError>
    ensures { IfOk result (λ r. r ≡ map (counted_param (values_in constants.now)) params) }
{
    params.into_try_map(alloc, |param| count_param(alloc, constants, param))
}

fn count_ret(alloc: Global, constants: &ConstantTable, ret: Ret) -> Result<Ret, AllocError>
    ensures { IfOk result (λ r. r ≡ counted_ret (values_in constants.now) ret) }
{
    let Ret { notes, decl } = ret;
    let decl = count_decl(alloc, constants, decl)?;
    Ok(Ret { notes, decl })
}

fn count_rets(
    alloc: Global,
    constants: &ConstantTable,
    rets: Seq<Ret>,
) -> Result<Seq<Ret>, AllocError>
    ensures { IfOk result (λ r. r ≡ map (counted_ret (values_in constants.now)) rets) }
{
    rets.into_try_map(alloc, |ret| count_ret(alloc, constants, ret))
}

fn count_fun(alloc: Global, constants: &ConstantTable, fun: Fun) -> Result<Fun, AllocError>
    ensures { IfOk result (λ r. r ≡ counted_fun (values_in constants.now) fun) }
{
    let Fun {
        notes,
        kind,
        name,
        span,
        params,
        rets,
        vars,
        body,
        result,
    } = fun;
    let params = count_params(alloc, constants, params)?;
    let rets = count_rets(alloc, constants, rets)?;
    let vars = count_vars(alloc, constants, vars)?;
    Ok(Fun {
        notes,
        kind,
        name,
        span,
        params,
        rets,
        vars,
        body,
        result,
    })
}

/// Resolves the statements and the results of the function that has this head.
fn resolve_parts(
    alloc: Global,
    constants: &ConstantTable,
    head: &Fun,
    body: &mut Seq<Stmt>,
    returned: &mut Seq<Var>,
) -> Result<(), AllocError>
    ensures body { OnOk result
        (body.new ≡ map (stmt_with (names_of_fun constants.now head.now)) body.old) }
    ensures returned { OnOk result
        (returned.new ≡ map (var_with (names_of_fun constants.now head.now)) returned.old) }
{
    let scope = Scope::of(alloc, constants, head)?;
    resolve_block(alloc, &scope, body)?;
    resolve_vars(alloc, &scope, returned)?;
    Ok(())
}

fn resolve_fun(alloc: Global, constants: &ConstantTable, fun: Fun) -> Result<Fun, AllocError>
    ensures { IfOk result (λ r. r ≡ fun_by constants.now fun) }
{
    let Fun {
        notes,
        kind,
        name,
        span,
        params,
        rets,
        vars,
        mut body,
        mut result,
    } = fun;
    let mut head = Fun {
        notes,
        kind,
        name,
        span,
        params,
        rets,
        vars,
        body: Seq::new(alloc),
        result: Seq::new(alloc),
    };
    resolve_parts(alloc, constants, &head, &mut body, &mut result)?;
    head.body = body;
    head.result = result;
    Ok(head)
}

fn resolve_whole(alloc: Global, constants: &ConstantTable, fun: Fun) -> Result<Fun, AllocError>
    ensures { IfOk result (λ r. r ≡ whole_by constants.now fun) }
{
    let counted = count_fun(alloc, constants, fun)?;
    let resolved = resolve_fun(alloc, constants, counted)?;
    Ok(resolved)
}

fn resolve_funs(
    alloc: Global,
    constants: &ConstantTable,
    funs: Seq<Fun>,
) -> Result<Seq<Fun>, AllocError>
    ensures { IfOk result (λ r. r ≡ map (whole_by constants.now) funs) }
{
    funs.into_try_map(alloc, |fun| resolve_whole(alloc, constants, fun))
}

fn resolve_const(
    alloc: Global,
    constants: &ConstantTable,
    scope: &Scope<'_>,
    c: Const,
) -> Result<Const, AllocError>
    requires { IsScope scope.now constants.now [] }
    ensures { IfOk result (λ r. r ≡ const_by constants.now c) }
{
    let Const { name, value, span } = c;
    let value = resolve_expr(alloc, scope, &value)?;
    Ok(Const { name, value, span })
}

fn resolve_consts(
    alloc: Global,
    constants: &ConstantTable,
    consts: Seq<Const>,
) -> Result<Seq<Const>, AllocError>
    ensures { IfOk result (λ r. r ≡ map (const_by constants.now) consts) }
{
    let scope = Scope::empty(alloc, constants);
    let mut done = Seq::new(alloc);
    for c in consts.into_vec() {
        done.push(resolve_const(alloc, constants, &scope, c)?)?;
    }
    Ok(done)
}

/// The program in which each variable has its declaration where it is used, each length of an array
/// is its value, and each constant its number. A length that has none becomes 0, and a constant
/// that has none a division by zero.
pub fn resolve(alloc: Global, program: Program) -> Result<Program, AllocError>
    ensures { IfOk result (λ q. q ≡ resolved_program program) }
{
    let table = constants(alloc, &program.consts)?;
    let Program { consts, funs } = program;
    let consts = resolve_consts(alloc, &table, consts)?;
    let funs = resolve_funs(alloc, &table, funs)?;
    Ok(Program { consts, funs })
}
