//! Variables as they are gathered, and then in order.

ghost use Rattle.std.specs.Prelude.{◌≡◌, ◌++◌, [], ◌∷◌, Contains, IfSome, OnOk};
ghost use Rattle.std.specs.List.Sorted.{IsStrictlySortedBy};
ghost use Rattle.geo_poly.specs.declared.variables.Var.{Var};
ghost use Rattle.geo_poly.specs.Variables.{var_cmp};

use geo_points::NoMemory;
use geo_poly::lists::Vars;
use geo_poly::{Canon, Var};
use std::alloc::Global;

/// The variables in order and each once.
pub(crate) fn in_order(variables: Vec<Var>) -> Vars
    ensures rising { IsStrictlySortedBy var_cmp result }
    ensures known { (v : Var) → Contains variables.items v → Contains result v }
{
    let mut items = variables;
    items.sort_unstable();
    items.dedup();
    Vars { items }
}

/// Adds a variable.
pub(crate) fn push(variables: &mut Vec<Var>, v: Var) -> Result<(), NoMemory>
    ensures known { OnOk result (Contains variables.new.items v) }
    ensures kept { OnOk result
        ((w : Var) → Contains variables.old.items w → Contains variables.new.items w) }
{
    variables.push(v)?;
    Ok(())
}

/// Adds the variable of a sorted form, where it has one.
pub(crate) fn push_canon(variables: &mut Vec<Var>, canon: Canon) -> Result<(), NoMemory>
    ensures known { OnOk result (IfSome canon.var (Contains variables.new.items)) }
    ensures kept { OnOk result
        ((v : Var) → Contains variables.old.items v → Contains variables.new.items v) }
{
    match canon.var {
        None => Ok(()),
        Some(v) => push(variables, v),
    }
}

/// Adds variables.
pub(crate) fn push_all(variables: &mut Vec<Var>, more: &[Var]) -> Result<(), NoMemory>
    ensures known { OnOk result ((v : Var) → Contains more.now v → Contains variables.new.items v) }
    ensures kept { OnOk result
        ((v : Var) → Contains variables.old.items v → Contains variables.new.items v) }
{
    variables.extend_from_slice(more)?;
    Ok(())
}
