//! What becomes of the variables of a polynomial in a replacement, by their numbers.

ghost use Rattle.std.specs.Prelude.{◌≡◌, ◌<◌, IfNone, IfOk, IfSome, List, None, Some, length};
ghost use Rattle.std.specs.Prelude.{slice_get};
ghost use Rattle.std.specs.List.Sorted.{IsStrictlySortedBy};
ghost use Rattle.geo_poly.specs.declared.rows.Row.{Row};
ghost use Rattle.geo_poly.specs.declared.variables.Var.{Var};
ghost use Rattle.geo_poly.specs.Inner.Roles.{AreRoles, IsRole};
ghost use Rattle.geo_poly.specs.Replace.{row_of};
ghost use Rattle.geo_poly.specs.Variables.{var_cmp};

use crate::row_table::RowTable;
use crate::variable_places::find_place;
use crate::variables::Var;
use geo_points::NoMemory;
use std::alloc::Global;

/// What becomes of a variable.
#[derive(Clone, Copy)]
pub(crate) enum Role {
    /// It is replaced, by the row at this place.
    Replaced(usize),
    /// It stays, and stands at this place among the variables of the replacement.
    Kept(u64),
    /// It stays, and does not stand among them.
    Absent,
}

impl Role {
    /// The place of its row, where it is replaced.
    pub(crate) fn row_place(self) -> Option<usize>
        ensures within { IfSome result (λ i. (rows : List Row) (vars : List Var) (v : Var)
            → IsRole rows vars v self → i < length rows) }
        ensures row { IfSome result (λ i. (rows : List Row) (vars : List Var) (v : Var)
            → IsRole rows vars v self → slice_get rows i ≡ row_of rows v) }
        ensures none { IfNone result ((rows : List Row) (vars : List Var) (v : Var)
            → IsRole rows vars v self → row_of rows v ≡ None) }
    {
        match self {
            Role::Replaced(i) => Some(i),
            Role::Kept(_) => None,
            Role::Absent => None,
        }
    }

    /// Where the next variable may stand.
    fn next_place(self, guess: u64) -> u64 {
        match self {
            Role::Kept(place) => place.saturating_add(1),
            _ => guess,
        }
    }
}

/// The role of each of the former variables.
pub(crate) fn roles_of(
    alloc: Global,
    rows: &RowTable,
    former: &[Var],
    vars: &[Var],
) -> Result<Vec<Role>, NoMemory>
    requires { IsStrictlySortedBy var_cmp vars.now }
    ensures { IfOk result (λ roles. AreRoles rows.now vars.now former.now roles.items) }
{
    let mut roles = Vec::with_capacity(alloc, former.len())?;
    let mut guess = 0u64;
    for v in former {
        let role = role_of(rows, *v, roles.len() as u64, vars, guess);
        guess = role.next_place(guess);
        roles.push(role)?;
    }
    Ok(roles)
}

/// The role of a variable, which has mostly the row of that number, or stands where it is supposed to.
fn role_of(rows: &RowTable, v: Var, number: u64, vars: &[Var], guess: u64) -> Role
    requires { IsStrictlySortedBy var_cmp vars.now }
    ensures { IsRole rows.now vars.now v result }
{
    if let Some(i) = rows.find_place(v, number) {
        return Role::Replaced(i);
    }
    match find_place(vars, v, guess) {
        Some(place) => Role::Kept(place),
        None => Role::Absent,
    }
}

/// The role of the variable of a number.
pub(crate) fn role_at(roles: &[Role], number: u64) -> Role
    requires { number < length roles.now }
    ensures { slice_get roles.now number ≡ Some result }
{
    roles[number as usize]
}
