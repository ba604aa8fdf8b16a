//! How many points a program names.

ghost use Rattle.std.specs.Prelude.{◌≡◌, ◌+◌, IfOk};
ghost use Rattle.geo_program.specs.WellFormed.{empty_scope, scope_of};
ghost use Rattle.geo_discover.specs.Inner.Walks.{points_with};

use geo_points::NoMemory;
use geo_program::{Name, NameKind};

/// How many of the names are points. More than a number can tell are answered by want of memory.
pub(crate) fn point_count(names: &[Name]) -> Result<u32, NoMemory>
    ensures { IfOk result (λ n. n ≡ (scope_of empty_scope names.now).points) }
{
    let mut count = 0;
    for name in names {
        count = count_with(count, name.kind)?;
    }
    Ok(count)
}

/// How many points there are with a name of this kind more.
fn count_with(count: u32, kind: NameKind) -> Result<u32, NoMemory>
    ensures { IfOk result (λ n. n ≡ points_with kind count) }
{
    match kind {
        NameKind::Point => one_more(count),
        NameKind::Param => Ok(count),
        NameKind::Line => Ok(count),
    }
}

/// A count with one more.
fn one_more(count: u32) -> Result<u32, NoMemory>
    ensures { IfOk result (λ n. n ≡ count + 1) }
{
    if count == u32::MAX {
        return Err(NoMemory);
    }
    Ok(count + 1)
}
