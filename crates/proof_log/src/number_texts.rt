//! Numbers in the text of a line.

ghost use Rattle.std.specs.Prelude.{codes, cond, ◌≡◌, ◌==◌, [], ◌++◌, OnOk};
ghost use Rattle.std.specs.Fmt.{decimal, signed_decimal};

use geo_points::NoMemory;
use std::alloc::Global;

/// Appends the digits of a number.
pub(crate) fn push_number(alloc: Global, out: &mut Vec<u8>, n: u32) -> Result<(), NoMemory>
    ensures { OnOk result (out.new.items ≡ out.old.items ++ decimal n) }
{
    push_integer(alloc, out, n as i128)
}

/// Appends an exponent where it is not 1.
pub(crate) fn push_exponent(alloc: Global, out: &mut Vec<u8>, exponent: u32) -> Result<(), NoMemory>
    ensures { OnOk result (out.new.items
        ≡ out.old.items ++ cond (exponent == 1) [] (codes "^" ++ decimal exponent)) }
{
    if exponent != 1 {
        out.push(b'^')?;
        push_number(alloc, out, exponent)?;
    }
    Ok(())
}

/// Appends the digits of a number of 64 bits.
pub(crate) fn push_long(alloc: Global, out: &mut Vec<u8>, n: u64) -> Result<(), NoMemory>
    ensures { OnOk result (out.new.items ≡ out.old.items ++ decimal n) }
{
    push_integer(alloc, out, n as i128)
}

/// Appends the digits of an integer, with a `-` before them where it is negative.
pub(crate) fn push_integer(alloc: Global, out: &mut Vec<u8>, n: i128) -> Result<(), NoMemory>
    ensures { OnOk result (out.new.items ≡ out.old.items ++ signed_decimal n) }
{
    geo_base::push_decimal(alloc, out, n).map_err(|_| NoMemory)
}
