//! What a move replaces, line by line.

ghost use Rattle.std.specs.Prelude.{◌≡◌, ◌++◌, IfOk, OnOk};
ghost use Rattle.std.specs.List.{flat_map};
ghost use Rattle.geo_poly.specs.Polynomials.{Summands};
ghost use Rattle.proof_printer.specs.Inner.Names.{naming_in};
ghost use Rattle.proof_printer.specs.Inner.Reading.{IsKept, IsTextOf};
ghost use Rattle.proof_printer.specs.Readable.{denominator_text, ended};
ghost use Rattle.proof_printer.specs.Readable.{replacement_lines, row_text};

use crate::namer::Namer;
use crate::polynomials::push_exponent;
use crate::reading::Before;
use geo_logs::Replacement;
use geo_points::NoMemory;
use geo_poly::{Poly, Row};
use std::alloc::Global;

impl Namer {
    /// Appends a line for each row, and then what the move gives.
    pub fn push_replacement(
        &self,
        alloc: Global,
        out: &mut Vec<u8>,
        made: &Replacement,
        text: &[u8],
    ) -> Result<Before, NoMemory>
        ensures text { (r : Summands) → IsTextOf text.now r → OnOk result (out.new.items
            ≡ out.old.items ++ replacement_lines (naming_in self.now) made.now r) }
        ensures kept { (r : Summands) → IsTextOf text.now r
            → IfOk result (λ after. IsKept after r) }
    {
        self.push_rows(alloc, out, &made.rows.items, &made.den.poly)?;
        out.extend_from_slice(b"  gives ")?;
        let after = self.push_read(alloc, out, text)?;
        out.push(b'\n')?;
        Ok(after)
    }

    /// Appends a line for each row.
    fn push_rows(
        &self,
        alloc: Global,
        out: &mut Vec<u8>,
        rows: &[Row],
        den: &Poly,
    ) -> Result<(), NoMemory>
        ensures { OnOk result (out.new.items ≡ out.old.items
            ++ flat_map (λ row. ended (row_text (naming_in self.now) den.now row)) rows.now) }
    {
        for row in rows {
            self.push_row(alloc, out, row, den)?;
        }
        Ok(())
    }

    /// Appends a variable with what stands for it, as a line.
    fn push_row(
        &self,
        alloc: Global,
        out: &mut Vec<u8>,
        row: &Row,
        den: &Poly,
    ) -> Result<(), NoMemory>
        ensures { OnOk result (out.new.items
            ≡ out.old.items ++ ended (row_text (naming_in self.now) den.now row.now)) }
    {
        out.extend_from_slice(b"  ")?;
        self.push_variable(alloc, out, row.var)?;
        out.extend_from_slice(b" = (")?;
        self.push_polynomial(alloc, out, &row.num.poly)?;
        out.push(b')')?;
        self.push_denominator(alloc, out, den, row.power)?;
        out.push(b'\n')?;
        Ok(())
    }

    /// Appends the denominator with its power, where that is not 0.
    fn push_denominator(
        &self,
        alloc: Global,
        out: &mut Vec<u8>,
        den: &Poly,
        power: u32,
    ) -> Result<(), NoMemory>
        ensures { OnOk result (out.new.items
            ≡ out.old.items ++ denominator_text (naming_in self.now) den.now power) }
    {
        if power == 0 {
            return Ok(());
        }
        out.extend_from_slice(b" / (")?;
        self.push_polynomial(alloc, out, den)?;
        out.push(b')')?;
        push_exponent(alloc, out, power)
    }
}
