//! Polynomials, factors and values with the names of a program.

ghost use Rattle.std.specs.Prelude.{◌≡◌, ◌<◌, ◌++◌, length, unsigned_abs, IfOk, IfSome, OnOk};
ghost use Rattle.std.specs.Prelude.{slice_get};
ghost use Rattle.std.specs.Fmt.{decimal};
ghost use Rattle.std.specs.List.{flat_map};
ghost use Rattle.geo_poly.specs.Polynomials.{term_at};
ghost use Rattle.geo_poly.specs.Shared.{AreParts, told};
ghost use Rattle.proof_log.specs.Lines.{sign_text};
ghost use Rattle.proof_printer.specs.Inner.Names.{AreNames, naming_in, starred};
ghost use Rattle.proof_printer.specs.Naming.{variable_text};
ghost use Rattle.proof_printer.specs.Polynomials.{exponent_text, factor_text, polynomial_text};
ghost use Rattle.proof_printer.specs.Polynomials.{power_text, term_text, value_text};

use crate::namer::Namer;
use crate::numbers::{push_integer, push_number};
use geo_base::Text;
use geo_points::NoMemory;
use geo_poly::{Factor, FirstPower, Poly, Shared, Var};
use std::alloc::Global;

impl Namer {
    /// Appends the terms with single spaces between them, or `0` where there is none.
    pub fn push_polynomial(
        &self,
        alloc: Global,
        out: &mut Vec<u8>,
        poly: &Poly,
    ) -> Result<(), NoMemory>
        ensures { OnOk result (out.new.items
            ≡ out.old.items ++ polynomial_text (naming_in self.now) poly.now) }
    {
        if poly.is_zero() {
            out.push(b'0')?;
            return Ok(());
        }
        let p = &poly.shared();
        let names = self.names_of(alloc, p)?;
        self.push_term(alloc, out, p, &names, 0)?;
        for i in 1..poly.terms() {
            out.push(b' ')?;
            self.push_term(alloc, out, p, &names, i)?;
        }
        Ok(())
    }

    /// Appends the term at place i: its coefficient, which always has a sign, and its powers.
    fn push_term(
        &self,
        alloc: Global,
        out: &mut Vec<u8>,
        p: &Shared,
        names: &[Text],
        i: u64,
    ) -> Result<(), NoMemory>
        requires parts { AreParts p.now }
        requires names { AreNames (naming_in self.now) p.now.vars.now names.now }
        requires place { i < length (told p.now) }
        ensures { OnOk result (out.new.items
            ≡ out.old.items ++ term_text (naming_in self.now) (term_at (told p.now) i)) }
    {
        let (mut rest, coefficient) = p.term(i);
        push_coefficient(alloc, out, coefficient)?;
        while let Some(first) = p.first_power(rest) {
            self.push_named_power(alloc, out, names, &first)?;
            rest = first.rest;
        }
        Ok(())
    }

    /// Appends a power, by what was made of its variable where that was made.
    fn push_named_power(
        &self,
        alloc: Global,
        out: &mut Vec<u8>,
        names: &[Text],
        first: &FirstPower,
    ) -> Result<(), NoMemory>
        requires { IfSome (slice_get names.now first.now.number)
            (λ name. name ≡ starred (naming_in self.now) first.now.var) }
        ensures { OnOk result (out.new.items
            ≡ out.old.items ++ power_text (naming_in self.now) (first.now.var, first.now.exponent)) }
    {
        match names.get(first.number as usize) {
            Some(name) => {
                out.extend_from_slice(&name.bytes)?;
                push_exponent(alloc, out, first.exponent)
            }
            None => self.push_power(alloc, out, first.var, first.exponent),
        }
    }

    /// `*` and the name of each variable, made once for all its powers; none where there are fewer
    /// terms than variables.
    fn names_of(&self, alloc: Global, p: &Shared) -> Result<Vec<Text>, NoMemory>
        ensures { IfOk result (λ names. AreNames (naming_in self.now) p.now.vars.now names.items) }
    {
        let mut names = Vec::new(alloc);
        if p.list.len() < p.vars.len() {
            return Ok(names);
        }
        for v in p.vars {
            names.push(self.starred_name(alloc, *v)?)?;
        }
        Ok(names)
    }

    /// `*` and the name of a variable.
    fn starred_name(&self, alloc: Global, variable: Var) -> Result<Text, NoMemory>
        ensures { IfOk result (λ name. name ≡ starred (naming_in self.now) variable) }
    {
        let mut bytes = Vec::new(alloc);
        bytes.push(b'*')?;
        self.push_variable(alloc, &mut bytes, variable)?;
        Ok(Text { bytes })
    }

    /// Appends the number and the powers of a factor.
    pub fn push_factor(
        &self,
        alloc: Global,
        out: &mut Vec<u8>,
        factor: &Factor,
    ) -> Result<(), NoMemory>
        ensures { OnOk result (out.new.items
            ≡ out.old.items ++ factor_text (naming_in self.now) factor.now) }
    {
        push_integer(alloc, out, factor.coef())?;
        for j in 0..factor.powers() {
            let (variable, exponent) = factor.power(j);
            self.push_power(alloc, out, variable, exponent)?;
        }
        Ok(())
    }

    /// Appends `*`, a variable, and its exponent where that is not 1.
    fn push_power(
        &self,
        alloc: Global,
        out: &mut Vec<u8>,
        variable: Var,
        exponent: u32,
    ) -> Result<(), NoMemory>
        ensures { OnOk result (out.new.items
            ≡ out.old.items ++ power_text (naming_in self.now) (variable, exponent)) }
    {
        out.push(b'*')?;
        self.push_variable(alloc, out, variable)?;
        push_exponent(alloc, out, exponent)
    }

    /// Appends values, each with a space before it.
    pub fn push_values(
        &self,
        alloc: Global,
        out: &mut Vec<u8>,
        values: &[(Var, i128)],
    ) -> Result<(), NoMemory>
        ensures { OnOk result (out.new.items
            ≡ out.old.items ++ flat_map (value_text (naming_in self.now)) values.now) }
    {
        for value in values {
            self.push_value(alloc, out, value)?;
        }
        Ok(())
    }

    /// Appends a variable and its value, with a space before them.
    fn push_value(
        &self,
        alloc: Global,
        out: &mut Vec<u8>,
        value: &(Var, i128),
    ) -> Result<(), NoMemory>
        ensures { OnOk result (out.new.items
            ≡ out.old.items ++ value_text (naming_in self.now) value.now) }
    {
        let (variable, number) = *value;
        out.extend_from_slice(b" ")?;
        self.push_variable(alloc, out, variable)?;
        out.extend_from_slice(b"=")?;
        push_integer(alloc, out, number)
    }
}

/// Appends `^` and the exponent, where that is not 1.
pub(crate) fn push_exponent(alloc: Global, out: &mut Vec<u8>, exponent: u32) -> Result<(), NoMemory>
    ensures { OnOk result (out.new.items ≡ out.old.items ++ exponent_text exponent) }
{
    if exponent != 1 {
        out.push(b'^')?;
        push_number(alloc, out, exponent)?;
    }
    Ok(())
}

/// Appends a sign, also `+`, and the absolute value.
fn push_coefficient(alloc: Global, out: &mut Vec<u8>, c: i128) -> Result<(), NoMemory>
    ensures { OnOk result (out.new.items
        ≡ out.old.items ++ sign_text c ++ decimal (unsigned_abs c)) }
{
    if c >= 0 {
        out.push(b'+')?;
    }
    push_integer(alloc, out, c)
}
