//! Polynomials by their text in a log, with other names.

ghost use Rattle.std.specs.Prelude.{◌≡◌, ◌≤◌, ◌↔◌, ◌++◌, [], IfOk, IsTrue, OnOk, length};
ghost use Rattle.std.specs.BTreeMap.{keys};
ghost use Rattle.geo_poly.specs.PolynomialVariables.{variables_of};
ghost use Rattle.geo_poly.specs.Polynomials.{Summands};
ghost use Rattle.proof_log.specs.Lines.{variable_name};
ghost use Rattle.proof_printer.specs.Inner.Names.{naming_in};
ghost use Rattle.proof_printer.specs.Inner.Reading.{AreMet, AreTokens, IsKept, IsPast, IsTextOf, Tokens};
ghost use Rattle.proof_printer.specs.Inner.Reading.{spelled};
ghost use Rattle.proof_printer.specs.Naming.{Naming};
ghost use Rattle.proof_printer.specs.Polynomials.{polynomial_text};

use crate::met::Met;
use crate::namer::Namer;
use geo_points::NoMemory;
use geo_poly::lists::Vars;
use proof_log::{before_name, read_name};
use std::alloc::Global;

/// What is kept of a polynomial.
#[derive(Drop)]
pub(crate) struct Before {
    /// Whether it is zero.
    pub zero: bool,
    /// Its variables in order.
    pub variables: Vars,
}

impl Before {
    /// What is kept of the zero polynomial.
    pub fn zero(alloc: Global) -> Before
        ensures { IsKept result [] }
    {
        Before {
            zero: true,
            variables: Vars {
                items: Vec::new(alloc),
            },
        }
    }
}

impl Namer {
    /// Appends the polynomial with this text, and tells what is to be kept of it.
    pub fn push_read(
        &self,
        alloc: Global,
        out: &mut Vec<u8>,
        text: &[u8],
    ) -> Result<Before, NoMemory>
        ensures text { (q : Summands) → IsTextOf text.now q → OnOk result (out.new.items
            ≡ out.old.items ++ polynomial_text (naming_in self.now) q) }
        ensures kept { (q : Summands) → IsTextOf text.now q → IfOk result (λ before. IsKept before q) }
    {
        let mut met = Met::new(alloc, text.len())?;
        self.push_terms(alloc, out, &mut met, text)?;
        let items = met.places.into_keys().collect(alloc)?;
        Ok(Before {
            zero: is_zero(text),
            variables: Vars { items },
        })
    }

    /// Appends the text with other names, and meets its variables.
    fn push_terms(
        &self,
        alloc: Global,
        out: &mut Vec<u8>,
        met: &mut Met,
        text: &[u8],
    ) -> Result<(), NoMemory>
        requires none { keys met.old.places ≡ [] }
        requires met { AreMet (naming_in self.now) met.old }
        ensures text { (q : Summands) → IsTextOf text.now q → OnOk result (out.new.items
            ≡ out.old.items ++ polynomial_text (naming_in self.now) q) }
        ensures variables { (q : Summands) → IsTextOf text.now q → OnOk result (keys met.new.places ≡ variables_of q) }
    {
        let mut rest = push_plain(out, text)?;
        while let Some((variable, behind)) = read_name(rest) {
            self.push_met(alloc, out, met, variable)?;
            rest = push_plain(out, behind)?;
        }
        Ok(())
    }
}

/// Appends the bytes before the first name. The bytes from there on.
fn push_plain<'a>(out: &mut Vec<u8>, bytes: &'a [u8]) -> Result<&'a [u8], NoMemory>
    ensures shorter { IfOk result (λ rest. length rest.now ≤ length bytes.now) }
    ensures past { (n : Naming) (tokens : Tokens) → AreTokens tokens
        → bytes.now ≡ spelled variable_name tokens
        → IfOk result (λ rest. IsPast n tokens out.old.items out.new.items rest.now) }
{
    let (plain, rest) = before_name(bytes);
    out.extend_from_slice(plain)?;
    Ok(rest)
}

/// Whether the text is that of the zero polynomial.
fn is_zero(text: &[u8]) -> bool
    ensures { (q : Summands) → IsTextOf text.now q → IsTrue result ↔ (q ≡ []) }
{
    text == b"0".as_slice()
}
