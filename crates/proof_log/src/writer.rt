//! Writing a line.

ghost use Rattle.std.specs.Prelude.{codes, cond, ◌≡◌, ◌==◌, ◌<◌, ◌≤◌, [], ◌∷◌, ◌++◌};
ghost use Rattle.std.specs.Prelude.{IfOk, IfSome, IsTrue, OnOk, length, slice_get, unsigned_abs};
ghost use Rattle.std.specs.Fmt.{decimal, signed_decimal};
ghost use Rattle.std.specs.List.{flat_map};
ghost use Rattle.mono_store.specs.Stores.{words};
ghost use Rattle.geo_poly.specs.Polynomials.{term_at};
ghost use Rattle.geo_poly.specs.Shared.{AreParts, IsIndexOf, told, told_powers};
ghost use Rattle.proof_log.specs.Inner.KeptTexts.{AreKept};
ghost use Rattle.proof_log.specs.Inner.Names.{AreNames, starred};
ghost use Rattle.proof_log.specs.Writable.{IsWritable};
ghost use Rattle.proof_log.specs.Lines.{factor_text, line_text, numbers_text, place_text};
ghost use Rattle.proof_log.specs.Lines.{polynomial_text, power_text, sign_text, term_text};
ghost use Rattle.proof_log.specs.Lines.{value_text, variable_name, which_text};

use crate::kept_texts::KeptTexts;
use crate::log::{Line, Verdict};
use crate::number_texts::{push_exponent, push_integer, push_long, push_number};
use geo_base::Text;
use geo_points::{NoMemory, PointId};
use geo_poly::lists::Values;
use geo_poly::{Factor, FirstPower, Poly, Shared, Var, Which};
use mono_store::MonoId;
use std::alloc::Global;

/// So many terms share texts.
const FEW_TERMS: usize = 8;

/// The text of a line, with its line feed.
pub fn write_line(alloc: Global, line: &Line) -> Result<Text, NoMemory>
    requires { IsWritable line.now }
    ensures { IfOk result (λ text. text ≡ line_text line.now ++ 10 ∷ []) }
{
    let mut bytes = Vec::new(alloc);
    push_line(alloc, &mut bytes, line)?;
    bytes.push(b'\n')?;
    Ok(Text { bytes })
}

/// Appends a line, without its line feed.
pub(crate) fn push_line(alloc: Global, out: &mut Vec<u8>, line: &Line) -> Result<(), NoMemory>
    ensures { OnOk result (out.new.items ≡ out.old.items ++ line_text line.now) }
{
    match line {
        Line::Header { version } => push_labelled(alloc, out, b"geolog ", *version)?,
        Line::Program(text) => push_program(out, text)?,
        Line::Condition { k, text } => push_condition(alloc, out, *k, text)?,
        Line::Goal { k, text } => push_goal(alloc, out, *k, text)?,
        Line::Start(poly) => push_start(alloc, out, poly)?,
        Line::Ratio {
            var,
            lemma,
            at,
            poly,
        } => push_ratio(alloc, out, *var, *lemma, *at, poly)?,
        Line::Point { at, poly } => push_point(alloc, out, *at, poly)?,
        Line::Coords(poly) => push_coords(alloc, out, poly)?,
        Line::Cut { by, poly } => push_cut(alloc, out, by, poly)?,
        Line::End => out.extend_from_slice(b"end")?,
        Line::Sample(values) => push_sample(alloc, out, values)?,
        Line::Verdict(verdict) => push_verdict(alloc, out, *verdict)?,
        Line::StopTooLarge { line, which } => push_too_large(alloc, out, *line, *which)?,
        Line::StopSpent { line } => push_spent(alloc, out, *line)?,
    }
    Ok(())
}

/// Appends a line of the program.
fn push_program(out: &mut Vec<u8>, text: &Text) -> Result<(), NoMemory>
    ensures { OnOk result (out.new.items ≡ out.old.items ++ line_text (Line.Program text.now)) }
{
    out.extend_from_slice(b"| ")?;
    out.extend_from_slice(&text.bytes)?;
    Ok(())
}

/// Appends the line of the condition of this number, which heads its chain.
fn push_condition(alloc: Global, out: &mut Vec<u8>, k: u32, text: &Text) -> Result<(), NoMemory>
    ensures { OnOk result (out.new.items ≡ out.old.items ++ line_text (Line.Condition k text.now)) }
{
    out.extend_from_slice(b"condition ")?;
    push_number(alloc, out, k)?;
    out.extend_from_slice(b" ")?;
    out.extend_from_slice(&text.bytes)?;
    Ok(())
}

/// Appends the line of the start of a chain.
fn push_start(alloc: Global, out: &mut Vec<u8>, poly: &Poly) -> Result<(), NoMemory>
    ensures { OnOk result (out.new.items ≡ out.old.items ++ line_text (Line.Start poly.now)) }
{
    out.extend_from_slice(b"start : ")?;
    push_polynomial(alloc, out, poly)
}

/// Appends the line of a ratio that a lemma replaced, with the polynomial after it.
fn push_ratio(
    alloc: Global,
    out: &mut Vec<u8>,
    var: Var,
    lemma: u32,
    at: Option<PointId>,
    poly: &Poly,
) -> Result<(), NoMemory>
    ensures { OnOk result (out.new.items
        ≡ out.old.items ++ line_text (Line.Ratio var lemma at poly.now)) }
{
    out.extend_from_slice(b"ratio ")?;
    push_variable(alloc, out, var)?;
    out.extend_from_slice(b" by ")?;
    push_number(alloc, out, lemma)?;
    push_place(alloc, out, at)?;
    out.extend_from_slice(b" : ")?;
    push_polynomial(alloc, out, poly)
}

/// Appends the point that a lemma looks at, where it looks at one.
fn push_place(alloc: Global, out: &mut Vec<u8>, at: Option<PointId>) -> Result<(), NoMemory>
    ensures { OnOk result (out.new.items ≡ out.old.items ++ place_text at) }
{
    match at {
        Some(point) => push_labelled(alloc, out, b" at ", point.0),
        None => Ok(()),
    }
}

/// Appends the line of the coordinates of the free points, with the polynomial after it.
fn push_coords(alloc: Global, out: &mut Vec<u8>, poly: &Poly) -> Result<(), NoMemory>
    ensures { OnOk result (out.new.items ≡ out.old.items ++ line_text (Line.Coords poly.now)) }
{
    out.extend_from_slice(b"coords : ")?;
    push_polynomial(alloc, out, poly)
}

/// Appends the line of a stop at a line that passes a limit.
fn push_too_large(alloc: Global, out: &mut Vec<u8>, line: u64, which: Which) -> Result<(), NoMemory>
    ensures { OnOk result (out.new.items
        ≡ out.old.items ++ line_text (Line.StopTooLarge line which)) }
{
    push_bound(alloc, out, b"stop too_large ", line, which)
}

/// Appends a label, a number and, behind a space, the name of a bound.
fn push_bound(
    alloc: Global,
    out: &mut Vec<u8>,
    label: &[u8],
    n: u64,
    which: Which,
) -> Result<(), NoMemory>
    ensures { OnOk result (out.new.items
        ≡ out.old.items ++ (label.now ++ decimal n ++ codes " " ++ which_text which)) }
{
    out.extend_from_slice(label)?;
    push_long(alloc, out, n)?;
    out.extend_from_slice(b" ")?;
    push_which(out, which)
}

/// Appends the name of a bound.
fn push_which(out: &mut Vec<u8>, which: Which) -> Result<(), NoMemory>
    ensures { OnOk result (out.new.items ≡ out.old.items ++ which_text which) }
{
    match which {
        Which::Norm => out.extend_from_slice(b"norm")?,
        Which::Degree => out.extend_from_slice(b"degree")?,
    }
    Ok(())
}

/// Appends the line of a stop at a line whose charge is too great.
fn push_spent(alloc: Global, out: &mut Vec<u8>, line: u64) -> Result<(), NoMemory>
    ensures { OnOk result (out.new.items ≡ out.old.items ++ line_text (Line.StopSpent line)) }
{
    out.extend_from_slice(b"stop spent ")?;
    push_long(alloc, out, line)
}

/// Appends the line of the goal of this number, which heads its chain.
fn push_goal(alloc: Global, out: &mut Vec<u8>, k: u32, text: &Text) -> Result<(), NoMemory>
    ensures { OnOk result (out.new.items ≡ out.old.items ++ line_text (Line.Goal k text.now)) }
{
    out.extend_from_slice(b"goal ")?;
    push_number(alloc, out, k)?;
    out.extend_from_slice(b" ")?;
    out.extend_from_slice(&text.bytes)?;
    Ok(())
}

/// Appends the line of the elimination of a point, with the polynomial after it.
fn push_point(alloc: Global, out: &mut Vec<u8>, at: PointId, poly: &Poly) -> Result<(), NoMemory>
    ensures { OnOk result (out.new.items ≡ out.old.items ++ line_text (Line.Point at poly.now)) }
{
    out.extend_from_slice(b"point ")?;
    push_number(alloc, out, at.0)?;
    out.extend_from_slice(b" : ")?;
    push_polynomial(alloc, out, poly)
}

/// Appends the line of the division by a factor, with the quotient.
fn push_cut(alloc: Global, out: &mut Vec<u8>, by: &Factor, poly: &Poly) -> Result<(), NoMemory>
    ensures { OnOk result (out.new.items ≡ out.old.items ++ line_text (Line.Cut by.now poly.now)) }
{
    out.extend_from_slice(b"cut ")?;
    push_factor(alloc, out, by)?;
    out.extend_from_slice(b" : ")?;
    push_polynomial(alloc, out, poly)
}

/// Appends the line of a sample.
fn push_sample(alloc: Global, out: &mut Vec<u8>, values: &Values) -> Result<(), NoMemory>
    ensures { OnOk result (out.new.items ≡ out.old.items ++ line_text (Line.Sample values.now)) }
{
    out.extend_from_slice(b"sample")?;
    for value in &values.items {
        push_value(alloc, out, value)?;
    }
    Ok(())
}

/// Appends a variable and its value, with a space before them.
fn push_value(alloc: Global, out: &mut Vec<u8>, value: &(Var, i128)) -> Result<(), NoMemory>
    ensures { OnOk result (out.new.items ≡ out.old.items ++ value_text value.now) }
{
    let (variable, number) = *value;
    out.extend_from_slice(b" ")?;
    push_variable(alloc, out, variable)?;
    out.extend_from_slice(b"=")?;
    push_integer(alloc, out, number)
}

/// Appends a verdict, with the number that it has.
fn push_verdict(alloc: Global, out: &mut Vec<u8>, verdict: Verdict) -> Result<(), NoMemory>
    ensures { OnOk result (out.new.items ≡ out.old.items ++ line_text (Line.Verdict verdict)) }
{
    out.extend_from_slice(b"verdict ")?;
    match verdict {
        Verdict::Proved => out.extend_from_slice(b"proved")?,
        Verdict::False(goal) => push_labelled(alloc, out, b"false ", goal)?,
        Verdict::Impossible(condition) => push_labelled(alloc, out, b"impossible ", condition)?,
    }
    Ok(())
}

/// Appends a label, and then a number.
fn push_labelled(alloc: Global, out: &mut Vec<u8>, label: &[u8], n: u32) -> Result<(), NoMemory>
    ensures { OnOk result (out.new.items ≡ out.old.items ++ (label.now ++ decimal n)) }
{
    out.extend_from_slice(label)?;
    push_number(alloc, out, n)
}

/// Appends the terms with single spaces between them, or `0` where there is none.
fn push_polynomial(alloc: Global, out: &mut Vec<u8>, poly: &Poly) -> Result<(), NoMemory>
    ensures { OnOk result (out.new.items ≡ out.old.items ++ polynomial_text poly.now) }
{
    if poly.is_zero() {
        out.push(b'0')?;
        return Ok(());
    }
    let p = &poly.shared();
    let names = names_of(alloc, p)?;
    let mut kept = KeptTexts::new(alloc, poly.terms())?;
    push_term(alloc, out, p, &names, &mut kept, 0)?;
    for i in 1..poly.terms() {
        out.push(b' ')?;
        push_term(alloc, out, p, &names, &mut kept, i)?;
    }
    Ok(())
}

/// Appends the term at place i: its coefficient, which always has a sign, and its powers.
fn push_term(
    alloc: Global,
    out: &mut Vec<u8>,
    p: &Shared,
    names: &[Text],
    kept: &mut KeptTexts,
    i: u64,
) -> Result<(), NoMemory>
    requires parts { AreParts p.now }
    requires names { AreNames p.now.vars.now names.now }
    requires kept { AreKept names.now p.now.monos.now.limits kept.old }
    requires place { i < length (told p.now) }
    ensures text { OnOk result (out.new.items
        ≡ out.old.items ++ term_text (term_at (told p.now) i)) }
    ensures kept { OnOk result (AreKept names.now p.now.monos.now.limits kept.new) }
{
    let (id, coefficient) = p.term(i);
    push_coefficient(alloc, out, coefficient)?;
    if is_named_word(p, names, id) {
        return kept.push_word(alloc, out, p.monos.digits(), names, id.0);
    }
    push_powers(alloc, out, p, names, id)
}

/// Whether the index is a word whose variables have names made for them, and there are other terms
/// to share texts with.
fn is_named_word(p: &Shared, names: &[Text], id: MonoId) -> bool
    ensures { IsTrue result → (0 < length names.now)
        × (length p.now.monos.now.limits ≤ length names.now) × (id.0 < words p.now.monos.now) }
{
    FEW_TERMS <= p.list.len()
        && !names.is_empty()
        && p.monos.digits().count() <= names.len()
        && id.0 < p.monos.words()
}

/// Appends the powers of a monomial.
fn push_powers(
    alloc: Global,
    out: &mut Vec<u8>,
    p: &Shared,
    names: &[Text],
    id: MonoId,
) -> Result<(), NoMemory>
    requires index { IsIndexOf p.now id }
    requires names { AreNames p.now.vars.now names.now }
    ensures { OnOk result (out.new.items
        ≡ out.old.items ++ flat_map power_text (told_powers p.now id)) }
{
    let mut rest = id;
    while let Some(first) = p.first_power(rest) {
        push_named_power(alloc, out, names, &first)?;
        rest = first.rest;
    }
    Ok(())
}

/// Appends a power, by what was made of its variable where that was made.
fn push_named_power(
    alloc: Global,
    out: &mut Vec<u8>,
    names: &[Text],
    first: &FirstPower,
) -> Result<(), NoMemory>
    requires { IfSome (slice_get names.now first.now.number)
        (λ name. name ≡ starred first.now.var) }
    ensures { OnOk result (out.new.items
        ≡ out.old.items ++ power_text (first.now.var, first.now.exponent)) }
{
    match names.get(first.number as usize) {
        Some(name) => {
            out.extend_from_slice(&name.bytes)?;
            push_exponent(alloc, out, first.exponent)
        }
        None => push_power(alloc, out, first.var, first.exponent),
    }
}

/// Appends a sign, also `+`, and the absolute value.
fn push_coefficient(alloc: Global, out: &mut Vec<u8>, c: i128) -> Result<(), NoMemory>
    ensures { OnOk result (out.new.items
        ≡ out.old.items ++ sign_text c ++ decimal (unsigned_abs c)) }
{
    if c >= 0 {
        out.push(b'+')?;
    }
    push_integer(alloc, out, c)
}

/// Appends the number and the powers of a factor.
pub(crate) fn push_factor(alloc: Global, out: &mut Vec<u8>, factor: &Factor) -> Result<(), NoMemory>
    ensures { OnOk result (out.new.items ≡ out.old.items ++ factor_text factor.now) }
{
    push_integer(alloc, out, factor.coef())?;
    for j in 0..factor.powers() {
        let (variable, exponent) = factor.power(j);
        push_power(alloc, out, variable, exponent)?;
    }
    Ok(())
}

/// Appends `*`, a variable, and its exponent where that is not 1.
fn push_power(
    alloc: Global,
    out: &mut Vec<u8>,
    variable: Var,
    exponent: u32,
) -> Result<(), NoMemory>
    ensures { OnOk result (out.new.items ≡ out.old.items ++ power_text (variable, exponent)) }
{
    out.push(b'*')?;
    push_variable(alloc, out, variable)?;
    push_exponent(alloc, out, exponent)
}

/// `*` and the name of each variable, made once for all its powers; none where there are fewer terms
/// than variables.
fn names_of(alloc: Global, p: &Shared) -> Result<Vec<Text>, NoMemory>
    ensures { IfOk result (λ names. AreNames p.now.vars.now names.items) }
{
    let mut names = Vec::new(alloc);
    if p.list.len() < p.vars.len() {
        return Ok(names);
    }
    for v in p.vars {
        names.push(starred_name(alloc, *v)?)?;
    }
    Ok(names)
}

/// `*` and the name of a variable.
fn starred_name(alloc: Global, variable: Var) -> Result<Text, NoMemory>
    ensures { IfOk result (λ name. name ≡ starred variable) }
{
    let mut bytes = Vec::new(alloc);
    bytes.push(b'*')?;
    push_variable(alloc, &mut bytes, variable)?;
    Ok(Text { bytes })
}

/// Appends the name of a variable.
fn push_variable(alloc: Global, out: &mut Vec<u8>, variable: Var) -> Result<(), NoMemory>
    ensures { OnOk result (out.new.items ≡ out.old.items ++ variable_name variable) }
{
    match variable {
        Var::R(a, b, c, d) => push_name(alloc, out, b'R', a.0, &[b.0, c.0, d.0]),
        Var::S(a, b, c) => push_name(alloc, out, b'S', a.0, &[b.0, c.0]),
        Var::P(a, b, c) => push_name(alloc, out, b'P', a.0, &[b.0, c.0]),
        Var::X(a) => push_name(alloc, out, b'x', a.0, &[]),
        Var::Y(a) => push_name(alloc, out, b'y', a.0, &[]),
        Var::T(t) => push_name(alloc, out, b't', t.0, &[]),
    }
}

/// Appends a letter, and numbers with dots between them.
fn push_name(
    alloc: Global,
    out: &mut Vec<u8>,
    letter: u8,
    first: u32,
    others: &[u32],
) -> Result<(), NoMemory>
    ensures { OnOk result (out.new.items
        ≡ out.old.items ++ (letter ∷ numbers_text (first ∷ others.now))) }
{
    out.push(letter)?;
    push_number(alloc, out, first)?;
    for number in others {
        out.push(b'.')?;
        push_number(alloc, out, *number)?;
    }
    Ok(())
}
