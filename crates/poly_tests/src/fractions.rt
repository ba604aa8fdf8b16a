//! What no clause says: that each call succeeds with ample memory. What is expected was worked out
//! by another program.

ghost use Rattle.std.specs.Prelude.{◌<◌, ◌≤◌, IsTrue, length};
ghost use Rattle.geo_terms.specs.Stores.{HasChildrenBelow, HasShortInteger};

use crate::spelling::spelled;
use fraction_poly::{
    Draft, KnownNumbers, Number, Numbers, RowDraft, StepTerms, StoreNumbers, measure,
    multiply_out_uncounted,
};
use geo_points::{NoMemory, ParamId, PointId, TermId};
use geo_poly::{MAX, MAX_DEGREE, Poly, Var};
use geo_terms::{Node, Terms};
use std::alloc::Global;
use std::test::Fail;

/// Whether the node may be added to this many.
fn is_for(node: Node, len: u32) -> bool
    ensures children { IsTrue result → HasChildrenBelow len node }
    ensures integer { IsTrue result → HasShortInteger node }
{
    match node {
        Node::Int(n) => n > i128::MIN,
        Node::Neg(e) => e.0 < len,
        Node::Add(e, f) | Node::Sub(e, f) | Node::Mul(e, f) | Node::Div(e, f) => {
            e.0 < len && f.0 < len
        }
        _ => true,
    }
}

/// A store with the nodes, as far as they may be added.
fn stored(alloc: Global, nodes: &[Node]) -> Result<Terms, NoMemory> {
    let mut terms = Terms::new(alloc)?;
    for node in nodes {
        if terms.len() < 1000 && is_for(*node, terms.len()) {
            terms.intern(*node)?;
        }
    }
    Ok(terms)
}

/// The term multiplied by itself, and the product by itself, and so on.
fn squared(terms: &mut Terms, id: TermId, times: u32) -> Result<TermId, NoMemory> {
    let mut last = id;
    for _ in 0..times {
        let square = Node::Mul(last, last);
        if terms.len() < 1000 && is_for(square, terms.len()) {
            last = terms.intern(square)?;
        }
    }
    Ok(last)
}

/// The numerator and the denominator of the term, where it may be multiplied out.
fn fraction_of(alloc: Global, terms: &Terms, id: TermId) -> Result<Option<(Poly, Poly)>, NoMemory>
    requires { id.0 < length terms.now }
{
    if measure(alloc, terms, id)?.has_room() {
        return Ok(Some(multiply_out_uncounted(alloc, terms, id)?));
    }
    Ok(None)
}

/// Whether the term has these numbers, and a numerator and a denominator that are spelled so.
fn is_told(
    alloc: Global,
    terms: &Terms,
    id: TermId,
    numbers: Numbers,
    texts: [&str; 2],
) -> Result<bool, NoMemory>
    requires { id.0 < length terms.now }
{
    if measure(alloc, terms, id)? != numbers {
        return Ok(false);
    }
    match fraction_of(alloc, terms, id)? {
        Some((n, d)) => Ok(
            spelled(alloc, &n)?.as_str() == texts[0] && spelled(alloc, &d)?.as_str() == texts[1],
        ),
        None => Ok(false),
    }
}

/// The numbers of the list.
fn numbers([wn, wd, kn, kd, gn, gd, charge]: [u128; 7]) -> Numbers {
    Numbers {
        wn,
        wd,
        kn,
        kd,
        gn,
        gd,
        charge,
    }
}

#[test]
fn leaves_are_multiplied_out(rt: HostRuntime) -> Result<(), Fail> {
    let alloc = rt.alloc();
    let [a, b, c] = [PointId(0), PointId(1), PointId(2)];
    let table = [
        (Node::Int(0), [1, 1, 1, 1, 0, 0, 0], "0"),
        (Node::Int(-7), [7, 1, 1, 1, 0, 0, 0], "-7"),
        (Node::Param(ParamId(3)), [1, 1, 1, 1, 1, 0, 0], "+1*t3"),
        (Node::S(a, b, c), [1, 1, 1, 1, 1, 0, 0], "+1*S0.1.2"),
        (Node::S(b, a, c), [1, 1, 1, 1, 1, 0, 0], "-1*S0.1.2"),
        (Node::S(a, c, a), [1, 1, 1, 1, 1, 0, 0], "0"),
    ];
    for (node, list, text) in table {
        let terms = stored(alloc, &[node])?;
        assert_eq!(rt; terms.len(), 1);
        let told = is_told(alloc, &terms, TermId(0), numbers(list), [text, "+1"])?;
        assert!(rt; told, "at {text}");
    }
    Ok(())
}

/// 2 / t0 and t1 / 2, and then the node, which has the index 5.
fn stored_with_fractions(alloc: Global, node: Node) -> Result<Terms, NoMemory> {
    let two = TermId(1);
    let nodes = [
        Node::Param(ParamId(0)),
        Node::Int(2),
        Node::Div(two, TermId(0)),
        Node::Param(ParamId(1)),
        Node::Div(TermId(3), two),
        node,
    ];
    stored(alloc, &nodes)
}

#[test]
fn fractions_are_multiplied_out(rt: HostRuntime) -> Result<(), Fail> {
    let alloc = rt.alloc();
    let [e, f] = [TermId(2), TermId(4)];
    let table = [
        (Node::Neg(e), [2, 1, 1, 1, 0, 1, 2], ["-2", "+1*t0"]),
        (
            Node::Add(e, f),
            [5, 2, 2, 1, 2, 1, 7],
            ["+1*t0*t1 +4", "+2*t0"],
        ),
        (
            Node::Sub(e, f),
            [5, 2, 2, 1, 2, 1, 7],
            ["-1*t0*t1 +4", "+2*t0"],
        ),
        (Node::Mul(e, f), [2, 2, 1, 1, 1, 1, 6], ["+2*t1", "+2*t0"]),
        (Node::Div(e, f), [4, 1, 1, 1, 0, 2, 6], ["+4", "+1*t0*t1"]),
    ];
    for (node, list, texts) in table {
        let terms = stored_with_fractions(alloc, node)?;
        assert_eq!(rt; terms.len(), 6);
        let told = is_told(alloc, &terms, TermId(5), numbers(list), texts)?;
        assert!(rt; told, "at {}", texts[0]);
    }
    Ok(())
}

#[test]
fn squares_are_multiplied_out(rt: HostRuntime) -> Result<(), Fail> {
    let alloc = rt.alloc();
    let nodes = [
        Node::Int(2),
        Node::Param(ParamId(0)),
        Node::Add(TermId(0), TermId(1)),
    ];
    let mut terms = stored(alloc, &nodes)?;
    let last = squared(&mut terms, TermId(2), 2)?;
    assert!(rt; last.0 == 4 && terms.len() == 5);
    let expected = numbers([81, 1, 16, 1, 4, 0, 39]);
    let text = "+1*t0^4 +8*t0^3 +24*t0^2 +32*t0 +16";
    assert!(rt; is_told(alloc, &terms, last, expected, [text, "+1"])?);
    Ok(())
}

#[test]
fn differences_of_areas_are_multiplied_out(rt: HostRuntime) -> Result<(), Fail> {
    let alloc = rt.alloc();
    let nodes = [
        Node::S(PointId(2), PointId(1), PointId(0)),
        Node::Int(2),
        Node::Add(TermId(0), TermId(1)),
        Node::Sub(TermId(0), TermId(1)),
        Node::Div(TermId(2), TermId(3)),
        Node::Sub(TermId(4), TermId(4)),
    ];
    let terms = stored(alloc, &nodes)?;
    assert_eq!(rt; terms.len(), 6);
    let expected = numbers([18, 9, 8, 4, 2, 2, 32]);
    let texts = ["0", "+1*S0.1.2^2 +4*S0.1.2 +4"];
    assert!(rt; is_told(alloc, &terms, TermId(5), expected, texts)?);
    Ok(())
}

#[test]
fn a_hundred_squares_are_measured(rt: HostRuntime) -> Result<(), Fail> {
    let alloc = rt.alloc();
    let nodes = [
        Node::Int(2),
        Node::Param(ParamId(0)),
        Node::Add(TermId(0), TermId(1)),
        Node::Param(ParamId(1)),
        Node::Sub(TermId(3), TermId(0)),
        Node::Div(TermId(2), TermId(4)),
    ];
    let mut terms = stored(alloc, &nodes)?;
    let most = u128::MAX;
    let degree = 1 << 100;
    let table = [
        (0, [3, 3, 2, 2, 1, 1, 10]),
        (100, [most, most, most, most, degree, degree, most]),
        (28, [most; 7]),
    ];
    let mut last = TermId(5);
    for (times, list) in table {
        last = squared(&mut terms, last, times)?;
        assert!(rt; last.0 < terms.len());
        assert_eq!(rt; measure(alloc, &terms, last)?, numbers(list));
    }
    assert_eq!(rt; last.0, 133);
    Ok(())
}

/// Whether each node alone has the numbers of a quantity, and is the text over 1.
fn are_quantities(alloc: Global, table: &[(Node, &str)]) -> Result<bool, NoMemory> {
    for (node, text) in table {
        let terms = stored(alloc, &[*node])?;
        let expected = numbers([1, 1, 1, 1, 1, 0, 0]);
        if terms.is_empty() || !is_told(alloc, &terms, TermId(0), expected, [text, "+1"])? {
            return Ok(false);
        }
    }
    Ok(true)
}

#[test]
fn differences_and_ratios_are_multiplied_out(rt: HostRuntime) -> Result<(), Fail> {
    let [a, b, c, d] = [PointId(0), PointId(1), PointId(2), PointId(3)];
    let table = [
        (Node::P(c, b, a), "+1*P0.1.2"),
        (Node::P(b, a, b), "+1*P0.1.0"),
        (Node::P(a, a, b), "0"),
        (Node::R(b, a, d, c), "+1*R0.1.2.3"),
        (Node::R(a, b, d, c), "-1*R0.1.2.3"),
        (Node::R(a, b, b, a), "-1"),
        (Node::R(a, a, b, c), "0"),
    ];
    assert!(rt; are_quantities(rt.alloc(), &table)?);
    Ok(())
}

#[test]
fn a_ratio_divides(rt: HostRuntime) -> Result<(), Fail> {
    let alloc = rt.alloc();
    let [a, b, c, d] = [PointId(0), PointId(1), PointId(2), PointId(3)];
    let nodes = [
        Node::P(a, b, c),
        Node::R(b, a, c, d),
        Node::Add(TermId(0), TermId(1)),
        Node::Div(TermId(2), TermId(1)),
    ];
    let terms = stored(alloc, &nodes)?;
    assert_eq!(rt; terms.len(), 4);
    let expected = numbers([2, 1, 2, 1, 1, 1, 6]);
    let texts = ["-1*R0.1.2.3 +1*P0.1.2", "-1*R0.1.2.3"];
    assert!(rt; is_told(alloc, &terms, TermId(3), expected, texts)?);
    Ok(())
}

/// t0, and then terms each of which is t0 divided by the one before.
fn nested_divisions(alloc: Global, times: u32) -> Result<Terms, NoMemory> {
    let mut terms = stored(alloc, &[Node::Param(ParamId(0))])?;
    for k in 0..times {
        let node = Node::Div(TermId(0), TermId(k));
        if terms.len() < 3000 && is_for(node, terms.len()) {
            terms.intern(node)?;
        }
    }
    Ok(terms)
}

/// The numbers of t0 divided by the term before, so many times: t0 to powers of which the
/// numerator's is as great as the denominator's, or greater by 1.
fn numbers_of_nested(times: u32) -> Numbers {
    let k = u128::from(times);
    numbers([1, 1, 1, 1, k / 2 + 1, (k + 1) / 2, 2 * k])
}

/// Whether each of the first terms has the numbers of so many divisions.
fn are_nested(table: &StoreNumbers, len: u32) -> bool
    requires { len ≤ length table.now }
{
    for k in 0..len {
        if table.numbers(TermId(k)) != numbers_of_nested(k) {
            return false;
        }
    }
    true
}

#[test]
fn nested_divisions_are_measured_at_once(rt: HostRuntime) -> Result<(), Fail> {
    let alloc = rt.alloc();
    let terms = nested_divisions(alloc, 2000)?;
    assert_eq!(rt; terms.len(), 2001);
    let table = StoreNumbers::new(alloc, &terms)?;
    assert!(rt; are_nested(&table, 2001));
    let texts = ["+1*t0^1001", "+1*t0^1000"];
    assert!(rt; is_told(alloc, &terms, TermId(2000), numbers_of_nested(2000), texts)?);
    Ok(())
}

#[test]
fn other_terms_of_the_store_are_passed_over(rt: HostRuntime) -> Result<(), Fail> {
    let alloc = rt.alloc();
    let mut terms = nested_divisions(alloc, 2000)?;
    assert_eq!(rt; terms.len(), 2001);
    let square = terms.intern(Node::Mul(TermId(0), TermId(0)))?;
    let expected = numbers([1, 1, 1, 1, 2, 0, 2]);
    assert!(rt; is_told(alloc, &terms, square, expected, ["+1*t0^2", "+1"])?);
    Ok(())
}

/// Whether the draft, over the numbers at the two indices, is within the bounds and spelled so.
fn is_drafted(
    alloc: Global,
    terms: &Terms,
    ids: (TermId, TermId),
    num: Draft,
    text: &str,
) -> Result<bool, NoMemory>
    requires first { ids.0.0 < length terms.now }
    requires second { ids.1.0 < length terms.now }
{
    let row = RowDraft {
        power: 1,
        num,
        den: Draft::Integer(1),
        terms: StepTerms {
            first: Some(ids.0),
            second: Some(ids.1),
        },
    };
    let mut known = KnownNumbers::new(alloc)?;
    let numbers = row.numbers(alloc, terms, &mut known)?;
    let [first, second] = [measure(alloc, terms, ids.0)?, measure(alloc, terms, ids.1)?];
    if !first.has_room() || !second.has_room() {
        return Ok(false);
    }
    if numbers.wa > MAX as u128 || numbers.ga > MAX_DEGREE as u128 {
        return Ok(false);
    }
    let made = row.row(alloc, terms, &mut known, Var::X(PointId(0)))?;
    Ok(spelled(alloc, &made.num.poly)?.as_str() == text)
}

/// t0 / t1 and t1 / t0, which have the indices 2 and 3.
fn stored_quotients(alloc: Global) -> Result<Terms, NoMemory> {
    let [t, u] = [Node::Param(ParamId(0)), Node::Param(ParamId(1))];
    let quotients = [
        Node::Div(TermId(0), TermId(1)),
        Node::Div(TermId(1), TermId(0)),
    ];
    stored(alloc, &[t, u, quotients[0], quotients[1]])
}

/// The indices of both quotients.
const QUOTIENTS: (TermId, TermId) = (TermId(2), TermId(3));

#[test]
fn leaves_of_drafts_are_multiplied_out(rt: HostRuntime) -> Result<(), Fail> {
    let alloc = rt.alloc();
    let [a, b, c, d] = [PointId(0), PointId(1), PointId(2), PointId(3)];
    let terms = stored_quotients(alloc)?;
    assert_eq!(rt; terms.len(), 4);
    let table = [
        (Draft::Integer(0), "0"),
        (Draft::Integer(7), "+7"),
        (Draft::Area(b, a, c), "-1*S0.1.2"),
        (Draft::Area(a, b, a), "0"),
        (Draft::Pythagoras(c, b, a), "+1*P0.1.2"),
        (Draft::Pythagoras(a, a, b), "0"),
        (Draft::Ratio(b, a, c, d), "-1*R0.1.2.3"),
        (Draft::Ratio(b, a, a, b), "-1"),
        (Draft::Abscissa(b), "+1*x1"),
        (Draft::Ordinate(c), "+1*y2"),
        (Draft::Numerator(Number::First), "+1*t0"),
        (Draft::Denominator(Number::First), "+1*t1"),
        (Draft::Numerator(Number::Second), "+1*t1"),
        (Draft::Denominator(Number::Second), "+1*t0"),
    ];
    for (draft, text) in table {
        assert!(rt;
            is_drafted(alloc, &terms, QUOTIENTS, draft, text)?,
            "at {text}"
        );
    }
    Ok(())
}

/// The sum and the difference of the two coordinates of the first point.
fn sum_and_difference(alloc: Global) -> Result<(Draft, Draft), NoMemory> {
    let [x, y] = [Draft::Abscissa(PointId(0)), Draft::Ordinate(PointId(0))];
    let sum = x.plus(alloc, y)?;
    let [x, y] = [Draft::Abscissa(PointId(0)), Draft::Ordinate(PointId(0))];
    Ok((sum, x.minus(alloc, y)?))
}

#[test]
fn drafts_are_multiplied_out(rt: HostRuntime) -> Result<(), Fail> {
    let alloc = rt.alloc();
    let [a, b, c] = [PointId(0), PointId(1), PointId(2)];
    let terms = stored_quotients(alloc)?;
    assert_eq!(rt; terms.len(), 4);
    let (sum, difference) = sum_and_difference(alloc)?;
    let doubled = Draft::Abscissa(a).plus(alloc, Draft::Abscissa(a))?;
    let nothing = Draft::Area(a, b, c).plus(alloc, Draft::Area(b, a, c))?;
    let shifted = Draft::Integer(3).minus(alloc, Draft::Ordinate(a))?;
    let scaled = Draft::Area(a, b, c).plus(alloc, Draft::Denominator(Number::Second))?;
    let table = [
        (sum.times(alloc, difference)?, "+1*x0^2 -1*y0^2"),
        (doubled, "+2*x0"),
        (nothing, "0"),
        (shifted.opposite(alloc)?, "+1*y0 -3"),
        (
            Draft::Numerator(Number::First).times(alloc, scaled)?,
            "+1*S0.1.2*t0 +1*t0^2",
        ),
    ];
    for (draft, text) in table {
        assert!(rt;
            is_drafted(alloc, &terms, QUOTIENTS, draft, text)?,
            "at {text}"
        );
    }
    Ok(())
}
