//! A problem as a text of words with single spaces between, for comparison with another.

use geo_conditions::{Item, Problem};
use geo_points::{NoMemory, PointId, TermId};
use geo_terms::{Node, Step, Steps, Terms};
use std::alloc::Global;

// The term at an index, from the texts of those before it.
fn term_text(texts: &[String], id: TermId) -> &str {
    texts.get(id.0 as usize).map_or("?", String::as_str)
}

// The text of a node, from the texts of the terms before it.
fn node_text(alloc: Global, texts: &[String], node: Node) -> Result<String, NoMemory> {
    let part = |id: TermId| term_text(texts, id);
    let text = match node {
        Node::Int(n) => format!(in alloc; "{n}")?,
        Node::Param(t) => format!(in alloc; "t{}", t.0)?,
        Node::S(a, b, c) => format!(in alloc; "S({},{},{})", a.0, b.0, c.0)?,
        Node::P(a, b, c) => format!(in alloc; "P({},{},{})", a.0, b.0, c.0)?,
        Node::R(a, b, c, d) => format!(in alloc; "R({},{},{},{})", a.0, b.0, c.0, d.0)?,
        Node::Neg(e) => format!(in alloc; "neg({})", part(e))?,
        Node::Add(e, f) => format!(in alloc; "add({},{})", part(e), part(f))?,
        Node::Sub(e, f) => format!(in alloc; "sub({},{})", part(e), part(f))?,
        Node::Mul(e, f) => format!(in alloc; "mul({},{})", part(e), part(f))?,
        Node::Div(e, f) => format!(in alloc; "div({},{})", part(e), part(f))?,
    };
    Ok(text)
}

// The text of each term of a store.
fn term_texts(alloc: Global, terms: &Terms) -> Result<Vec<String>, NoMemory> {
    let mut texts = Vec::new(alloc);
    for id in 0..terms.len() {
        texts.push(node_text(alloc, &texts, terms.node(TermId(id)))?)?;
    }
    Ok(texts)
}

// The word of a step, its points and its numbers.
fn step_text(alloc: Global, texts: &[String], step: Step) -> Result<String, NoMemory> {
    let text = match step {
        Step::Point => format!(in alloc; "point")?,
        Step::Inter { u, v, p, q } => {
            format!(in alloc; "inter {} {} {} {}", u.0, v.0, p.0, q.0)?
        }
        Step::Foot { p, u, v } => format!(in alloc; "foot {} {} {}", p.0, u.0, v.0)?,
        Step::Pratio { w, u, v, r } => {
            format!(in alloc; "pratio {} {} {} {}", w.0, u.0, v.0, term_text(texts, r))?
        }
        Step::Tratio { u, v, r } => {
            format!(in alloc; "tratio {} {} {}", u.0, v.0, term_text(texts, r))?
        }
        Step::Weights { o, u, v, r, s } => {
            let (r, s) = (term_text(texts, r), term_text(texts, s));
            format!(in alloc; "weights {} {} {} {r} {s}", o.0, u.0, v.0)?
        }
    };
    Ok(text)
}

// Appends each step with its number.
fn push_steps(
    alloc: Global,
    out: &mut String,
    texts: &[String],
    steps: &Steps,
) -> Result<(), NoMemory> {
    write!(out, " made {} {}", steps.count(), steps.params())?;
    for k in 0..steps.count() {
        let text = step_text(alloc, texts, steps.step(PointId(k)))?;
        write!(out, " {k}: {text}")?;
    }
    Ok(())
}

// Appends each condition or goal: its line, its text and its term.
fn push_items(
    out: &mut String,
    texts: &[String],
    word: &str,
    items: &[Item],
) -> Result<(), NoMemory> {
    for item in items {
        let text = str::from_utf8(item.text.bytes.as_slice()).unwrap_or("?");
        let term = term_text(texts, item.term);
        write!(out, " {word} {} {text}: {term}", item.line)?;
    }
    Ok(())
}

// Appends a word and numbers.
fn push_numbers(out: &mut String, word: &str, numbers: &[u32]) -> Result<(), NoMemory> {
    write!(out, "{word}")?;
    for number in numbers {
        write!(out, " {number}")?;
    }
    Ok(())
}

// Appends the two points of each line.
fn push_lines(out: &mut String, lines: &[(PointId, PointId)]) -> Result<(), NoMemory> {
    write!(out, " lines")?;
    for (a, b) in lines {
        write!(out, " {}-{}", a.0, b.0)?;
    }
    Ok(())
}

/// The places of the points, lines and parameters that have names, the number of points after each
/// command, the numbers
/// of points and parameters that are made, each step, each condition and each goal.
pub fn describe(alloc: Global, problem: &Problem) -> Result<String, NoMemory> {
    let points: Vec<u32> = problem.points.items.iter().map(|y| y.0).collect(alloc)?;
    let params: Vec<u32> = problem.params.items.iter().map(|t| t.0).collect(alloc)?;
    let texts = term_texts(alloc, problem.steps.look())?;
    let mut out = String::new(alloc);
    push_numbers(&mut out, "points", &points)?;
    push_lines(&mut out, &problem.lines.items)?;
    push_numbers(&mut out, " params", &params)?;
    push_numbers(&mut out, " after", &problem.after.items)?;
    push_steps(alloc, &mut out, &texts, &problem.steps)?;
    push_items(&mut out, &texts, "condition", &problem.conditions.items)?;
    push_items(&mut out, &texts, "goal", &problem.goals.items)?;
    Ok(out)
}
