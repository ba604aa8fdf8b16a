//! Moves whose line has the greatest degree, and one more. What is expected was written by a plain
//! reference, which is no
//! part of this repository.

use crate::chains::{Item, Named};
use crate::moves::{item_text, problem_of};
use geo_points::NoMemory;
use std::alloc::Global;
use std::test::Fail;

// The text of an expression to the power 2 ^ times.
fn power_text(alloc: Global, expression: &str, times: u32) -> Result<String, NoMemory> {
    let mut power = format!(in alloc; "{expression}")?;
    for _time in 0..times {
        power = format!(in alloc; "mult {{ {power} }} {{ {power} }}")?;
    }
    Ok(power)
}

// The text of an expression to powers 2 ^ times, times another.
fn product_text(
    alloc: Global,
    expression: &str,
    powers: &[u32],
    other: String,
) -> Result<String, NoMemory> {
    let mut product = other;
    for times in powers {
        let power = power_text(alloc, expression, *times)?;
        product = format!(in alloc; "mult {{ {power} }} {{ {product} }}")?;
    }
    Ok(product)
}

// The point with Y - A = (B - A)/r^2048, and the 31st power of an area with it, times powers of r.
fn steep_program(alloc: Global, powers: &[u32]) -> Result<String, NoMemory> {
    let number = power_text(alloc, "r", 11)?;
    let one = format!(in alloc; "1")?;
    let area = product_text(alloc, "signed_area3 A C Y", &[4, 3, 2, 1, 0], one)?;
    let term = product_text(alloc, "r", powers, area)?;
    Ok(format!(in alloc;
        "param r point A point B point C pratio Y A A B div {{ 1 }} {{ {number} }} \
         lratio N A B div {{ 1 }} {{ {term} }} prove {{ identical A B }}"
    )?)
}

// The exponents of the powers of r, and the chain: the row has degree 2049, and the line 31 * 2049
// and the powers of r.
const STEEP: &[(&[u32], &str)] = &[
    (
        &[10, 9, 8, 7, 6, 5],
        "start 4094: +1*S0.2.3^31*t0^2016; \
         S0.2.3 power 1 num 3 3 2049 den 1 1 2048 charge 4096; \
         gives 19765548681090416: -1*S0.1.2^31*t0^2016",
    ),
    (
        &[10, 9, 8, 7, 6, 5, 0],
        "start 4096: +1*S0.2.3^31*t0^2017; \
         S0.2.3 power 1 num 3 3 2049 den 1 1 2048 charge 4096; \
         gives 19765548681090416: too large degree",
    ),
];

// The chain, as a text.
fn steep_text(alloc: Global, powers: &[u32]) -> Result<String, NoMemory> {
    let program = steep_program(alloc, powers)?;
    match problem_of(alloc, &program) {
        Ok(problem) => item_text(alloc, &problem, Item::Condition(2), &[Named::Point(3)]),
        Err(_) => Ok(format!(in alloc; "not read")?),
    }
}

#[test]
fn degrees_are_bounded_as_in_the_reference(rt: HostRuntime) -> Result<(), Fail> {
    for (powers, want) in STEEP {
        let text = steep_text(rt.alloc(), powers)?;
        assert_eq!(rt; text.as_str(), *want);
    }
    Ok(())
}
