//! Programs and the problems that are made of them.

use crate::descriptions::describe;
use crate::examples::{EXAMPLES, WEIGHTED};
use geo_conditions::{Problem, list};
use geo_lowering::{lower, lower_old};
use geo_parser::{ParseError, parse};
use std::alloc::Global;
use std::test::Fail;

/// The problem that a text spells. No test has a text that is too long to be parsed.
pub fn problem_of(alloc: Global, text: &str) -> Result<Problem, ParseError> {
    if text.len() > 67_108_864 {
        return Err(ParseError::NoMemory);
    }
    let program = parse(alloc, text.as_bytes())?;
    let lowered = lower(alloc, &program)?;
    Ok(list(alloc, &program, lowered)?)
}

// The problem that a text spells, for logs of version 1.
fn old_problem_of(alloc: Global, text: &str) -> Result<Problem, ParseError> {
    if text.len() > 67_108_864 {
        return Err(ParseError::NoMemory);
    }
    let program = parse(alloc, text.as_bytes())?;
    let lowered = lower_old(alloc, &program)?;
    Ok(list(alloc, &program, lowered)?)
}

#[test]
fn problems_are_those_of_the_reference(rt: HostRuntime) -> Result<(), Fail> {
    for (program, want) in EXAMPLES {
        let Ok(problem) = problem_of(rt.alloc(), program) else {
            assert!(rt; false, "{program}");
            return Ok(());
        };
        let text = describe(rt.alloc(), &problem)?;
        assert_eq!(rt; text.as_str(), *want, "{program}");
    }
    Ok(())
}

#[test]
fn weights_have_a_problem_for_each_version(rt: HostRuntime) -> Result<(), Fail> {
    for (program, want, old) in WEIGHTED {
        let problem = problem_of(rt.alloc(), program);
        let old_problem = old_problem_of(rt.alloc(), program);
        let (Ok(problem), Ok(old_problem)) = (problem, old_problem) else {
            assert!(rt; false, "{program}");
            return Ok(());
        };
        let text = describe(rt.alloc(), &problem)?;
        assert_eq!(rt; text.as_str(), *want, "{program}");
        let text = describe(rt.alloc(), &old_problem)?;
        assert_eq!(rt; text.as_str(), *old, "{program}");
    }
    Ok(())
}
