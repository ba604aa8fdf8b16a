//! Runs of terms: that each call succeeds with ample memory. What is expected was worked out by hand.

ghost use Rattle.std.specs.Prelude.{◌*◌, ◌<◌, ◌^◌, map};
ghost use Rattle.term_runs.specs.Runs.{IsRun, KeysFit, norm_of};

use std::alloc::{AllocError, Global};
use std::test::Fail;
use term_runs::{Keyed, Runs};

/// A key of 64 bits with a coefficient of 64.
type Light = Keyed<u64, i64>;

/// The keys and coefficients of the terms.
fn told(alloc: Global, terms: &[Light]) -> Result<Vec<(u64, i64)>, AllocError> {
    terms.iter().map(|t| (t.key, t.coefficient)).collect(alloc)
}

/// The terms, pushed one by one, but for the last one.
fn pushed(alloc: Global, pairs: &[(u64, i64)]) -> Result<Vec<(u64, i64)>, Fail> {
    let mut runs = Runs::new(alloc);
    for (key, coefficient) in pairs {
        runs.push(Keyed {
            key: *key,
            coefficient: *coefficient,
        })?;
    }
    let count = runs.len();
    if count > 0 {
        runs.truncate(count - 1);
    }
    Ok(told(alloc, runs.terms_from(0))?)
}

/// The product of both runs.
fn products(alloc: Global, left: &[Light], right: &[Light]) -> Result<Vec<(u64, i64)>, Fail>
    requires left { IsRun (map (λ t. (t.key, t.coefficient)) left.now) }
    requires right { IsRun (map (λ t. (t.key, t.coefficient)) right.now) }
    requires keys { KeysFit (2 ^ 64) (map (λ t. (t.key, t.coefficient)) left.now)
        (map (λ t. (t.key, t.coefficient)) right.now) }
    requires norm { norm_of (map (λ t. (t.key, t.coefficient)) left.now)
        * norm_of (map (λ t. (t.key, t.coefficient)) right.now) < 2 ^ 63 }
{
    let mut runs = Runs::new(alloc);
    runs.push_product(left, right)?;
    Ok(told(alloc, runs.terms_from(0))?)
}

#[test]
fn terms_are_pushed(rt: HostRuntime) -> Result<(), Fail> {
    let made = pushed(rt.alloc(), &[(9, 2), (5, -1), (9, 1)])?;
    assert_eq!(rt; made.as_slice(), [(9, 2), (5, -1)].as_slice());
    Ok(())
}

#[test]
fn runs_are_multiplied(rt: HostRuntime) -> Result<(), Fail> {
    let left = [
        Keyed {
            key: 8,
            coefficient: 2,
        },
        Keyed {
            key: 4,
            coefficient: 2,
        },
        Keyed {
            key: 0,
            coefficient: 2,
        },
    ];
    let right = [
        Keyed {
            key: 4,
            coefficient: 3,
        },
        Keyed {
            key: 0,
            coefficient: -3,
        },
    ];
    let made = products(rt.alloc(), &left, &right)?;
    assert_eq!(rt; made.as_slice(), [(12, 6), (0, -6)].as_slice());
    Ok(())
}
