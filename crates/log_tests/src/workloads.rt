//! The program of the smallest workload. What is expected was written by hand.

use geo_program::print;
use geo_prover::bench_program;
use std::test::Fail;

const TEXT: &[u8] = b"point A0\npoint B0\npoint C0\npoint D0\n\
midpoint A1 A0 B0\nmidpoint B1 B0 C0\nmidpoint C1 C0 D0\nmidpoint D1 D0 A0\n\
midpoint X A1 C1\nmidpoint Y A1 C1\n\
prove { equal { signed_area3 A0 X B0 } { signed_area3 A0 Y B0 } }\n";

#[test]
fn the_smallest_workload_is_printed(rt: HostRuntime) -> Result<(), Fail> {
    let program = bench_program(rt.alloc(), 1)?;
    let text = print(rt.alloc(), &program)?;
    assert!(rt; text.bytes.as_slice() == TEXT);
    Ok(())
}
