//! What is a line and what is not.

use geo_points::NoMemory;
use proof_log::{LineError, read_line, write_line};
use std::alloc::Global;
use std::test::Fail;

// Lines, each with its one spelling.
const LINES: &[&[u8]] = &[
    b"geolog 1",
    b"geolog 2",
    b"| point A",
    b"| ",
    b"|  point A",
    b"condition 1 not_parallel A B A B",
    b"condition 1 ",
    b"goal 1 ",
    b"goal 4294967295 collinear A B C",
    b"start : 0",
    b"start : -1*S0.1.2",
    b"start : +1*t0 -170141183460469231731687303715884105726",
    b"start : +1*R0.6.1.6*R1.4.2.4*R2.5.0.5 +1",
    b"start : +1*P2.3.2",
    b"start : +1*P0.1.2*P0.2.1*P1.0.2",
    b"start : +1*x0^65535",
    b"start : +1*x4294967295*y4294967295*t4294967295",
    b"ratio R0.6.1.6 by 21 at 6 : +1*S0.2.3 +1*S1.2.3",
    b"ratio R0.1.0.2 by 0 : 0",
    b"ratio R0.1.0.2 by 5 at 3 : 0",
    b"ratio R0.1.0.4294967295 by 4294967295 at 4294967295 : 0",
    b"point 2 : 0",
    b"point 4294967295 : 0",
    b"coords : +2*x2^2 -4*x2*x3 +2*y2^2 -4*y2*y3 +2*x3^2 +2*y3^2",
    b"cut -1 : +1*S0.1.2",
    b"cut 1 : +1*S0.1.2",
    b"cut 5 : 0",
    b"cut -3*x0^2*t1 : 0",
    b"cut 2*x0^65535 : 0",
    b"end",
    b"sample",
    b"sample x0=5 y0=-1 x1=0 y1=7",
    b"sample S0.1.2=3 R0.1.0.2=1 x999=0 x999=0",
    b"sample t0=-170141183460469231731687303715884105727",
    b"verdict proved",
    b"verdict false 0",
    b"verdict impossible 0",
    b"verdict false 4294967295",
    b"stop spent 0",
    b"stop spent 18446744073709551615",
    b"stop too_large 0 norm",
    b"stop too_large 5 degree",
];

// Bytes that are no line.
const OTHERS: &[&[u8]] = &[
    b"",
    b"geolog",
    b"geolog ",
    b"geolog 0",
    b"geolog 3",
    b"geolog 01",
    b"geolog 12",
    b"geolog 1 ",
    b"|",
    b"| a\nb",
    b"condition 1",
    b"condition 0 x",
    b"goal 0 x",
    b"goal 1",
    b"goal 01 x",
    b"goal 4294967296 x",
    b"start : ",
    b"start: 0",
    b"start : 0 ",
    b"start :  0",
    b"start : 1*x0",
    b"start : +0*x0",
    b"start : +1*x0^1",
    b"start : +1*x0^0",
    b"start : +1*x0^2^3",
    b"start : +1*S0.1",
    b"start : +1*x0*x0",
    b"start : +1*y0*x0",
    b"start : +1*S0.2.1",
    b"start : +1*P1.0.1",
    b"start : +1*P2.1.0",
    b"start : +1*P0.0.1",
    b"start : +1*R0.1.0.1",
    b"start : +1*R1.0.2.3",
    b"start : +1 +1*x0",
    b"start : +1*x0 +1*x0",
    b"start : +1*x0  +1",
    b"start : +1*x0 +1 ",
    b"start : -0",
    b"start : +01",
    b"start : +1*x00",
    b"start : +1*x4294967296",
    b"start : +1*x0^65536",
    b"start : +1*x0^65535*y0",
    b"start : +1*t0 -170141183460469231731687303715884105727",
    b"start : +170141183460469231731687303715884105728",
    b"ratio S0.1.2 by 0 : 0",
    b"ratio R0.1.0.2 by 0 at 3 : 0",
    b"ratio R0.1.0.2 by 11 : 0",
    b"ratio R0.1.0.1 by 0 : 0",
    b"ratio R1.0.0.2 by 0 : 0",
    b"point -1 : 0",
    b"point 4294967296 : 0",
    b"point 2 :0",
    b"cut +5 : 0",
    b"cut 0 : 0",
    b"cut x0 : 0",
    b"cut 2*x0^1 : 0",
    b"cut 2*x0^65535*x1 : 0",
    b"end ",
    b"sample ",
    b"sample  x0=1",
    b"sample x0=-0",
    b"sample x0=+1",
    b"sample x0=1 ",
    b"sample S0.2.1=3",
    b"sample x0=170141183460469231731687303715884105728",
    b"verdict",
    b"verdict proved ",
    b"verdict false",
    b"verdict false 4294967296",
    b"stop spent -1",
    b"stop spent 18446744073709551616",
    b"stop too_large 1",
    b"stop too_large 1 norms",
    b"stop too_large 18446744073709551616 norm",
];

// Whether the bytes are a line, which is then written as it was read.
fn is_line(alloc: Global, bytes: &[u8]) -> Result<bool, NoMemory> {
    match read_line(alloc, bytes) {
        Ok(line) => {
            let text = write_line(alloc, &line)?;
            Ok(text.bytes.as_slice().strip_suffix(b"\n") == Some(bytes))
        }
        Err(LineError::BadLine) => Ok(false),
        Err(LineError::NoMemory) => Err(NoMemory),
    }
}

#[test]
fn lines_are_read_and_written(rt: HostRuntime) -> Result<(), Fail> {
    for text in LINES {
        let found = is_line(rt.alloc(), text)?;
        assert!(rt; found, "{text:?}");
    }
    Ok(())
}

#[test]
fn others_are_refused(rt: HostRuntime) -> Result<(), Fail> {
    for text in OTHERS {
        let found = is_line(rt.alloc(), text)?;
        assert!(rt; !found, "{text:?}");
    }
    Ok(())
}
