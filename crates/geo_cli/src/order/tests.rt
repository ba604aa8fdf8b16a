//! Words that are an order, and words that are none.
use super::{Command, Order, order_of};
use std::alloc::{AllocError, Global};
use std::test::Fail;

/// The order of the words of a line, one space after each but the last.
fn order_of_line(alloc: Global, line: &str) -> Result<Option<Order>, AllocError> {
    let mut words = Vec::new(alloc);
    for word in line.split(' ') {
        words.push(String::from_str(alloc, word)?)?;
    }
    Ok(order_of(&words))
}

#[test]
fn reads_orders(rt: HostRuntime) -> Result<(), Fail> {
    let table = [
        ("prove", Command::Prove, 100_000_000),
        ("check", Command::Check, 100_000_000),
        ("text", Command::Text, 100_000_000),
        ("bench 1", Command::Bench(1), 100_000_000),
        ("bench 60", Command::Bench(60), 100_000_000),
        ("prove --steps 5", Command::Prove, 5),
        ("--steps 5 prove", Command::Prove, 5),
        ("check --steps=5", Command::Check, 5),
        ("place", Command::Place, 100_000_000),
        ("--steps 5 figure", Command::Figure, 5),
        ("cite --steps 5", Command::Cite, 5),
        ("fixed --steps=5", Command::Fixed, 5),
        ("--steps 5 discover", Command::Discover, 5),
        ("--steps=5 text", Command::Text, 5),
        ("--steps 7 bench 6", Command::Bench(6), 7),
        ("bench --steps 7 6", Command::Bench(6), 7),
        ("bench 6 --steps 7", Command::Bench(6), 7),
        ("bench --steps=7 6", Command::Bench(6), 7),
        ("prove --steps 1", Command::Prove, 1),
        (
            "prove --steps 1000000000000",
            Command::Prove,
            1_000_000_000_000,
        ),
        (
            "prove --steps=1000000000000",
            Command::Prove,
            1_000_000_000_000,
        ),
    ];
    for (line, command, steps) in table {
        let order = order_of_line(rt.alloc(), line)?;
        assert_eq!(rt; order, Some(Order { command, steps }), "{line}");
    }
    Ok(())
}

#[test]
fn refuses_other_words(rt: HostRuntime) -> Result<(), Fail> {
    let table = [
        "",
        "prove ",
        " prove",
        "prove now",
        "prove check",
        "Prove",
        "placing",
        "figure 1",
        "cite 1",
        "prove 1",
        "bench",
        "bench 0",
        "bench 07",
        "bench 61",
        "bench -1",
        "bench +1",
        "bench 1 2",
        "bench x",
        "1 bench",
        "--steps 5",
        "--steps prove",
        "prove --steps",
        "prove --steps=",
        "prove --steps 0",
        "prove --steps 01",
        "prove --steps=0",
        "prove --steps=05",
        "prove --steps +5",
        "prove --steps -5",
        "prove --steps 5x",
        "prove --steps 1000000000001",
        "prove --steps=1000000000001",
        "prove --steps 9999999999999999999999999999999999999999999",
        "prove --steps 5 --steps 5",
        "prove --steps=5 --steps=5",
        "--steps=5 prove --steps 5",
        "prove --steps --steps 5",
        "prove --steps5",
        "prove -steps 5",
        "prove steps 5",
        "-",
        "prove -",
        "--",
        "prove --",
        "--help",
        "prove --help",
    ];
    for line in table {
        assert_eq!(rt; order_of_line(rt.alloc(), line)?, None, "{line}");
    }
    assert_eq!(rt; order_of(&Vec::new(rt.alloc())), None, "no words");
    Ok(())
}
