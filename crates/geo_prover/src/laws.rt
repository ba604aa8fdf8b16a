//! What is proved of the programs of the workload. The function does nothing: what it says is its
//! contract.

ghost use Rattle.geo_prover.specs.Bench.{NumbersHaveAProgram};

/// Each number has a program.
pub fn numbers_have_a_program()
    ensures { NumbersHaveAProgram }
{}
