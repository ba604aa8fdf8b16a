//! What is proved of readable proofs. The function does nothing: what it says is its contract.

ghost use Rattle.proof_printer.specs.Proofs.{ReadableProofIsUnique};

/// Bytes have one readable proof at most.
pub fn readable_proof_is_unique()
    ensures { ReadableProofIsUnique }
{}
