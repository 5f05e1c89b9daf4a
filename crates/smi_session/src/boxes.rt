//! Puts values into boxes, for the prover's sake: see `boxed`. This crate boxes its service, and `smi_console` the
//! parts of a node. Nothing but the cost of the proofs depends on it.

ghost use Rattle.std.specs.Prelude.{◌≡◌, IfOk};

use std::alloc::{AllocError, Global};

/// Puts a value into a box.
///
/// A function that drops a large value is expensive to prove, unless the value's type is a parameter: then the prover
/// tracks nothing of it. So the value is dropped here, if memory for the box is refused. No clause names `alloc`, from
/// which memory comes.
pub fn boxed<T: Drop>(alloc: Global, value: T) -> Result<Box<T>, AllocError>
    ensures { IfOk result (λ b. b.value ≡ value) }
{
    match Box::new(alloc, value) {
        Ok(value) => Ok(value),
        // The error hands the value back, which is dropped here.
        Err(_refused) => Err(AllocError),
    }
}
