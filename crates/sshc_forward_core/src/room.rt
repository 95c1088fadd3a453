//! Lists of outputs, whose memory is taken before anything changes.

ghost use Rattle.std.specs.Prelude.{◌≡◌, ◌∷◌, [], IfOk, vec_capacity};

use crate::output::FwdOutput;
use sshc_wire::NoMemory;
use std::alloc::Global;

/// Nothing is to be done.
pub(crate) fn none(alloc: Global) -> Vec<FwdOutput>
    ensures { result.items ≡ [] }
{
    Vec::new(alloc)
}

/// One thing is to be done.
pub(crate) fn one(alloc: Global, output: FwdOutput) -> Result<Vec<FwdOutput>, NoMemory>
    ensures { IfOk result (λ v. v.items ≡ output ∷ []) }
{
    let mut outputs = Vec::new(alloc);
    match outputs.push(output) {
        Ok(()) => Ok(outputs),
        Err(_) => Err(NoMemory),
    }
}

/// Two things are to be done.
pub(crate) fn two(
    alloc: Global,
    first: FwdOutput,
    second: FwdOutput,
) -> Result<Vec<FwdOutput>, NoMemory>
    ensures { IfOk result (λ v. v.items ≡ first ∷ second ∷ []) }
{
    match Vec::with_capacity(alloc, 2) {
        Ok(outputs) => Ok(both(outputs, first, second)),
        Err(_) => Err(NoMemory),
    }
}

fn both(mut outputs: Vec<FwdOutput>, first: FwdOutput, second: FwdOutput) -> Vec<FwdOutput>
    requires empty { outputs.items ≡ [] }
    requires room { vec_capacity outputs ≡ 2 }
    ensures { result.items ≡ first ∷ second ∷ [] }
{
    outputs.push_reserved(first);
    outputs.push_reserved(second);
    outputs
}
