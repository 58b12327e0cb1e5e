//! The model and the strategy of `gen`.
ghost use Rattle.std.specs.Prelude.{◌≡◌, ◌≤◌, IfOk};
ghost use Rattle.dlk_library.specs.Generated.{generated_model, generated_strategy};

use crate::fault::GenFault;
use std::alloc::Global;

/// The texts of a model with so many assignments, from 1 to 500, one behind another, and of a strategy that proves it.
///
/// # Errors
///
/// `Memory`, at any time.
pub fn generate(alloc: Global, n: u32) -> Result<(Vec<u8>, Vec<u8>), GenFault>
    requires first { 1 ≤ n }
    requires last { n ≤ 500 }
    ensures model { IfOk result (λ texts. texts.0.items ≡ generated_model n) }
    ensures strategy { IfOk result (λ texts. texts.1.items ≡ generated_strategy n) }
{
    let mut model = b"x>=0 -> ".as_slice().to_vec(alloc)?;
    for _ in 0..n {
        model.extend_from_slice(b"[x:=x+1;]")?;
    }
    model.extend_from_slice(b"x>=0")?;
    let strategy = format!(in alloc; "implyR(1); useAt(assignb,1)*{n}; leaf")?;
    Ok((model, strategy.into_bytes()))
}
