//! The outputs of a split as one column.

ghost use Rattle.std.specs.Prelude.{◌≡◌, IfErr, IfOk};
ghost use Rattle.vx_drive.specs.declared.errors.ScanError.TheVariants.{Memory};
ghost use Rattle.vx_drive.specs.Gathered.{HaveOneDtype, IsJoined};

use crate::errors::ScanError;
use std::alloc::Global;
use vx_base::Column;

/// The outputs, one behind another, as one column: none where there are none. Their rows are copied once, but a single
/// output is handed on as it is.
pub(crate) fn joined(alloc: Global, mut outputs: Vec<Column>) -> Result<Option<Column>, ScanError>
    requires { HaveOneDtype outputs.items }
    ensures joined { IfOk result (IsJoined outputs.items) }
    ensures memory { IfErr result (λ error. error ≡ Memory) }
{
    if outputs.len() < 2 {
        let output = outputs.pop();
        drop(outputs);
        return Ok(output);
    }
    match outputs[0].dtype().copy(alloc) {
        Ok(dtype) => match Column::concat(alloc, dtype, outputs) {
            Ok(column) => Ok(Some(column)),
            Err(_) => Err(ScanError::Memory),
        },
        Err(_) => {
            drop(outputs);
            Err(ScanError::Memory)
        }
    }
}
