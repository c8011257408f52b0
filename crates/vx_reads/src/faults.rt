//! What a fault of picked rows is to a reader.

ghost use Rattle.std.specs.Prelude.{◌≡◌};
ghost use Rattle.vx_reads.specs.Errors.{apply_fault, look_up_fault, IsNotOfExpression, IsOfBytes};

use crate::errors::ReaderError;
use vx_expr::ApplyError;
use vx_picking::LookUpError;

/// Of the codes of a dictionary that look up no values.
pub(crate) fn look_up_fault(dictionary: u32, error: LookUpError) -> ReaderError
    ensures is { result ≡ look_up_fault dictionary error }
    ensures own { IsOfBytes result }
    ensures no_expression { IsNotOfExpression result }
{
    match error {
        LookUpError::BadCode(row) => ReaderError::BadCode {
            node: dictionary,
            row,
        },
        LookUpError::Memory => ReaderError::Memory,
    }
}

/// Of an expression that is not worked out.
pub(crate) fn apply_fault(error: ApplyError) -> ReaderError
    ensures is { result ≡ apply_fault error }
    ensures own { IsOfBytes result }
{
    match error {
        ApplyError::EvalFault(row) => ReaderError::EvalFault(row),
        ApplyError::Memory => ReaderError::Memory,
    }
}
