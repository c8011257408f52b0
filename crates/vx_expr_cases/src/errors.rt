//! Refusals, and the texts of errors.

use std::alloc::{AllocError, Global};
use vx_base::Text;
use vx_expr::{ApplyError, BindError};

/// How a refusal is printed; want of memory, and a line that can't be read, is nothing.
pub(crate) fn write_refusal(error: &BindError, out: &mut String) -> Result<(), AllocError> {
    match error {
        BindError::NoField(name) => write!(out, "no field \"{}\"", name.as_str()),
        BindError::TypeMismatch(place) => write!(out, "mismatch at {place}"),
        BindError::TooDeep => out.push_str("too deep"),
        BindError::Memory => Ok(()),
    }
}

/// The error of binding of that name. The field is `a b`, and the part is 3.
fn bind_error(alloc: Global, name: &str) -> Result<BindError, AllocError> {
    match name {
        "no_field" => {
            let field = String::from_str(alloc, "a b")?;
            Ok(BindError::NoField(Text::from_string(field)))
        }
        "mismatch" => Ok(BindError::TypeMismatch(3)),
        "too_deep" => Ok(BindError::TooDeep),
        _ => Ok(BindError::Memory),
    }
}

/// The text of the error of binding of that name.
fn write_bind_error(alloc: Global, name: &str, out: &mut String) -> Result<(), AllocError> {
    let error = bind_error(alloc, name)?;
    let written = write!(out, "{error}");
    drop(error);
    written
}

/// The text of the error of that name. The row is 7.
pub(crate) fn write_error(alloc: Global, name: &str, out: &mut String) -> Result<(), AllocError> {
    match name {
        "no_field" | "mismatch" | "too_deep" | "memory" => write_bind_error(alloc, name, out),
        "fault" => write!(out, "{}", ApplyError::EvalFault(7)),
        "apply_memory" => write!(out, "{}", ApplyError::Memory),
        _ => Ok(()),
    }
}
