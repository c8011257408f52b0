//! The texts of errors.

use std::alloc::AllocError;
use vx_base::{ColumnError, DecodeError, EncodeError, RunsError, SourceError, StreamError};

/// The text of the error of that kind and name.
pub(crate) fn write_error(rest: &str, out: &mut String) -> Result<(), AllocError> {
    let (kind, name) = rest.split_once("::").unwrap_or((rest, ""));
    match kind {
        "ColumnError" => {
            let error = match name {
                "Unfit(7)" => ColumnError::Unfit(7),
                _ => ColumnError::Memory,
            };
            write!(out, "{error}")
        }
        "RunsError" => {
            let error = match name {
                "BadEnds(7)" => RunsError::BadEnds(7),
                "Unfit(7)" => RunsError::Unfit(7),
                _ => RunsError::Memory,
            };
            write!(out, "{error}")
        }
        "DecodeError" => {
            let error = match name {
                "BadSegment" => DecodeError::BadSegment,
                _ => DecodeError::Memory,
            };
            write!(out, "{error}")
        }
        "EncodeError" => {
            let error = match name {
                "NotConstant(7)" => EncodeError::NotConstant(7),
                _ => EncodeError::Memory,
            };
            write!(out, "{error}")
        }
        "SourceError" => {
            let error = match name {
                "Failed" => SourceError::Failed,
                _ => SourceError::Memory,
            };
            write!(out, "{error}")
        }
        "StreamError" => {
            let error = match name {
                "Failed" => StreamError::Failed,
                _ => StreamError::Memory,
            };
            write!(out, "{error}")
        }
        _ => Ok(()),
    }
}
