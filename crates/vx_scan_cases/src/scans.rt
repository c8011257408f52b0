//! Scans of the file.

ghost use Rattle.std.specs.Prelude.{◌≤◌, length};
ghost use Rattle.vx_base.specs.Limits.{most_segments};

use crate::answers::{write_column, write_error, write_source};
use crate::builders::{builder_of, set_of};
use crate::commands::CaseState;
use crate::files::source_of;
use std::alloc::{AllocError, Global};
use std::sync::Wait;
use std::thread::Threads;
use vx_base::{Column, DType};
use vx_notation::dtype_text;
use vx_scan::{ScanBuilder, ScanError};

/// Appends the batches, or why there are none.
fn write_batches(
    alloc: Global,
    batches: &Result<Vec<Column>, ScanError>,
    out: &mut String,
) -> Result<(), AllocError> {
    match batches {
        Ok(batches) => {
            write!(out, " {} batches;", batches.len())?;
            for batch in batches {
                write_column(alloc, batch, out)?;
            }
            Ok(())
        }
        Err(error) => write_error(*error, out),
    }
}

/// Appends the batches of a scan of the file, and what its source was asked.
fn write_run<R: AllocGlobal + Threads + Wait + Sync>(
    rt: &R,
    case_state: CaseState<'_>,
    builder: ScanBuilder,
    out: &mut String,
) -> Result<(), AllocError>
    requires { length builder.locations ≤ most_segments }
{
    let alloc = rt.alloc();
    let mut sources = [source_of(alloc, case_state.bytes, case_state.script)];
    let batches = builder.into_batches(rt, alloc, &mut sources);
    let written = write_batches(alloc, &batches, out).and(write_source(&sources[0], out));
    drop(batches);
    drop(sources);
    written
}

/// Appends the batches of a scan of the file, and what its source was asked.
pub(crate) fn write_scan<R: AllocGlobal + Threads + Wait + Sync>(
    rt: &R,
    case_state: CaseState<'_>,
    out: &mut String,
) -> Result<(), AllocError> {
    match builder_of(rt.alloc(), case_state) {
        Some(builder) => write_run(
            rt,
            case_state,
            builder.with_idle_limit(case_state.limit.max(1)),
            out,
        ),
        None => out.push_str(" no tree;"),
    }
}

/// Appends the batches of a scan of the file with these settings, and what its source was asked.
pub(crate) fn write_selected<R: AllocGlobal + Threads + Wait + Sync>(
    rt: &R,
    case_state: CaseState<'_>,
    words: &str,
    out: &mut String,
) -> Result<(), AllocError> {
    match set_of(rt.alloc(), case_state, words) {
        Some(builder) => write_run(rt, case_state, builder, out),
        None => out.push_str(" not set;"),
    }
}

/// Appends a dtype.
fn write_type(alloc: Global, dtype: &DType, out: &mut String) -> Result<(), AllocError> {
    let text = dtype_text(alloc, dtype).unwrap_or(String::new(alloc));
    write!(out, " {}", text.as_str())
}

/// Appends the dtype of the batches.
pub(crate) fn write_dtype(
    alloc: Global,
    case_state: CaseState<'_>,
    out: &mut String,
) -> Result<(), AllocError> {
    let Some(builder) = builder_of(alloc, case_state) else {
        return out.push_str(" no tree;");
    };
    let written = write_type(alloc, builder.dtype(), out);
    drop(builder);
    written
}
