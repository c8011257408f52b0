//! What is asked of zones. What was lent is let go by `drop`, so that the proof takes it apart there alone.

ghost use Rattle.std.specs.Prelude.{IsTrue};
ghost use Rattle.vx_base.specs.ColumnCalls.{IsBool};
ghost use Rattle.vx_base.specs.Views.{data_type};
ghost use Rattle.vx_expr.specs.Bound.{IsBoundTo};

use crate::case_states::CaseState;
use std::alloc::{AllocError, Global};
use vx_base::{DType, Mask};
use vx_expr::{BindError, BoundExpression, bind};
use vx_expr_notation::spelled;
use vx_notation::bits_text;
use vx_zones::{ZoneError, ZoneProof, ZoneTable, falsify};

/// Whether it is a dtype of truth values.
fn is_bool(dtype: &DType) -> bool
    ensures { IsTrue result → IsBool (data_type dtype.now) }
{
    matches!(dtype, DType::Bool(_))
}

/// The expression that the words spell, bound to the dtype of the rows.
fn bound_of(alloc: Global, root: &DType, words: &str) -> Result<BoundExpression, BindError> {
    let expr = spelled(alloc, words)?;
    let bound = bind(alloc, &expr, root);
    drop(expr);
    bound
}

/// The proof that the predicate can prune zones. None where it has none.
fn proof_of(alloc: Global, root: &DType, words: &str) -> Result<Option<ZoneProof>, AllocError> {
    let Ok(bound) = bound_of(alloc, root, words) else {
        return Err(AllocError);
    };
    let found = if is_bool(bound.dtype()) {
        falsify(alloc, &bound)
    } else {
        Err(AllocError)
    };
    drop(bound);
    found
}

/// Appends the predicate of a proof.
fn write_predicate(alloc: Global, proof: &ZoneProof, out: &mut String) -> Result<(), AllocError> {
    let text = proof.predicate().text(alloc)?;
    match String::from_utf8(text) {
        Ok(printed) => out.push_str(printed.as_str()),
        Err(_) => Ok(()),
    }
}

/// The predicate of the proof, or that there is none. Words that spell no predicate end all output.
pub(crate) fn write_proof(
    alloc: Global,
    case_state: &CaseState,
    words: &str,
    out: &mut String,
) -> Result<(), AllocError> {
    match proof_of(alloc, &case_state.dtype, words)? {
        Some(proof) => {
            let written = write_predicate(alloc, &proof, out);
            drop(proof);
            written
        }
        None => out.push_str("no proof"),
    }
}

/// The zones that a copy of the table prunes by a copy of the proof.
fn pruned_by_copies(
    alloc: Global,
    table: &ZoneTable,
    proof: &ZoneProof,
    bound: u64,
) -> Result<Mask, AllocError>
    requires { IsBoundTo proof.now table.now.dtype }
{
    let table = table.copy(alloc)?;
    let proof = proof.copy(alloc)?;
    let mask = table.prune(alloc, &proof, bound);
    drop(proof);
    drop(table);
    mask
}

/// The zones that the table prunes by the proof, as copies of both do.
fn write_mask(
    alloc: Global,
    table: &ZoneTable,
    proof: &ZoneProof,
    bound: u64,
    out: &mut String,
) -> Result<(), AllocError>
    requires { IsBoundTo proof.now table.now.dtype }
{
    let mask = table.prune(alloc, proof, bound)?;
    let copied = pruned_by_copies(alloc, table, proof, bound)?;
    if !mask.same(&copied) {
        return out.push_str("other zones than by copies");
    }
    match bits_text(alloc, &mask) {
        Ok(text) => out.push_str(text.as_str()),
        Err(_) => Ok(()),
    }
}

/// Appends the zones that a proof prunes at a bound; without a table nothing.
fn write_by_proof(
    alloc: Global,
    case_state: &CaseState,
    proof: &ZoneProof,
    bound: u64,
    out: &mut String,
) -> Result<(), AllocError> {
    let Ok(table) = case_state.table(alloc) else {
        return Ok(());
    };
    let written = if proof.predicate().is_root_bound_to(&case_state.dtype) {
        write_mask(alloc, &table, proof, bound, out)
    } else {
        Err(AllocError)
    };
    drop(table);
    written
}

/// The zones that a predicate prunes at a bound, or that it has no proof.
pub(crate) fn write_pruned(
    alloc: Global,
    case_state: &CaseState,
    words: &str,
    out: &mut String,
) -> Result<(), AllocError> {
    let (bound, words) = words.split_once(' ').unwrap_or((words, ""));
    let bound = bound.parse::<u64>().unwrap_or(u64::MAX);
    match proof_of(alloc, &case_state.dtype, words)? {
        Some(proof) => {
            let written = write_by_proof(alloc, case_state, &proof, bound, out);
            drop(proof);
            written
        }
        None => out.push_str("no proof"),
    }
}

/// Whether there is a table of what is set.
pub(crate) fn write_table(
    alloc: Global,
    case_state: &CaseState,
    out: &mut String,
) -> Result<(), AllocError> {
    match case_state.table(alloc) {
        Ok(table) => {
            drop(table);
            out.push_str("a table")
        }
        Err(ZoneError::BadZones) => out.push_str("bad zones"),
        Err(ZoneError::Memory) => Err(AllocError),
    }
}

/// The text of the error of that name.
pub(crate) fn write_error(name: &str, out: &mut String) -> Result<(), AllocError> {
    match name {
        "bad_zones" => write!(out, "{}", ZoneError::BadZones),
        "memory" => write!(out, "{}", ZoneError::Memory),
        _ => Ok(()),
    }
}
