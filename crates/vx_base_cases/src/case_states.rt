//! What the commands have set.

use std::alloc::{AllocError, Global};
use vx_base::{
    BytesSink, BytesSource, Column, DType, MemorySource, Nullability, Script, ScriptSource,
};

/// What the commands have set.
#[derive(Drop)]
pub(crate) struct CaseState {
    pub(crate) column: Column,
    pub(crate) memory: MemorySource,
    pub(crate) script: ScriptSource,
    pub(crate) stream: BytesSource,
    pub(crate) sink: BytesSink,
}

/// No rows of truth values, and sources and streams of no bytes.
pub(crate) fn new_case_state(alloc: Global) -> Result<CaseState, AllocError> {
    let column = Column::empty(alloc, DType::Bool(Nullability::NonNullable))?;
    let script = Script {
        fail_requests: Vec::new(alloc),
        fail_polls: Vec::new(alloc),
        waits: Vec::new(alloc),
        order: Vec::new(alloc),
    };
    Ok(CaseState {
        column,
        memory: MemorySource::new(alloc, Vec::new(alloc)),
        script: ScriptSource::new(alloc, Vec::new(alloc), script),
        stream: BytesSource::new(alloc, Vec::new(alloc), 1, Vec::new(alloc)),
        sink: BytesSink::new(alloc, 1, Vec::new(alloc)),
    })
}
