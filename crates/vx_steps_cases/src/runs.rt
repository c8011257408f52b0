//! The turns of a scan, whose reads are delivered from the bytes of segments.

use crate::answers::{write_column, write_columns, write_refusal};
use crate::options::{Due, Order};
use crate::segments::{Segment, bytes_of};
use std::alloc::{AllocError, Global};
use vx_steps::{ReadId, ReadRequest, Scan, Turn};

/// A scan, the reads that it handed out, and those that are to be delivered.
#[derive(Drop)]
pub(crate) struct Run<'a> {
    pub(crate) file: &'a [Segment],
    pub(crate) scan: Scan<'a>,
    pub(crate) order: Order,
    pub(crate) reads: Vec<ReadRequest>,
    pub(crate) queue: Vec<Due>,
    /// How many of the queue were delivered, from the first one on.
    pub(crate) front: usize,
    pub(crate) tells_held: bool,
    pub(crate) tells_segments: bool,
}

/// The segment of a read that was handed out, and 0 for any other.
fn segment_of(reads: &[ReadRequest], number: u64) -> u32 {
    match reads.get(number as usize) {
        Some(read) => read.segment_id,
        None => 0,
    }
}

/// Appends how many bytes of segments the scan holds, where that is asked.
fn write_held(run: &Run<'_>, out: &mut String) -> Result<(), AllocError> {
    if !run.tells_held {
        return Ok(());
    }
    write!(out, " held {};", run.scan.held_bytes())
}

/// Appends the numbers of segments, the least first.
fn write_sorted(alloc: Global, segments: &[u32], out: &mut String) -> Result<(), AllocError> {
    let mut sorted = Vec::from_slice(alloc, segments)?;
    sorted.sort()?;
    let mut blank = "";
    for segment in &sorted {
        write!(out, "{blank}{segment}")?;
        blank = " ";
    }
    Ok(())
}

/// Appends which segments the scan holds, where that is asked.
fn write_segments(alloc: Global, run: &Run<'_>, out: &mut String) -> Result<(), AllocError> {
    if !run.tells_segments {
        return Ok(());
    }
    out.push_str(" holds [")?;
    write_sorted(alloc, run.scan.held(), out).and(out.push_str("];"))
}

/// Delivers a read.
fn deliver(
    alloc: Global,
    run: &mut Run<'_>,
    number: u64,
    out: &mut String,
) -> Result<(), AllocError> {
    let bytes = bytes_of(alloc, run.file, segment_of(&run.reads, number));
    let said = match run.scan.deliver(ReadId(number), bytes) {
        Ok(()) => Ok(()),
        Err(_) => write!(out, " unknown {number};"),
    };
    said.and(write_held(run, out))
}

/// The next read that is to be delivered.
fn next_read(run: &mut Run<'_>) -> Option<Due> {
    match run.order {
        Order::Reverse => run.queue.pop(),
        _ => {
            let due = match run.queue.get(run.front) {
                Some(due) => *due,
                None => return None,
            };
            run.front = run.front.saturating_add(1);
            Some(due)
        }
    }
}

/// Delivers the next read, with those that are delivered at the same turn, and says whether there was one.
fn deliver_next(alloc: Global, run: &mut Run<'_>, out: &mut String) -> Result<bool, AllocError> {
    let mut any = false;
    for _time in 0..run.queue.len() {
        let Some(due) = next_read(run) else {
            break;
        };
        any = true;
        deliver(alloc, run, due.read, out)?;
        if !due.joins_next {
            break;
        }
    }
    Ok(any)
}

/// Takes a read that is handed out.
fn take_read(
    alloc: Global,
    run: &mut Run<'_>,
    read: ReadRequest,
    out: &mut String,
) -> Result<(), AllocError> {
    let number = read.id.0;
    write!(out, " read {number}:{};", read.segment_id)?;
    write_segments(alloc, run, out)?;
    run.reads.push(read)?;
    match run.order {
        Order::Early => deliver(alloc, run, number, out),
        Order::Given => Ok(()),
        _ => {
            run.queue.push(Due {
                read: number,
                joins_next: false,
            })?;
            Ok(())
        }
    }
}

/// Appends how many bytes the scan holds, and which segments, where that is asked.
fn write_kept(alloc: Global, run: &Run<'_>, out: &mut String) -> Result<(), AllocError> {
    write_held(run, out).and(write_segments(alloc, run, out))
}

/// Takes a turn, and says whether there is another.
fn take_turn(
    alloc: Global,
    run: &mut Run<'_>,
    turn: &Turn,
    out: &mut String,
) -> Result<bool, AllocError> {
    match turn {
        Turn::Read(read) => take_read(alloc, run, *read, out).and(Ok(true)),
        Turn::Output(split, column) => write!(out, " out {split}")
            .and(write_column(alloc, column, out))
            .and(write_kept(alloc, run, out))
            .and(Ok(true)),
        Turn::Waiting => out
            .push_str(" waiting;")
            .and(write_kept(alloc, run, out))
            .and(deliver_next(alloc, run, out)),
        Turn::Done => out
            .push_str(" done;")
            .and(write_kept(alloc, run, out))
            .and(Ok(false)),
    }
}

/// Takes a step, and says whether there is another. There is one after a refusal.
pub(crate) fn take_step(
    alloc: Global,
    run: &mut Run<'_>,
    out: &mut String,
) -> Result<bool, AllocError> {
    let turn = run.scan.step();
    let more = match &turn {
        Ok(turn) => take_turn(alloc, run, turn, out),
        Err(error) => write_refusal(*error, out)
            .and(write_kept(alloc, run, out))
            .and(Ok(true)),
    };
    drop(turn);
    more
}

/// Delivers reads after the end, and takes one more step.
fn deliver_late(
    alloc: Global,
    run: &mut Run<'_>,
    late: &[u64],
    out: &mut String,
) -> Result<(), AllocError> {
    if late.is_empty() {
        return Ok(());
    }
    for number in late {
        deliver(alloc, run, *number, out)?;
    }
    take_step(alloc, run, out).and(Ok(()))
}

/// Appends the turns of the scan to its end, and the whole values that it used and made.
pub(crate) fn write_run(
    alloc: Global,
    run: &mut Run<'_>,
    late: &[u64],
    out: &mut String,
) -> Result<(), AllocError> {
    for _turn in 0..1000000 {
        if !take_step(alloc, run, out)? {
            break;
        }
    }
    deliver_late(alloc, run, late, out)
        .and(write_columns(alloc, "used", run.scan.used(), out))
        .and(write_columns(alloc, "made", run.scan.made(), out))
}
