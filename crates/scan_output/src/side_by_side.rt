//! Writing the rows of batches whose lines are made by several threads side by side. The text of all rows is never held:
//! a few parts of it are made at a time, into texts that are filled again for the next ones, and written in order.

ghost use Rattle.std.specs.Prelude.{◌≡◌, ◌<◌, ◌≤◌, ◌*◌, length, vec_len, IfOk, OnOk};
ghost use Rattle.std.specs.Thread.{IsSync};
ghost use Rattle.scan_output.specs.RowWriting.{batch_lines};
ghost use Rattle.scan_output.specs.SideBySide.{texts_joined};
ghost use Rattle.scan_output.specs.Writing.{WritingGives};

use crate::column_lines::add_column_lines;
use crate::row_writing::write_batches;
use crate::writing::write_all;
use std::alloc::{AllocError, Global};
use std::mem;
use std::thread::{Threads, join_mut};
use vx_base::{Column, Sink, StreamError};

/// About so many rows have their lines made by one thread at a time.
const ROWS_AT_ONCE: u64 = 262144;

/// Fills the text with the lines of batches, one batch after another; what it had before is gone.
fn fill_text(alloc: Global, batches: &[Column], text: &mut Vec<u8>) -> Result<(), AllocError>
    ensures { OnOk result (text.new.items ≡ batch_lines batches.now) }
{
    text.clear();
    for batch in batches {
        add_column_lines(alloc, batch, text)?;
    }
    Ok(())
}

/// Fills one of several texts that lie side by side. While it grows it lies in a place of this thread's own: its length is
/// written with each cell, and where it lay, in a cache line that other threads write the lengths of theirs to. Filled
/// where they lay, the texts of four threads took five times the processor seconds of one.
fn make_text(alloc: Global, batches: &[Column], text: &mut Vec<u8>) -> Result<(), AllocError>
    ensures { OnOk result (text.new.items ≡ batch_lines batches.now) }
{
    let mut own = mem::replace(text, Vec::new(alloc));
    let made = fill_text(alloc, batches, &mut own);
    *text = own;
    made
}

/// Fills the texts with the lines of a group of batches, so many of which make a part: each text with those of a part, and
/// the texts behind the last part with nothing. Each part but the last has a thread of its own. This thread starts all of
/// them: one that a new thread starts mostly comes behind that one on its processor, though another has nothing to do.
#[cycle(texts)]
fn make_texts<R: Threads + Sync>(
    rt: &R,
    alloc: Global,
    part: usize,
    group: &[Column],
    texts: &mut [Vec<u8>],
) -> Result<(), AllocError>
    requires part { 0 < part }
    requires room { length group.now ≤ length texts.old * part }
    ensures { OnOk result (texts_joined texts.new ≡ batch_lines group.now) }
{
    let Some((first, others)) = texts.split_first_mut() else {
        return Ok(());
    };
    let (here, behind) = group.split_at(part.min(group.len()));
    if behind.is_empty() {
        make_text(alloc, here, first)?;
        return make_texts(rt, alloc, part, behind, others);
    }
    make_both(rt, alloc, here, first, part, behind, others)
}

/// The first text in a thread of its own, and the others from this one.
#[cycle(texts)]
fn make_both<R: Threads + Sync>(
    rt: &R,
    alloc: Global,
    here: &[Column],
    first: &mut Vec<u8>,
    part: usize,
    behind: &[Column],
    others: &mut [Vec<u8>],
) -> Result<(), AllocError>
    requires part { 0 < part }
    requires room { length behind.now ≤ length others.old * part }
    ensures first { OnOk result (first.new.items ≡ batch_lines here.now) }
    ensures others { OnOk result (texts_joined others.new ≡ batch_lines behind.now) }
{
    let mut make_first = || -> Result<(), AllocError>
        ensures { OnOk result (first.exit.now.items ≡ batch_lines here.entry.now) }
    { make_text(alloc, here, first) };
    let mut make_others = || -> Result<(), AllocError>
        requires { IsSync R.row × (0 < part) × (length behind.now ≤ length others.now * part) }
        ensures { OnOk result (texts_joined others.exit.now ≡ batch_lines behind.entry.now) }
    { make_texts(rt, alloc, part, behind, others) };
    let (made_first, made_others) = join_mut(rt, &mut make_first, &mut make_others);
    made_first?;
    made_others
}

/// Writes texts, one after another.
fn write_texts<K: Sink>(out: &mut K, texts: &[Vec<u8>]) -> Result<(), StreamError>
    ensures { WritingGives result (texts_joined texts.now) (K.state out.old) (K.state out.new) }
{
    for text in texts {
        match write_all(out, text) {
            Ok(()) => {}
            Err(error) => return Err(error),
        }
    }
    Ok(())
}

/// Writes the lines of a group of batches, so many of which make a part, by the texts, one for each part.
fn write_group<R: Threads + Sync, K: Sink>(
    rt: &R,
    alloc: Global,
    out: &mut K,
    part: usize,
    group: &[Column],
    texts: &mut [Vec<u8>],
) -> Result<(), StreamError>
    requires part { 0 < part }
    requires room { length group.now ≤ length texts.old * part }
    ensures { WritingGives result (batch_lines group.now) (K.state out.old) (K.state out.new) }
{
    match make_texts(rt, alloc, part, group, texts) {
        Ok(()) => write_texts(out, texts),
        Err(_) => Err(StreamError::Memory),
    }
}

/// How many batches make a part, so that it has about as many rows as a thread makes the lines of at a time, and each
/// worker has some.
fn part_of(batches: &[Column], workers: usize) -> usize
    requires { 0 < workers }
    ensures { 0 < result }
{
    let mut most: u64 = 1;
    for batch in batches {
        most = most.max(batch.len());
    }
    let part = (ROWS_AT_ONCE / most) as usize;
    part.min(batches.len().div_ceil(workers)).max(1)
}

/// So many texts, with nothing in them yet.
fn empty_texts(alloc: Global, count: usize) -> Result<Vec<Vec<u8>>, AllocError>
    ensures { IfOk result (λ texts. vec_len texts ≡ count) }
{
    let mut texts = Vec::with_capacity(alloc, count)?;
    for _ in 0..count {
        texts.push(Vec::new(alloc))?;
    }
    Ok(texts)
}

/// Writes a line for each row of the batches, one batch after another; with more than one worker their lines are made side
/// by side. An error leaves a front of the lines written.
pub fn write_by<R: Threads + Sync, K: Sink>(
    rt: &R,
    alloc: Global,
    out: &mut K,
    batches: &[Column],
    workers: usize,
) -> Result<(), StreamError>
    requires { 0 < workers }
    ensures { WritingGives result (batch_lines batches.now) (K.state out.old) (K.state out.new) }
{
    if workers == 1 || batches.len() <= 1 {
        return write_batches(alloc, out, batches);
    }
    let mut texts = match empty_texts(alloc, workers) {
        Ok(texts) => texts,
        Err(_) => return Err(StreamError::Memory),
    };
    let part = part_of(batches, workers);
    let size = part.saturating_mul(workers);
    let mut first = 0;
    while first < batches.len() {
        let end = batches.len().min(first.saturating_add(size));
        match write_group(rt, alloc, out, part, &batches[first..end], &mut texts) {
            Ok(()) => first = end,
            Err(error) => return Err(error),
        }
    }
    Ok(())
}
