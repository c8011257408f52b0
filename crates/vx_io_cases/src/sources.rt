//! A source that keeps to a script and notes what it is asked.

use std::alloc::{AllocError, Global};
use vx_base::{Script, ScriptSource, SegmentLocation, SegmentSource, SourceError};

/// A scripted source that notes by which number and for which location it is asked.
#[derive(Drop)]
pub(crate) struct Noting {
    script: ScriptSource,
    asked: Vec<(u32, SegmentLocation)>,
}

impl SegmentSource for Noting {
    ghost use Rattle.vx_base.specs.ScriptSources.{script_state};

    ghost state = { λ source. script_state source.script };

    fn request(&mut self, id: u32, at: SegmentLocation) -> Result<u64, SourceError> {
        if self.asked.push((id, at)).is_err() {
            return Err(SourceError::Memory);
        }
        self.script.request(id, at)
    }

    fn poll(&mut self, ticket: u64) -> Result<Option<Vec<u8>>, SourceError> {
        self.script.poll(ticket)
    }

    fn clear(&mut self) {
        self.script.clear();
    }
}

impl Noting {
    /// The source of a file and a script, of which nothing was asked.
    pub(crate) fn new(alloc: Global, file: Vec<u8>, script: Script) -> Noting {
        Noting {
            script: ScriptSource::new(alloc, file, script),
            asked: Vec::new(alloc),
        }
    }
}

/// A script that lets each read end at its first poll.
pub(crate) fn quiet(alloc: Global) -> Script {
    Script {
        fail_requests: Vec::new(alloc),
        fail_polls: Vec::new(alloc),
        waits: Vec::new(alloc),
        order: Vec::new(alloc),
    }
}

/// The numbers between commas; `-` is none.
fn numbers_of(alloc: Global, text: &str) -> Result<Vec<u64>, AllocError> {
    let mut numbers = Vec::new(alloc);
    for word in text.split(',') {
        if word != "-" {
            numbers.push(word.parse::<u64>().unwrap_or(0))?;
        }
    }
    Ok(numbers)
}

/// The source of a script: the requests that fail, the polls that fail, the waits and the order.
pub(crate) fn source_of(alloc: Global, words: &str) -> Result<Noting, AllocError> {
    let mut script = quiet(alloc);
    for (place, word) in words.split_whitespace().enumerate() {
        let numbers = numbers_of(alloc, word)?;
        match place {
            0 => script.fail_requests = numbers,
            1 => script.fail_polls = numbers,
            2 => script.waits = numbers,
            _ => script.order = numbers,
        }
    }
    let file = [10, 11, 12, 13, 14, 15, 16, 17].to_vec(alloc)?;
    Ok(Noting::new(alloc, file, script))
}

/// What the source was asked, each as its number and its location, and what it counted.
pub(crate) fn write_notes(source: &Noting, out: &mut String) -> Result<(), AllocError> {
    out.push_str("asked")?;
    for (id, at) in source.asked.as_slice() {
        let (offset, length, alignment) = (at.offset, at.length, at.alignment);
        write!(out, " {id}:{offset}+{length}/{alignment}")?;
    }
    let (faults, idle) = (source.script.faults(), source.script.idle());
    write!(out, ", {faults} faults, {idle} idle")
}
