//! `scan_cli` runs one command: it prints the rows that a request asks of a segment file, the plan of a request, or the
//! summary of the demo file.
#![tactic(auto)]

ghost use Rattle.std.specs.Prelude.{◌≡◌, ◌≢◌, ◌⊎◌, ◌<◌, ◌≤◌, Some, None, IsNone, Ok, Err, IfOk, IfErr, alloc_error, length, map, string_bytes};
ghost use Rattle.std.specs.IoError.{error_kind};
ghost use Rattle.std.specs.List.{AllByRecursion};
ghost use Rattle.std.specs.Process.{exit_status};
ghost use Rattle.scan_cli.specs.Files.{are_unasked, if_counted, source_count, request_named, segments_named, HasNoFile, IsStatusOf};
ghost use Rattle.scan_commands.specs.Commanded.{have_sources, Runs};
ghost use Rattle.scan_commands.specs.Statuses.{memory_status, usage_status};
ghost use Rattle.scan_words.specs.Limits.{most_workers};
ghost use Rattle.scan_words.specs.Words.{command_of};
ghost use Rattle.vx_base.specs.FileSources.{file_state};

pub use scan_commands::{run, status_text};
use scan_commands::{DONE, OUT_OF_MEMORY, USAGE};
use scan_words::{Command, WordsError, words_of};
use std::alloc::{AllocError, Global};
use std::env;
use std::fs::{self, File, OpenOptions};
use std::io::{self, ErrorKind};
use std::os::unix::fs::FileTypeExt;
use std::process::ExitCode;
use std::sync::Wait;
use std::thread::Threads;
use vx_base::{FileSource, ReadSource, SegmentSource, Sink, Source, Text, WriteSink};

/// How many sources a run is lent, each of them on the same segment file.
const SOURCES: usize = 8;

fn main(rt: HostRuntime) -> ExitCode {
    match words_said(&rt) {
        Ok(words) => run_files(&rt, &rt, &words).unwrap_or_else(|_| ended(&rt, OUT_OF_MEMORY)),
        Err(status) => ended(&rt, status),
    }
}

/// The words behind the program's name, or the status of words that can't be had: those that are no text ask nothing.
fn words_said(rt: &HostRuntime) -> Result<Vec<String>, u8>
    ensures { IfErr result (λ status. (status ≡ usage_status) ⊎ (status ≡ memory_status)) }
{
    let args = match env::args(rt) {
        Ok(args) => args,
        Err(error) if error.kind() == ErrorKind::OutOfMemory => return Err(OUT_OF_MEMORY),
        Err(_) => return Err(USAGE),
    };
    let mut words = Vec::new(rt.alloc());
    for word in args.skip(1) {
        if words.push(word).is_err() {
            return Err(OUT_OF_MEMORY);
        }
    }
    Ok(words)
}

/// The files that are opened: the one of the segments, and the one of the request.
struct FileNames {
    segments: Option<Text>,
    request: Option<Text>,
}

/// Whether so many workers have a source each, where a number of them is said.
fn are_served(workers: Option<u64>) -> bool
    ensures { result ≡ have_sources workers source_count }
{
    match workers {
        Some(workers) => workers <= SOURCES as u64,
        None => true,
    }
}

/// The name where it counts, else none.
fn if_counted(counts: bool, name: Text) -> Option<Text>
    ensures { result ≡ if_counted counts name }
{
    if counts { Some(name) } else { None }
}

/// The files that are opened for the words: those that they name, and none for words at fault, nor for more workers than
/// there are sources. The error is for want of memory alone.
fn files_named(alloc: Global, words: &[String]) -> Result<FileNames, AllocError>
    ensures segments { IfOk result (λ files. files.segments ≡ segments_named (command_of (map string_bytes words.now))) }
    ensures request { IfOk result (λ files. files.request ≡ request_named (command_of (map string_bytes words.now))) }
{
    let (segments, request) = match words_of(alloc, words) {
        Ok(
            Command::Scan {
                segments,
                request,
                workers,
                ..
            },
        ) => {
            let served = are_served(workers);
            (if_counted(served, segments), if_counted(served, request))
        }
        Ok(
            Command::Read {
                segments,
                request,
                ..
            },
        ) => (Some(segments), Some(request)),
        Ok(Command::Tree { request }) => (None, Some(request)),
        Ok(Command::Demo { .. }) | Err(WordsError::Usage) => (None, None),
        Err(WordsError::Memory) => return Err(AllocError),
    };
    Ok(FileNames { segments, request })
}

impl Drop for FileNames {
    fn drop(self) {
        let FileNames {
            segments: _,
            request: _,
        } = self;
    }
}

/// Runs the words on the files that they name and on standard output; `threads` starts the threads of the workers. The error
/// is for want of memory before the run.
fn run_files<R: AllocGlobal + Threads + Wait + Sync>(
    rt: &HostRuntime,
    threads: &R,
    words: &[String],
) -> Result<ExitCode, AllocError>
    ensures { IfOk result (λ code. IsStatusOf (map string_bytes words.now) (exit_status code)) }
{
    let files = files_named(rt.alloc(), words)?;
    let code = run_named(rt, threads, words, &files);
    drop(files);
    code
}

/// Runs the words on the files of these names and on standard output. The error is for want of memory before the run.
fn run_named<R: AllocGlobal + Threads + Wait + Sync>(
    rt: &HostRuntime,
    threads: &R,
    words: &[String],
    files: &FileNames,
) -> Result<ExitCode, AllocError>
    ensures { IfOk result (λ code. IsStatusOf (map string_bytes words.now) (exit_status code)) }
{
    let mut sources = file_sources(rt, files.segments.as_ref().map(Text::as_str))?;
    match opened(rt, files.request.as_ref().map(Text::as_str)) {
        Ok(request) => Ok(run_opened(rt, threads, words, request, &mut sources)),
        Err(error) => Err(error),
    }
}

/// Runs the words on the file of the request, where there is one, on sources of which nothing was asked, and on standard
/// output.
fn run_opened<R: AllocGlobal + Threads + Wait + Sync>(
    rt: &HostRuntime,
    threads: &R,
    words: &[String],
    request: Option<File>,
    sources: &mut [FileSource],
) -> ExitCode
    requires { map file_state sources.old ≡ are_unasked source_count }
    ensures { IsStatusOf (map string_bytes words.now) (exit_status result) }
{
    let mut request = ReadSource::new(rt.alloc(), request);
    let mut out = WriteSink::new(io::writer(rt));
    answered(rt, threads, words, &mut request, sources, &mut out)
}

/// The sources that a run is lent, of the segment file of that name. The error is for want of memory alone.
fn file_sources(rt: &HostRuntime, name: Option<&str>) -> Result<Vec<FileSource>, AllocError>
    ensures unasked { IfOk result (λ sources. map file_state sources.items ≡ are_unasked source_count) }
    // Where no file is named, none of them has one.
    ensures no_name { IsNone name.entry → IfOk result (λ sources. AllByRecursion HasNoFile sources.items) }
{
    let mut sources = Vec::with_capacity(rt.alloc(), SOURCES)?;
    for count in 0..SOURCES {
        sources.push(FileSource::new(rt, rt.alloc(), name)?)?;
    }
    Ok(sources)
}

/// The file of a name, where there is one that opens. The error is for want of memory alone.
fn opened(rt: &HostRuntime, name: Option<&str>) -> Result<Option<File>, AllocError>
    ensures { IsNone name.entry → result ≡ Ok None }
{
    match name {
        Some(name) => if_opened(open_at_once(rt, name)),
        None => Ok(None),
    }
}

/// Opens a file for reading, and never waits for that. To open a named pipe for reading alone waits until somebody writes to
/// it. So a pipe is opened for both before, and kept so until then: one that nobody writes to is open too, and has ended.
fn open_at_once(rt: &HostRuntime, name: &str) -> io::Result<File> {
    if !fs::metadata(rt, name)?.file_type().is_fifo() {
        return File::open(rt, name);
    }
    let both = OpenOptions::new().read(true).write(true).open(rt, name)?;
    let file = File::open(rt, name);
    drop(both);
    file
}

/// The file that was opened, if it was. The error is for want of memory alone.
fn if_opened(file: io::Result<File>) -> Result<Option<File>, AllocError>
    ensures kept { IfOk file (λ opened. result ≡ Ok (Some opened)) }
    ensures memory { IfErr file (λ error. error_kind error ≡ ErrorKind.OutOfMemory → result ≡ Err alloc_error) }
    ensures failed { IfErr file (λ error. error_kind error ≢ ErrorKind.OutOfMemory → result ≡ Ok None) }
{
    match file {
        Ok(file) => Ok(Some(file)),
        Err(error) if error.kind() == ErrorKind::OutOfMemory => Err(AllocError),
        Err(_) => Ok(None),
    }
}

/// Runs the words, and ends with the status that the run answers.
fn answered<R: AllocGlobal + Threads + Wait + Sync, Q: Source, S: SegmentSource + Send, K: Sink>(
    rt: &HostRuntime,
    threads: &R,
    words: &[String],
    request: &mut Q,
    sources: &mut [S],
    out: &mut K,
) -> ExitCode
    requires some { 0 < length sources.old }
    requires few { length sources.old ≤ most_workers }
    ensures { Runs (command_of (map string_bytes words.now)) (exit_status result)
        (record { request = Q.state request.old; sources = map S.state sources.old; sink = K.state out.old })
        (record { request = Q.state request.new; sources = map S.state sources.new; sink = K.state out.new }) }
{
    ended(rt, run(threads, words, request, sources, out))
}

/// Ends with a status. Where it isn't 0, its text is said on standard error.
fn ended(rt: &HostRuntime, status: u8) -> ExitCode
    ensures { exit_status result ≡ status }
{
    if status != DONE {
        let text = status_text(status);
        let _ = eprintln!(rt; "scan_cli: {text}");
    }
    ExitCode::from(status)
}
