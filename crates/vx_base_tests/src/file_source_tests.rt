//! What real files give, and what is no regular file.

use std::alloc::Global;
use std::fs;
use std::fs::File;
use std::process::Abort;
use std::rt::Files;
use vx_base::{FileSource, SegmentLocation, SegmentSource, SourceError};

fn place(offset: u64, length: u32) -> SegmentLocation {
    SegmentLocation {
        offset,
        length,
        alignment: 1,
    }
}

/// Asserts that the first poll of a location gives these bytes.
fn gives(rt: &impl Abort, source: &mut FileSource, at: SegmentLocation, wanted: &[u8]) {
    let before = source.faults();
    let ticket = source.request(3, at).expect(rt, "a ticket");
    match source.poll(ticket) {
        Ok(Some(bytes)) => assert!(rt; bytes.as_slice() == wanted),
        _ => panic!(rt; "no bytes"),
    }
    assert!(rt; source.faults() == before);
}

/// Asserts that the first poll of a location fails.
fn fails(rt: &impl Abort, source: &mut FileSource, at: SegmentLocation, faults: u64) {
    let ticket = source.request(3, at).expect(rt, "a ticket");
    assert!(rt; matches!(source.poll(ticket), Err(SourceError::Failed)));
    assert!(rt; source.faults() == faults);
}

/// Writes a file of these bytes, and opens it.
fn opened<R: Files<File = File> + Abort>(
    rt: &R,
    alloc: Global,
    path: &str,
    bytes: &[u8],
) -> FileSource {
    fs::write(rt, path, bytes).expect(rt, "a file");
    FileSource::new(rt, alloc, Some(path)).expect(rt, "memory")
}

fn is_send<T: Send>(_value: &T) {}

#[test]
fn reads_a_file(rt: HostRuntime) {
    let path = "vx_base_reads_a_file.bytes";
    let mut source = opened(&rt, rt.alloc(), path, &[10, 11, 12, 13, 14, 15]);
    is_send(&source);
    assert!(rt; source.is_open());
    gives(&rt, &mut source, place(1, 3), &[11, 12, 13]);
    fails(&rt, &mut source, place(4, 3), 1);
    gives(&rt, &mut source, place(0, 6), &[10, 11, 12, 13, 14, 15]);
    gives(&rt, &mut source, place(6, 0), &[]);
    fails(&rt, &mut source, place(0, u32::MAX), 2);
    fails(&rt, &mut source, place(u64::MAX, 2), 3);
    assert!(rt; source.idle() == 0);
    fs::remove_file(&rt, path).expect(&rt, "the file");
}

#[test]
fn forgets_its_reads(rt: HostRuntime) {
    let path = "vx_base_forgets_its_reads.bytes";
    let mut source = opened(&rt, rt.alloc(), path, &[10, 11]);
    assert!(rt; source.request(0, place(0, 1)) == Ok(0));
    source.clear();
    assert!(rt; source.request(0, place(1, 1)) == Ok(1));
    assert!(rt; source.faults() == 0);
    fs::remove_file(&rt, path).expect(&rt, "the file");
}

/// So many bytes, of which each is its place's remainder by 251.
fn remainders(rt: &impl Abort, alloc: Global, count: usize) -> Vec<u8> {
    let mut bytes = Vec::new(alloc);
    for place in 0..count {
        bytes.push((place % 251) as u8).expect(rt, "memory");
    }
    bytes
}

#[test]
fn reads_behind_64_kib(rt: HostRuntime) {
    let path = "vx_base_reads_behind_64_kib.bytes";
    let bytes = remainders(&rt, rt.alloc(), 70000);
    let mut source = opened(&rt, rt.alloc(), path, bytes.as_slice());
    gives(
        &rt,
        &mut source,
        place(65530, 8),
        &[19, 20, 21, 22, 23, 24, 25, 26],
    );
    gives(&rt, &mut source, place(69996, 4), &[218, 219, 220, 221]);
    fails(&rt, &mut source, place(69996, 5), 1);
    fs::remove_file(&rt, path).expect(&rt, "the file");
}

/// Asserts that a request fails.
fn refused(rt: &impl Abort, source: &mut FileSource, length: u32, faults: u64) {
    assert!(rt;
        matches!(
            source.request(0, place(0, length)),
            Err(SourceError::Failed)
        )
    );
    assert!(rt; source.faults() == faults);
}

/// Asserts that there is no file to read, so that each request fails, of however many bytes.
fn refuses<R: Files<File = File> + Abort>(rt: &R, alloc: Global, path: Option<&str>) {
    let mut source = FileSource::new(rt, alloc, path).expect(rt, "memory");
    assert!(rt; !source.is_open());
    refused(rt, &mut source, 4294967295, 1);
    refused(rt, &mut source, 0, 2);
}

#[test]
fn refuses_what_is_no_regular_file(rt: HostRuntime) {
    let path = "vx_base_refuses.bytes";
    fs::write(&rt, path, [10u8].as_slice()).expect(&rt, "a file");
    refuses(&rt, rt.alloc(), None);
    refuses(&rt, rt.alloc(), Some(""));
    refuses(&rt, rt.alloc(), Some("vx_base_no_such_file.bytes"));
    refuses(&rt, rt.alloc(), Some("."));
    refuses(&rt, rt.alloc(), Some("/dev/null"));
    refuses(&rt, rt.alloc(), Some("/dev/zero"));
    refuses(&rt, rt.alloc(), Some("vx_base_refuses.bytes/inside"));
    fs::remove_file(&rt, path).expect(&rt, "the file");
}

/// A name of so many letters.
fn long_name(rt: &impl Abort, alloc: Global, letters: usize) -> String {
    let mut name = String::new(alloc);
    for _letter in 0..letters {
        name.push('a').expect(rt, "memory");
    }
    name
}

#[test]
fn refuses_a_name_of_5000_bytes(rt: HostRuntime) {
    let name = long_name(&rt, rt.alloc(), 5000);
    refuses(&rt, rt.alloc(), Some(name.as_str()));
}

#[test]
fn sees_a_file_shrink_and_not_grow(rt: HostRuntime) {
    let path = "vx_base_sees_a_file_shrink.bytes";
    let mut source = opened(&rt, rt.alloc(), path, &[10, 11, 12]);
    fs::write(&rt, path, [20u8, 21].as_slice()).expect(&rt, "a shorter file");
    gives(&rt, &mut source, place(0, 2), &[20, 21]);
    fails(&rt, &mut source, place(1, 2), 1);
    fs::write(&rt, path, [30u8, 31, 32, 33].as_slice()).expect(&rt, "a longer file");
    gives(&rt, &mut source, place(0, 3), &[30, 31, 32]);
    fails(&rt, &mut source, place(1, 3), 2);
    fs::remove_file(&rt, path).expect(&rt, "the file");
}
