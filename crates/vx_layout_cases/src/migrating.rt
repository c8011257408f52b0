//! The tree over a file, written anew in other codings.

use crate::nodes::write_node;
use std::alloc::{AllocError, Global};
use vx_base::{Coding, DType, Nullability, SegmentLocation};
use vx_layout::{
    LayoutKind, LayoutNode, LayoutTree, Migrated, flat_nodes, has_counted_rows, migrate,
};

/// The two fields before and after the first `|`.
fn two(text: &str) -> (&str, &str) {
    let (one, two) = text.split_once('|').unwrap_or((text, ""));
    (one.trim(), two.trim())
}

/// The coding of that name; any other word is `plain`.
fn coding_of(word: &str) -> Coding {
    match word {
        "constant" => Coding::Constant,
        "runs" => Coding::Runs,
        _ => Coding::Plain,
    }
}

/// The codings between commas; `-` is none. What has no room is left out, here and below.
fn codings_of(alloc: Global, words: &str) -> Vec<Coding> {
    let mut codings = Vec::new(alloc);
    for word in words.split(',') {
        if word != "-" {
            let _pushed = codings.push(coding_of(word)).ok();
        }
    }
    codings
}

/// The location that is written as `0+24:8`, with its offset, length and alignment.
fn location_of(word: &str) -> SegmentLocation {
    let (offset, rest) = word.split_once('+').unwrap_or((word, ""));
    let (length, alignment) = rest.split_once(':').unwrap_or((rest, ""));
    SegmentLocation {
        offset: offset.parse::<u64>().unwrap_or(0),
        length: length.parse::<u32>().unwrap_or(0),
        alignment: alignment.parse::<u32>().unwrap_or(1),
    }
}

/// The locations between commas; `-` is none.
fn locations_of(alloc: Global, words: &str) -> Vec<SegmentLocation> {
    let mut locations = Vec::new(alloc);
    for word in words.split(',') {
        if word != "-" {
            let _pushed = locations.push(location_of(word)).ok();
        }
    }
    locations
}

/// The bytes of these pairs of hexadecimal digits; any other word is 0.
fn bytes_of(alloc: Global, words: &str) -> Vec<u8> {
    let mut bytes = Vec::new(alloc);
    for word in words.split_whitespace() {
        let _pushed = bytes.push(u8::from_str_radix(word, 16).unwrap_or(0)).ok();
    }
    bytes
}

/// Appends each node.
fn write_nodes(alloc: Global, tree: &LayoutTree, out: &mut String) -> Result<(), AllocError> {
    for number in 0..tree.len() {
        write_node(alloc, tree.node(number), out)?;
        out.push_str("; ")?;
    }
    Ok(())
}

/// Appends where each segment lies.
fn write_locations(locations: &[SegmentLocation], out: &mut String) -> Result<(), AllocError> {
    for at in locations {
        write!(out, "{}+{}:{} ", at.offset, at.length, at.alignment)?;
    }
    Ok(())
}

/// Appends the bytes as pairs of hexadecimal digits.
fn write_bytes(bytes: &[u8], out: &mut String) -> Result<(), AllocError> {
    for byte in bytes {
        write!(out, " {byte:02x}")?;
    }
    Ok(())
}

/// Appends the nodes, where the segments lie, and the file.
fn write_migrated(alloc: Global, made: &Migrated, out: &mut String) -> Result<(), AllocError> {
    write_nodes(alloc, &made.tree, out)?;
    out.push_str("| ")?;
    write_locations(&made.locations, out)?;
    out.push('|')?;
    write_bytes(&made.file, out)
}

/// Appends the tree in other codings, or why there is none. Where the codings are not one for each flat node, nothing
/// is called.
fn write_moved(
    alloc: Global,
    tree: &LayoutTree,
    locations: &[SegmentLocation],
    file: &[u8],
    codings: &[Coding],
    out: &mut String,
) -> Result<(), AllocError> {
    if locations.len() > 4294967295
        || codings.len() != flat_nodes(tree)
        || !has_counted_rows(tree)
    {
        return out.push_str("other codings than flat nodes, or too many rows");
    }
    match migrate(alloc, tree, locations, file, codings) {
        Ok(made) => {
            let written = write_migrated(alloc, &made, out);
            drop(made);
            written
        }
        Err(error) => write!(out, "{error}"),
    }
}

/// Appends the tree over a file in other codings: the fields of the words are the codings, the locations, and the bytes.
pub(crate) fn write_migration(
    alloc: Global,
    tree: &LayoutTree,
    words: &str,
    out: &mut String,
) -> Result<(), AllocError> {
    let (codings, rest) = two(words);
    let (locations, bytes) = two(rest);
    let codings = codings_of(alloc, codings);
    let locations = locations_of(alloc, locations);
    let file = bytes_of(alloc, bytes);
    write_moved(alloc, tree, &locations, &file, &codings, out)
}

/// So many bytes that are 0.
fn zeros(alloc: Global, count: u64) -> Vec<u8> {
    let mut bytes = Vec::new(alloc);
    for _ in 0..count {
        let _pushed = bytes.push(0u8).ok();
    }
    bytes
}

/// A tree of one flat node of so many truth values, coded plainly, if that is one.
fn false_tree(alloc: Global, row_count: u64) -> Option<LayoutTree> {
    let mut nodes = Vec::new(alloc);
    let kind = LayoutKind::Flat {
        segment: 0,
        coding: Coding::Plain,
    };
    let node = LayoutNode {
        kind,
        dtype: DType::Bool(Nullability::NonNullable),
        row_count,
        children: Vec::new(alloc),
    };
    let _pushed = nodes.push(node).ok();
    if nodes.len() >= 1073741824 {
        return None;
    }
    LayoutTree::try_new(alloc, nodes).ok()
}

/// Appends a flat node of so many rows, all false, in the coding, or why there is none.
pub(crate) fn write_many(alloc: Global, words: &str, out: &mut String) -> Result<(), AllocError> {
    let (coding, rows) = words.split_once(' ').unwrap_or((words, ""));
    let rows = rows.parse::<u32>().unwrap_or(0);
    let Some(tree) = false_tree(alloc, rows as u64) else {
        return Ok(());
    };
    let file = zeros(alloc, rows.div_ceil(8) as u64);
    let locations = [SegmentLocation {
        offset: 0,
        length: rows.div_ceil(8),
        alignment: 1,
    }];
    let codings = [coding_of(coding)];
    let written = write_moved(alloc, &tree, &locations, &file, &codings, out);
    drop(tree);
    written
}
