//! Kinds of node as words.

use std::alloc::Global;
use vx_base::Coding;
use vx_expr_notation::statistics_of;
use vx_layout::LayoutKind;

/// The coding of that name; plain where none is named.
fn coding_of(name: &str) -> Option<Coding> {
    match name {
        "-" | "plain" => Some(Coding::Plain),
        "constant" => Some(Coding::Constant),
        "runs" => Some(Coding::Runs),
        _ => None,
    }
}

/// The kind that is written so: `flat:0` with its segment, `flat:0:constant` or `flat:0:runs` with its coding besides,
/// `chunked`, `struct`, `dict`, `list`, and `zoned:3:min,max` or `legacy:3:min,max` with the rows of a zone and the
/// statistics, `-` for none.
pub(crate) fn kind_of(alloc: Global, word: &str) -> Option<LayoutKind> {
    let (name, parts) = word.split_once(':').unwrap_or((word, ""));
    let (number, names) = parts.split_once(':').unwrap_or((parts, "-"));
    let zone_len = number.parse::<u64>().unwrap_or(0);
    let segment = number.parse::<u32>().unwrap_or(0);
    if name == "flat" {
        let coding = coding_of(names)?;
        return Some(LayoutKind::Flat { segment, coding });
    }
    let stats = statistics_of(alloc, names).ok()?;
    match name {
        "chunked" => Some(LayoutKind::Chunked),
        "struct" => Some(LayoutKind::Struct),
        "dict" => Some(LayoutKind::Dict),
        "list" => Some(LayoutKind::List),
        "zoned" => Some(LayoutKind::Zoned { zone_len, stats }),
        "legacy" => Some(LayoutKind::LegacyStats { zone_len, stats }),
        _ => None,
    }
}
