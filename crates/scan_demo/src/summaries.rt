//! The summary of a scan of the demo file.

ghost use Rattle.std.specs.Prelude.{◌≡◌, ◌≤◌, ◌++◌, IfOk, OnOk, map};
ghost use Rattle.scan_demo.specs.DemoRows.{demo_row, most_demo_rows};
ghost use Rattle.scan_demo.specs.Summary.{batches_text, demo_pieces, line, summary, summary_text};

use crate::row_totals::Totals;
use itoa::Buffer;
use std::alloc::{AllocError, Global};
use vx_base::Column;

/// Appends a label, a number and a newline.
fn append_line(out: &mut Vec<u8>, label: &str, number: u64) -> Result<(), AllocError>
    ensures { OnOk result (out.new.items ≡ out.old.items ++ line label.now number) }
{
    let mut digits = Buffer::new();
    out.extend_from_slice(label.as_bytes())?;
    out.extend_from_slice(digits.format(number).as_bytes())?;
    out.push(b'\n')?;
    Ok(())
}

/// The text of these numbers.
fn text_of(alloc: Global, number: u64, batches: u64, totals: Totals) -> Result<Vec<u8>, AllocError>
    ensures { IfOk result (λ text. text.items ≡ summary_text number batches totals.id_sum totals.name_nulls totals.flag_true) }
{
    let mut text = Vec::new(alloc);
    append_line(&mut text, "rows=", number)?;
    append_line(&mut text, "batches=", batches)?;
    append_line(&mut text, "id_sum=", totals.id_sum)?;
    append_line(&mut text, "name_nulls=", totals.name_nulls)?;
    append_line(&mut text, "flag_true=", totals.flag_true)?;
    Ok(text)
}

/// The summary of the batches that a scan of the demo file of so many rows gave: five lines of text. The number of rows is
/// the one that was asked for; what is counted are the batches and the three columns, up to the end of 64 bits, which a
/// million rows don't reach. It walks over the rows where they stand.
pub fn summary_of(alloc: Global, number: u64, batches: &[Column]) -> Result<Vec<u8>, AllocError>
    requires { number ≤ most_demo_rows }
    // The batches are counted, whatever they hold.
    ensures counted { IfOk result (λ text. text.items ≡ batches_text number batches.now) }
    // Where they hold the rows of the demo file, chunk by chunk, the text is its summary.
    ensures summary { IfOk result (λ text. map (λ batch. batch.values) batches.now ≡ map (map (demo_row number)) (demo_pieces number)
        → text.items ≡ summary number) }
{
    let totals = Totals::of_batches(alloc, batches)?;
    let text = text_of(alloc, number, batches.len() as u64, totals)?;
    Ok(text)
}
