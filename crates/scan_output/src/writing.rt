//! Writing a text to its end.

ghost use Rattle.std.specs.Prelude.{◌≡◌};
ghost use Rattle.scan_output.specs.Writing.{WritingGives};

use vx_base::{Sink, StreamError};

/// Writes all of the text. An error leaves a front of it written.
pub fn write_all<K: Sink>(out: &mut K, text: &[u8]) -> Result<(), StreamError>
    ensures { WritingGives result text.now (K.state out.old) (K.state out.new) }
{
    let mut done = 0;
    while done < text.len() {
        let taken = out.write(&text[done..])?;
        done += taken;
    }
    Ok(())
}
