//! Texts as JSON strings.

ghost use Rattle.std.specs.Prelude.{◌≡◌, ◌<◌, ◌++◌, ◌∷◌, [], false, nat_lt, if◌then◌else◌, codes, IsTrue, OnOk};
ghost use Rattle.std.specs.Fmt.{digit_glyph};
ghost use Rattle.std.specs.List.{flat_map};
ghost use Rattle.scan_output.specs.RowText.{escaped, hex_digits, json_string};

use std::alloc::AllocError;

/// The hexadecimal digit of a number below 16, in lower case.
fn hex_digit(number: u8) -> u8
    requires { number < 16 }
    ensures { result ≡ digit_glyph false number }
{
    if number < 10 {
        b'0' + number
    } else {
        b'a' + (number - 10)
    }
}

/// Whether the byte stands in a string as it is.
#[tactic(auto, unfolding(crate::specs::RowText::escaped))]
fn is_plain(byte: u8) -> bool
    ensures { IsTrue result → escaped byte ≡ byte ∷ [] }
{
    byte >= b' ' && byte != b'"' && byte != b'\\'
}

/// Appends a control character by its number, and another byte as it is.
fn append_by_number(out: &mut Vec<u8>, byte: u8) -> Result<(), AllocError>
    ensures { OnOk result (out.new.items ≡ out.old.items ++ (if nat_lt byte 32 then codes "\\u00" ++ hex_digits byte else byte ∷ [])) }
{
    if byte < b' ' {
        out.extend_from_slice(b"\\u00")?;
        out.push(hex_digit(byte / 16))?;
        out.push(hex_digit(byte % 16))?;
    } else {
        out.push(byte)?;
    }
    Ok(())
}

/// Appends what stands in a string for the byte.
#[tactic(auto, unfolding(crate::specs::RowText::escaped))]
fn append_escaped(out: &mut Vec<u8>, byte: u8) -> Result<(), AllocError>
    ensures { OnOk result (out.new.items ≡ out.old.items ++ escaped byte) }
{
    match byte {
        b'"' => out.extend_from_slice(b"\\\""),
        b'\\' => out.extend_from_slice(b"\\\\"),
        0x08 => out.extend_from_slice(b"\\b"),
        b'\t' => out.extend_from_slice(b"\\t"),
        b'\n' => out.extend_from_slice(b"\\n"),
        0x0c => out.extend_from_slice(b"\\f"),
        b'\r' => out.extend_from_slice(b"\\r"),
        _ => append_by_number(out, byte),
    }
}

/// Appends the bytes of a string, each as it stands there. Bytes that stand as they are are copied together.
#[tactic(auto, using(crate::proofs::Strings::plain_waits, crate::proofs::Strings::escape_written, crate::proofs::Strings::rest_written))]
fn append_each(out: &mut Vec<u8>, bytes: &[u8]) -> Result<(), AllocError>
    ensures { OnOk result (out.new.items ≡ out.old.items ++ flat_map escaped bytes.now) }
{
    let mut done = 0;
    for (place, byte) in bytes.iter().enumerate() {
        if !is_plain(*byte) {
            out.extend_from_slice(&bytes[done..place])?;
            append_escaped(out, *byte)?;
            done = place + 1;
        }
    }
    out.extend_from_slice(&bytes[done..])
}

/// Appends the bytes as a JSON string.
pub(crate) fn append_string(out: &mut Vec<u8>, bytes: &[u8]) -> Result<(), AllocError>
    ensures { OnOk result (out.new.items ≡ out.old.items ++ json_string bytes.now) }
{
    out.push(b'"')?;
    append_each(out, bytes)?;
    out.push(b'"')?;
    Ok(())
}
