//! The next value of a text, but for what is in a list or an object.

ghost use Rattle.std.specs.Prelude.{◌≡◌, ◌<◌, true, None, length, IfOk, OnOk, OnErr};
ghost use Rattle.scan_json.specs.Reading.{IsTail, read_value, head_reads, is_nested};

use crate::numbers::number_in;
use json::{Invalid, Reader, Token};
use serde_json::Number;

/// A value, or that a list or an object begins.
#[derive(Clone, Copy)]
pub enum Head<'a> {
    Null,
    Bool(bool),
    Number(Number),
    String(&'a str),
    /// A list, whose items come next.
    List,
    /// An object, whose members come next.
    Object,
}

/// Reads the next value, or the bracket that begins it. Lists and objects nest `depth` deep at most.
pub fn next_head<'a>(reader: &mut Reader<'a>, depth: usize) -> Result<Head<'a>, Invalid>
    ensures ok { IfOk result (λ head. read_value depth reader.old ≡ head_reads head depth reader.new) }
    ensures deep { IfOk result (λ head. is_nested head ≡ true → 0 < depth) }
    ensures shorter { OnOk result (length reader.new < length reader.old) }
    ensures refused { OnErr result (read_value depth reader.old ≡ None) }
    ensures left { IsTail reader.old reader.new }
{
    let token = reader.next().ok_or(Invalid)?;
    match token {
        Token::String(text) => Ok(Head::String(text)),
        Token::Number(text) => match number_in(text) {
            Some(number) => Ok(Head::Number(number)),
            None => Err(Invalid),
        },
        Token::Bool(truth) => Ok(Head::Bool(truth)),
        Token::Null => Ok(Head::Null),
        Token::EndObject | Token::EndArray | Token::Key(_) | Token::Bad => Err(Invalid),
        Token::BeginArray => if depth == 0 {
            Err(Invalid)
        } else {
            Ok(Head::List)
        },
        Token::BeginObject => if depth == 0 {
            Err(Invalid)
        } else {
            Ok(Head::Object)
        },
    }
}
