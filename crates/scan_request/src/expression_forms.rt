//! The form of expressions: the name of one without parts, an object of one member with its parts, or a literal,
//! which is an object of its value and its dtype.

ghost use Rattle.std.specs.Prelude.{◌≡◌, ◌<◌, Some, None, Err, length, IfOk, OnOk, map, option_map};
ghost use Rattle.serde_json.specs.Data.{Data, Members};
ghost use Rattle.vx_base.specs.ValueViews.{datum};
ghost use Rattle.vx_expr.specs.TermViews.{term};
ghost use Rattle.scan_json.specs.Forms.{each_form};
ghost use Rattle.scan_json.specs.Members.{AreRising};
ghost use Rattle.scan_json.specs.Reading.{read_items, read_members, read_value, reads, reads_items};
ghost use Rattle.scan_request.specs.ExpressionForms.{all_named_form, expression_form, joined_value, named_form, named_from as made_named, named_items, pair_form, pair_from as made_pair, pair_items, value_form};
ghost use Rattle.scan_request.specs.ExpressionViews.{joined_by, named_term, object_said, told_by, told_of, with_member};

use crate::dtype_forms::dtype_of;
use crate::expression_members::{Joined, ObjectMembers, expression_told, with_joined};
use crate::expression_names::{Join, Test, bare_named, field_got, packed, tested};
use json::Reader;
use scan_json::{
    Head, Unread, joined, list_begins, list_ends, next_head, pass, pass_items, pass_members, text,
};
use std::alloc::{AllocError, Global};
use vx_base::{Text, Value as Literal};
use vx_expr::Expr;

/// The value of a literal, which may be of any leaf dtype.
fn value_of(alloc: Global, reader: &mut Reader<'_>, depth: usize) -> Result<Option<Literal>, Unread>
    ensures ok { IfOk result (λ literal. reads value_form depth reader.old ≡ Some (option_map datum literal, reader.new)) }
    ensures shorter { OnOk result (length reader.new < length reader.old) }
    ensures refused { result ≡ Err Unread.Invalid → read_value depth reader.old ≡ None }
{
    match next_head(reader, depth)? {
        Head::Null => Ok(Some(Literal::Null)),
        Head::Bool(truth) => Ok(Some(Literal::Bool(truth))),
        Head::Number(number) => match number.as_i128() {
            Some(number) => Ok(Some(Literal::Int(number))),
            None => Ok(None),
        },
        Head::String(text) => {
            let text = Text::from_string(String::from_str(alloc, text)?);
            Ok(Some(Literal::Text(text)))
        }
        Head::List => {
            pass_items(reader, depth - 1)?;
            Ok(None)
        }
        Head::Object => {
            pass_members(reader, depth - 1)?;
            Ok(None)
        }
    }
}

/// An expression, which nests as deep as the value does.
#[cycle(expressions)]
pub(crate) fn expression_of(
    alloc: Global,
    reader: &mut Reader<'_>,
    depth: usize,
) -> Result<Option<Expr>, Unread>
    ensures ok { IfOk result (λ expr. reads expression_form depth reader.old ≡ Some (option_map term expr, reader.new)) }
    ensures shorter { OnOk result (length reader.new < length reader.old) }
    ensures refused { result ≡ Err Unread.Invalid → read_value depth reader.old ≡ None }
{
    match next_head(reader, depth)? {
        Head::String(name) => Ok(bare_named(name)),
        Head::Object => match members_in(alloc, reader, depth - 1) {
            Ok(told) => Ok(expression_told(told)),
            Err(error) => Err(error),
        },
        Head::List => {
            pass_items(reader, depth - 1)?;
            Ok(None)
        }
        _ => Ok(None),
    }
}

/// Reads the members of an object to its end.
#[cycle(expressions)]
fn members_in<'a>(
    alloc: Global,
    reader: &mut Reader<'a>,
    depth: usize,
) -> Result<ObjectMembers<'a>, Unread>
    ensures ok { IfOk result (λ told. (ms : Members) × (read_members depth reader.old ≡ Some (ms, reader.new)) × AreRising ms × (told_by told ≡ told_of ms)) }
    ensures shorter { OnOk result (length reader.new < length reader.old) }
    ensures refused { result ≡ Err Unread.Invalid → read_members depth reader.old ≡ None }
{
    let mut told = ObjectMembers {
        value: None,
        dtype: None,
        joined: Joined::Nothing,
    };
    'members: while let Some(name) = reader.next_key()? {
        told = member_told(alloc, reader, depth, name, told)?;
    }
    Ok(told)
}

/// Reads the value of the member of that name.
#[cycle(expressions)]
fn member_told<'a>(
    alloc: Global,
    reader: &mut Reader<'a>,
    depth: usize,
    name: &'a str,
    told: ObjectMembers<'a>,
) -> Result<ObjectMembers<'a>, Unread>
    ensures ok { IfOk result (λ after. (d : Data) × (read_value depth reader.old ≡ Some (d, reader.new)) × (told_by after ≡ with_member name.now d (told_by told.entry))) }
    ensures shorter { OnOk result (length reader.new < length reader.old) }
    ensures refused { result ≡ Err Unread.Invalid → read_value depth reader.old ≡ None }
{
    let ObjectMembers {
        value,
        dtype,
        joined,
    } = told;
    match name {
        "lit" => Ok(ObjectMembers {
            value: Some(value_of(alloc, reader, depth)?),
            dtype,
            joined,
        }),
        "type" => Ok(ObjectMembers {
            value,
            dtype: Some(dtype_of(alloc, reader, depth)?),
            joined,
        }),
        _ => {
            let expr = joined_of(alloc, name, reader, depth)?;
            Ok(ObjectMembers {
                value,
                dtype,
                joined: with_joined(joined, name, expr),
            })
        }
    }
}

/// The expression of that name, with its parts inside.
#[cycle(expressions)]
fn joined_of(
    alloc: Global,
    name: &str,
    reader: &mut Reader<'_>,
    depth: usize,
) -> Result<Option<Expr>, Unread>
    ensures ok { IfOk result (λ expr. reads (joined_value name.now) depth reader.old ≡ Some (option_map term expr, reader.new)) }
    ensures shorter { OnOk result (length reader.new < length reader.old) }
    ensures refused { result ≡ Err Unread.Invalid → read_value depth reader.old ≡ None }
{
    match name {
        "get" => Ok(field_got(alloc, named_of(alloc, reader, depth)?)?),
        "pack" => Ok(packed(all_named_of(alloc, reader, depth)?)),
        _ => match Test::of_name(name) {
            Some(test) => Ok(tested(alloc, test, expression_of(alloc, reader, depth)?)?),
            None => match Join::of_name(name) {
                Some(join) => pair_joined(alloc, join, reader, depth),
                None => {
                    pass(reader, depth)?;
                    Ok(None)
                }
            },
        },
    }
}

/// Two expressions, left and right, joined.
#[cycle(expressions)]
fn pair_joined(
    alloc: Global,
    join: Join,
    reader: &mut Reader<'_>,
    depth: usize,
) -> Result<Option<Expr>, Unread>
    ensures ok { IfOk result (λ expr. reads (λ d. option_map (λ pair. joined_by join pair.0 pair.1) (pair_form d)) depth reader.old ≡ Some (option_map term expr, reader.new)) }
    ensures shorter { OnOk result (length reader.new < length reader.old) }
    ensures refused { result ≡ Err Unread.Invalid → read_value depth reader.old ≡ None }
{
    match pair_of(alloc, reader, depth)? {
        Some((left, right)) => Ok(Some(join.join(alloc, left, right)?)),
        None => Ok(None),
    }
}

#[cycle(expressions)]
fn pair_of(
    alloc: Global,
    reader: &mut Reader<'_>,
    depth: usize,
) -> Result<Option<(Expr, Expr)>, Unread>
    ensures ok { IfOk result (λ pair. reads pair_form depth reader.old ≡ Some (option_map (λ both. (term both.0, term both.1)) pair, reader.new)) }
    ensures shorter { OnOk result (length reader.new < length reader.old) }
    ensures refused { result ≡ Err Unread.Invalid → read_value depth reader.old ≡ None }
{
    if list_begins(reader, depth)? {
        pair_in(alloc, reader, depth - 1)
    } else {
        Ok(None)
    }
}

/// Two expressions, which are a list of both.
#[cycle(expressions)]
fn pair_in(
    alloc: Global,
    reader: &mut Reader<'_>,
    depth: usize,
) -> Result<Option<(Expr, Expr)>, Unread>
    ensures ok { IfOk result (λ pair. reads_items pair_items depth reader.old ≡ Some (option_map (λ both. (term both.0, term both.1)) pair, reader.new)) }
    ensures shorter { OnOk result (length reader.new < length reader.old) }
    ensures refused { result ≡ Err Unread.Invalid → read_items depth reader.old ≡ None }
{
    if reader.take_end_array() {
        return Ok(None);
    }
    let left = expression_of(alloc, reader, depth)?;
    if reader.take_end_array() {
        return Ok(None);
    }
    let right = expression_of(alloc, reader, depth)?;
    if list_ends(reader, depth)? {
        Ok(pair_from(left, right))
    } else {
        Ok(None)
    }
}

/// Both expressions, where they are there.
fn pair_from(left: Option<Expr>, right: Option<Expr>) -> Option<(Expr, Expr)>
    ensures { option_map (λ both. (term both.0, term both.1)) result ≡ made_pair (option_map term left) (option_map term right) }
{
    match (left, right) {
        (Some(left), Some(right)) => Some((left, right)),
        _ => None,
    }
}

#[cycle(expressions)]
fn all_named_of(
    alloc: Global,
    reader: &mut Reader<'_>,
    depth: usize,
) -> Result<Option<Vec<(Text, Expr)>>, Unread>
    ensures ok { IfOk result (λ list. reads all_named_form depth reader.old ≡ Some (option_map (λ v. map named_term v.items) list, reader.new)) }
    ensures shorter { OnOk result (length reader.new < length reader.old) }
    ensures refused { result ≡ Err Unread.Invalid → read_value depth reader.old ≡ None }
{
    if list_begins(reader, depth)? {
        named_in(alloc, reader, depth - 1)
    } else {
        Ok(None)
    }
}

/// The named expressions of a struct, in order.
#[cycle(expressions)]
fn named_in(
    alloc: Global,
    reader: &mut Reader<'_>,
    depth: usize,
) -> Result<Option<Vec<(Text, Expr)>>, Unread>
    ensures ok { IfOk result (λ list. reads_items (each_form named_form) depth reader.old ≡ Some (option_map (λ v. map named_term v.items) list, reader.new)) }
    ensures shorter { OnOk result (length reader.new < length reader.old) }
    ensures refused { result ≡ Err Unread.Invalid → read_items depth reader.old ≡ None }
{
    let mut made = Some(Vec::new(alloc));
    'items: while !reader.take_end_array() {
        let item = named_of(alloc, reader, depth)?;
        made = joined(made, item)?;
    }
    Ok(made)
}

#[cycle(expressions)]
fn named_of(
    alloc: Global,
    reader: &mut Reader<'_>,
    depth: usize,
) -> Result<Option<(Text, Expr)>, Unread>
    ensures ok { IfOk result (λ part. reads named_form depth reader.old ≡ Some (option_map named_term part, reader.new)) }
    ensures shorter { OnOk result (length reader.new < length reader.old) }
    ensures refused { result ≡ Err Unread.Invalid → read_value depth reader.old ≡ None }
{
    if list_begins(reader, depth)? {
        named_inside(alloc, reader, depth - 1)
    } else {
        Ok(None)
    }
}

/// An expression with its name, which is a list of both.
#[cycle(expressions)]
fn named_inside(
    alloc: Global,
    reader: &mut Reader<'_>,
    depth: usize,
) -> Result<Option<(Text, Expr)>, Unread>
    ensures ok { IfOk result (λ part. reads_items named_items depth reader.old ≡ Some (option_map named_term part, reader.new)) }
    ensures shorter { OnOk result (length reader.new < length reader.old) }
    ensures refused { result ≡ Err Unread.Invalid → read_items depth reader.old ≡ None }
{
    if reader.take_end_array() {
        return Ok(None);
    }
    let name = text(reader, depth)?;
    if reader.take_end_array() {
        return Ok(None);
    }
    let expr = expression_of(alloc, reader, depth)?;
    match list_ends(reader, depth) {
        Ok(true) => Ok(named_from(alloc, name, expr)?),
        Ok(false) => {
            drop(expr);
            Ok(None)
        }
        Err(error) => {
            drop(expr);
            Err(Unread::from(error))
        }
    }
}

/// The expression of that name, where both are there.
fn named_from(
    alloc: Global,
    name: Option<&str>,
    expr: Option<Expr>,
) -> Result<Option<(Text, Expr)>, AllocError>
    ensures { IfOk result (λ part. option_map named_term part ≡ made_named (option_map (λ s. s.now) name.entry) (option_map term expr)) }
{
    match (name, expr) {
        (Some(name), Some(expr)) => {
            let name = Text::from_string(String::from_str(alloc, name)?);
            Ok(Some((name, expr)))
        }
        _ => Ok(None),
    }
}
