//! Expressions as words, each part before the whole.

use std::alloc::{AllocError, Global};
use vx_base::{DType, Nullability, Text, Value};
use vx_expr::{ArithOp, CompareOp, Expr};
use vx_notation::{dtype_of, value_of};

/// What a word makes of the two parts before it.
#[derive(Clone, Copy)]
enum Sign {
    And,
    Or,
    Compare(CompareOp),
    Arith(ArithOp),
}

/// The sign that the word is.
fn sign_of(word: &str) -> Option<Sign> {
    match word {
        "and" => Some(Sign::And),
        "or" => Some(Sign::Or),
        "=" => Some(Sign::Compare(CompareOp::Eq)),
        "!=" => Some(Sign::Compare(CompareOp::Ne)),
        "<" => Some(Sign::Compare(CompareOp::Lt)),
        "<=" => Some(Sign::Compare(CompareOp::Le)),
        ">" => Some(Sign::Compare(CompareOp::Gt)),
        ">=" => Some(Sign::Compare(CompareOp::Ge)),
        "+" => Some(Sign::Arith(ArithOp::Add)),
        "-" => Some(Sign::Arith(ArithOp::Sub)),
        "*" => Some(Sign::Arith(ArithOp::Mul)),
        "/" => Some(Sign::Arith(ArithOp::Div)),
        _ => None,
    }
}

/// The literal that is written as value and dtype, as `5:i64`; what is no value is null, what is no dtype `bool`.
fn literal(alloc: Global, value: &str, dtype: &str) -> Expr {
    let value = value_of(alloc, value).unwrap_or(Value::Null);
    let dtype = dtype_of(alloc, dtype).unwrap_or(DType::Bool(Nullability::NonNullable));
    Expr::Lit(value, dtype)
}

/// The last of the parts; the root where there is none.
fn popped(parts: &mut Vec<Expr>) -> Expr {
    parts.pop().unwrap_or(Expr::Root)
}

/// The expression that a sign makes of the last two parts.
fn of_two(alloc: Global, sign: Sign, parts: &mut Vec<Expr>) -> Result<Expr, AllocError> {
    let right = popped(parts);
    let left = popped(parts);
    match sign {
        Sign::And => Expr::and(alloc, left, right),
        Sign::Or => Expr::or(alloc, left, right),
        Sign::Compare(op) => Expr::compare(alloc, op, left, right),
        Sign::Arith(op) => Expr::arith(alloc, op, left, right),
    }
}

/// The expression that a word makes of one part. A word that is none is refused.
fn of_one(alloc: Global, word: &str, part: Expr) -> Result<Expr, AllocError> {
    match word {
        "not" => Expr::negation(alloc, part),
        "is_null" => Expr::is_null(alloc, part),
        "is_not_null" => Expr::is_not_null(alloc, part),
        "at_most_bound" => Expr::at_most_bound(alloc, part),
        _ => Err(AllocError),
    }
}

/// The field of that name of the last part.
fn field_of(alloc: Global, name: &str, parts: &mut Vec<Expr>) -> Result<Expr, AllocError> {
    let name = Text::from_string(String::from_str(alloc, name)?);
    Expr::get_field(alloc, name, popped(parts))
}

/// The struct of the last parts, by the names between commas.
fn of_named(alloc: Global, names: &str, parts: &mut Vec<Expr>) -> Result<Expr, AllocError> {
    let mut items = Vec::new(alloc);
    for name in names.rsplit(',') {
        let name = String::from_str(alloc, name)?;
        items.push((Text::from_string(name), popped(parts)))?;
    }
    items.reverse();
    Ok(Expr::pack(items))
}

/// The expression that a word makes of the last parts.
fn of_parts(alloc: Global, word: &str, parts: &mut Vec<Expr>) -> Result<Expr, AllocError> {
    if let Some(sign) = sign_of(word) {
        return of_two(alloc, sign, parts);
    }
    if let Some(name) = word.strip_prefix('.') {
        return field_of(alloc, name, parts);
    }
    match word.strip_prefix('{') {
        Some(names) => of_named(alloc, names.strip_suffix('}').unwrap_or(names), parts),
        None => of_one(alloc, word, popped(parts)),
    }
}

/// The expression that a word makes.
fn made_of(alloc: Global, word: &str, parts: &mut Vec<Expr>) -> Result<Expr, AllocError> {
    if let Some((value, dtype)) = word.rsplit_once(':') {
        return Ok(literal(alloc, value, dtype));
    }
    match word {
        "$" => Ok(Expr::Root),
        "#row_idx" => Ok(Expr::RowIdx),
        "{}" => Ok(Expr::pack(Vec::new(alloc))),
        _ => of_parts(alloc, word, parts),
    }
}

/// Puts what a word makes in the place of its parts, as often as it is meant: `not^3` is `not not not`.
fn push_word(alloc: Global, word: &str, parts: &mut Vec<Expr>) -> Result<(), AllocError> {
    let (word, times) = word.split_once('^').unwrap_or((word, "1"));
    for _time in 0..times.parse::<u64>().unwrap_or(0) {
        let made = made_of(alloc, word, parts)?;
        parts.push(made)?;
    }
    Ok(())
}

/// The expression that the words spell; no words are the root. Words are `$`, `#row_idx`, a literal as `5:i64`, a field
/// as `.a`, the struct of the last parts as `{a,b}`, a sign between the last two parts, as `and`, `<=` or `+`, and
/// `not`, `is_null`, `is_not_null` and `at_most_bound`. A word that is none of these, and parts that are left over, are
/// refused, as want of memory is.
pub fn spelled(alloc: Global, words: &str) -> Result<Expr, AllocError> {
    let mut parts = Vec::new(alloc);
    for word in words.split_whitespace() {
        push_word(alloc, word, &mut parts)?;
    }
    let whole = popped(&mut parts);
    if parts.is_empty() {
        Ok(whole)
    } else {
        Err(AllocError)
    }
}
