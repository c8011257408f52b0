//! The printed form of expressions: `($.a + 2)`, `not(is_null($))`, `{n: #row_idx, v: $}`.

ghost use Rattle.std.specs.Prelude.{◌≡◌, ◌++◌, OnOk};
ghost use Rattle.std.specs.Fmt.{signed_decimal};
ghost use Rattle.std.specs.List.{flat_map};
ghost use Rattle.vx_base.specs.ValueViews.{datum};
ghost use Rattle.vx_base.specs.TypeText.{separator};
ghost use Rattle.vx_expr.specs.TermText.{compare_sign, arith_sign, quoted_byte, literal_text, call_text, pair_text, term_text, terms_text};
ghost use Rattle.vx_expr.specs.Terms.{get_field, pack, IsPair};
ghost use Rattle.vx_expr.specs.TermViews.{term};

use crate::expressions::{Expr, NamedExprs, Operand};
use std::alloc::{AllocError, Global};
use vx_base::{Text, Value};
use vx_operators::{ArithOp, CompareOp};

/// The sign between the operands of a comparison.
fn compare_sign(op: CompareOp) -> &'static [u8]
    ensures { result.now ≡ compare_sign op }
{
    match op {
        CompareOp::Eq => b"=",
        CompareOp::Ne => b"!=",
        CompareOp::Lt => b"<",
        CompareOp::Le => b"<=",
        CompareOp::Gt => b">",
        CompareOp::Ge => b">=",
    }
}

/// The sign between the operands of arithmetic.
fn arith_sign(op: ArithOp) -> &'static [u8]
    ensures { result.now ≡ arith_sign op }
{
    match op {
        ArithOp::Add => b"+",
        ArithOp::Sub => b"-",
        ArithOp::Mul => b"*",
        ArithOp::Div => b"/",
    }
}

/// Writes a text in double quotes.
fn write_quoted(bytes: &[u8], out: &mut Vec<u8>) -> Result<(), AllocError>
    ensures { OnOk result (out.new.items ≡ out.old.items ++ flat_map quoted_byte bytes.now) }
{
    for byte in bytes {
        if *byte == b'"' || *byte == b'\\' {
            out.push(b'\\')?;
        }
        out.push(*byte)?;
    }
    Ok(())
}

/// Writes a number in decimal.
fn write_number(alloc: Global, number: i128, out: &mut Vec<u8>) -> Result<(), AllocError>
    ensures { OnOk result (out.new.items ≡ out.old.items ++ signed_decimal number) }
{
    let text = format!(in alloc; "{number}")?;
    out.extend_from_slice(text.as_bytes())
}

/// Writes a literal. A struct is none.
fn write_literal(alloc: Global, value: &Value, out: &mut Vec<u8>) -> Result<(), AllocError>
    ensures { OnOk result (out.new.items ≡ out.old.items ++ literal_text (datum value.now)) }
{
    match value {
        Value::Null => out.extend_from_slice(b"null"),
        Value::Bool(true) => out.extend_from_slice(b"true"),
        Value::Bool(false) => out.extend_from_slice(b"false"),
        Value::Int(number) => write_number(alloc, *number, out),
        Value::Text(text) => {
            out.push(b'"')?;
            write_quoted(text.as_str().as_bytes(), out)?;
            out.push(b'"')?;
            Ok(())
        }
        Value::Struct(_) => Ok(()),
    }
}

/// Writes a comma and a space before each part but the first.
fn write_separator(place: usize, out: &mut Vec<u8>) -> Result<(), AllocError>
    ensures { OnOk result (out.new.items ≡ out.old.items ++ separator place) }
{
    if 0 < place {
        out.extend_from_slice(b", ")?;
    }
    Ok(())
}

impl NamedExprs {
    /// Writes the names and the parts, with a comma between two of them.
    #[tactic(auto, using(crate::proofs::PairTexts::text_more, crate::proofs::PairTexts::text_done))]
    #[cycle(text)]
    fn write_text(&self, alloc: Global, out: &mut Vec<u8>) -> Result<(), AllocError>
        ensures { OnOk result (out.new.items ≡ out.old.items ++ terms_text self.now) }
    {
        let items = self.items();
        for (place, item) in items.iter().enumerate() {
            write_separator(place, out)?;
            out.extend_from_slice(item.0.as_str().as_bytes())?;
            out.extend_from_slice(b": ")?;
            item.1.write_text(alloc, out)?;
        }
        Ok(())
    }

    /// Writes the struct of them.
    #[cycle(text)]
    fn write_struct(&self, alloc: Global, out: &mut Vec<u8>) -> Result<(), AllocError>
        ensures { OnOk result (out.new.items ≡ out.old.items ++ term_text (pack self.now)) }
    {
        out.push(b'{')?;
        self.write_text(alloc, out)?;
        out.extend_from_slice(b"}")
    }
}

impl Operand {
    /// Writes the field of that name of this operand.
    #[cycle(text)]
    fn write_field(&self, alloc: Global, name: &Text, out: &mut Vec<u8>) -> Result<(), AllocError>
        ensures { OnOk result (out.new.items ≡ out.old.items ++ term_text (get_field name.now self.now)) }
    {
        self.expr().write_text(alloc, out)?;
        out.push(b'.')?;
        out.extend_from_slice(name.as_str().as_bytes())
    }

    /// Writes a call with this operand.
    #[cycle(text)]
    fn write_call(&self, alloc: Global, word: &[u8], out: &mut Vec<u8>) -> Result<(), AllocError>
        ensures { OnOk result (out.new.items ≡ out.old.items ++ call_text word.now (term_text self.now)) }
    {
        out.extend_from_slice(word)?;
        self.expr().write_text(alloc, out)?;
        out.extend_from_slice(b")")
    }

    /// Writes this operand and another one with a sign between them.
    #[cycle(text)]
    fn write_pair(
        &self,
        alloc: Global,
        sign: &[u8],
        right: &Operand,
        out: &mut Vec<u8>,
    ) -> Result<(), AllocError>
        ensures { OnOk result (out.new.items ≡ out.old.items ++ pair_text sign.now (term_text self.now) (term_text right.now)) }
    {
        out.push(b'(')?;
        self.expr().write_text(alloc, out)?;
        out.push(b' ')?;
        out.extend_from_slice(sign)?;
        out.push(b' ')?;
        right.expr().write_text(alloc, out)?;
        out.extend_from_slice(b")")
    }
}

impl Expr {
    /// Writes the printed form of the expression.
    #[cycle(text)]
    pub(crate) fn write_text(&self, alloc: Global, out: &mut Vec<u8>) -> Result<(), AllocError>
        ensures { OnOk result (out.new.items ≡ out.old.items ++ term_text (term self.now)) }
    {
        match self {
            Expr::Root => out.extend_from_slice(b"$"),
            Expr::Lit(value, _) => write_literal(alloc, value, out),
            Expr::GetField(name, operand) => operand.write_field(alloc, name, out),
            Expr::Pack(items) => items.write_struct(alloc, out),
            Expr::RowIdx => out.extend_from_slice(b"#row_idx"),
            Expr::Not(operand) => operand.write_call(alloc, b"not(", out),
            Expr::IsNull(operand) => operand.write_call(alloc, b"is_null(", out),
            Expr::IsNotNull(operand) => operand.write_call(alloc, b"is_not_null(", out),
            Expr::AtMostBound(operand) => operand.write_call(alloc, b"at_most_bound(", out),
            _ => self.write_parts(alloc, out),
        }
    }

    /// Writes an expression of two parts.
    #[cycle(text)]
    fn write_parts(&self, alloc: Global, out: &mut Vec<u8>) -> Result<(), AllocError>
        requires { IsPair (term self.now) }
        ensures { OnOk result (out.new.items ≡ out.old.items ++ term_text (term self.now)) }
    {
        match self {
            Expr::And(left, right) => left.write_pair(alloc, b"and", right, out),
            Expr::Or(left, right) => left.write_pair(alloc, b"or", right, out),
            Expr::Compare(op, left, right) => left.write_pair(alloc, compare_sign(*op), right, out),
            Expr::Arith(op, left, right) => left.write_pair(alloc, arith_sign(*op), right, out),
            _ => unreachable!(),
        }
    }
}
