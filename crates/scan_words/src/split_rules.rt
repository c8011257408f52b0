//! The rules by which rows are split, as words of the command line.

ghost use Rattle.std.specs.Prelude.{◌≡◌, IfSome};
ghost use Rattle.vx_split_rules.specs.Rules.{IsZeroSize};
ghost use Rattle.scan_words.specs.SplitRules.{split_rule};

use crate::numbers::number_between;
use vx_split_rules::SplitBy;

/// The rule that the text names: `layout`, `sub:N` or `rows:N`. It has some rows.
#[tactic(auto, unfolding(crate::specs::SplitRules::split_rule))]
pub fn split_rule(text: &str) -> Option<SplitBy>
    ensures rule { result ≡ split_rule text.now }
    ensures sized { IfSome result (λ rule. IsZeroSize rule → ⊥) }
{
    if text == "layout" {
        return Some(SplitBy::Layout);
    }
    if let Some(size) = text.strip_prefix("sub:") {
        let max_rows = number_between(1, u64::MAX, size)?;
        return Some(SplitBy::LayoutSubSplitting { max_rows });
    }
    let size = text.strip_prefix("rows:")?;
    let rows = number_between(1, u64::MAX, size)?;
    Some(SplitBy::RowCount(rows))
}
