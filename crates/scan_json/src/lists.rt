//! The items of a list, one after another: none of them are kept once one isn't what it should be.

ghost use Rattle.std.specs.Prelude.{◌≡◌, ◌∷◌, [], IfOk, option_map};
ghost use Rattle.scan_json.specs.Forms.{followed_by};

use std::alloc::AllocError;

/// The items with one more.
pub fn joined<X: Drop>(made: Option<Vec<X>>, item: Option<X>) -> Result<Option<Vec<X>>, AllocError>
    ensures { IfOk result (λ all. option_map (λ v. v.items) all ≡ followed_by (option_map (λ v. v.items) made) (option_map (λ x. x ∷ []) item)) }
{
    match (made, item) {
        (Some(items), Some(item)) => {
            let mut items = items;
            items.push(item)?;
            Ok(Some(items))
        }
        _ => Ok(None),
    }
}
