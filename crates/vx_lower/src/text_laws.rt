//! The laws of the texts of plans. Each is the contract of a function that does nothing.

ghost use Rattle.std.specs.Prelude.{◌≡◌, [], ◌∷◌, codes, false};
ghost use Rattle.vx_lower.specs.PlanText.{all_headers, plan_text};
ghost use Rattle.vx_lower.specs.TextLaws.{says_x, tested, LinesUnfold};

/// The lines of a plan are its own and those of its children below it, each under its name.
pub fn texts_unfold()
    ensures { LinesUnfold }
{}

/// A plan by hand: its names alone, and with what a boxed extractor says of each.
pub fn texts_by_hand()
    ensures names { plan_text (all_headers false []) tested 2 ≡ codes "root:\n  child:\n    child:\n" }
    ensures boxed { plan_text (all_headers false (says_x ∷ [])) tested 2 ≡ codes "root: x\n  child: x\n    child: x\n" }
{}
