//! The definition of the words on command lines that are written out.

ghost use Rattle.std.specs.Prelude.{◌≡◌, [], None};
ghost use Rattle.scan_words.specs.Lines.{AskAsTold, AskNothing};
ghost use Rattle.scan_words.specs.Words.{command_of};

/// Lines that ask what stands beside them, and lines that ask nothing, as no words do.
pub fn words_by_hand()
    ensures no_words { command_of [] ≡ None }
    ensures asking { AskAsTold }
    ensures faulty { AskNothing }
{}
