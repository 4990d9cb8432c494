//! What the program of a text has: plain names, parts in each `merge`, and fewer than a million inlined calls in each node.
//!
//! The functions here do nothing: each is a law, which its contract states.
#![tactic(auto)]

ghost use Rattle.law_judged.specs.Plain.Laws.{FewCallsLaw, MergesLaw, OfTextLaw, PlainNamesLaw, ReplacedTextLaw};

/// The names that the program of a text declares have no `$`, and at most 255 bytes.
pub fn names_of_texts_are_plain()
    ensures { PlainNamesLaw }
{}

/// The program that is parsed is that of its text, and each `merge` in it has a part.
pub fn merges_of_texts_have_parts()
    ensures merges { MergesLaw }
    ensures of_text { OfTextLaw }
{}

/// No node of the program of a text has a million inlined calls, for which the text has no room.
pub fn texts_have_few_calls()
    ensures { FewCallsLaw }
{}

/// So in an accepted program of a text, with its inlined calls replaced, each local is declared once and has an equation, and what
/// control equations define is declared.
pub fn replaced_texts_keep_scopes()
    ensures { ReplacedTextLaw }
{}
