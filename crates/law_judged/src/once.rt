//! Each name has one equation in its block, in judged programs and where inlined calls are replaced and clocks are written.
//!
//! The functions here do nothing: each is a law, which its contract states.
#![tactic(auto)]

ghost use Rattle.law_judged.specs.Once.Laws.{ClocksLaw, JudgedOnceLaw, OnceLaw, ReplacedOnceLaw, SinglyLaw};

/// In a program whose names are well used and well defined each name has one equation in its block, and stands there once on the left.
pub fn equations_stand_alone()
    ensures singly { SinglyLaw }
    ensures once { OnceLaw }
{}

/// Writing clocks keeps that.
pub fn clocks_keep_equations_alone()
    ensures { ClocksLaw }
{}

/// In a program whose inlined calls are replaced each name has one equation in its block, where the calls can be replaced; and so in
/// each judged program.
pub fn replacing_keeps_equations_alone()
    ensures replaced { ReplacedOnceLaw }
    ensures judged { JudgedOnceLaw }
{}
