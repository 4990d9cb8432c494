//! What holds of all tokens, as a function that does nothing.
ghost use Rattle.std.specs.Prelude.{◌≡◌, List};
ghost use Rattle.hp_base.specs.declared.limit.Limit.{Limit};
ghost use Rattle.hp_base.specs.declared.span.Span.{Span};
ghost use Rattle.hp_parser.specs.Lexemes.{Lexeme};
ghost use Rattle.hp_parser.specs.Refusals.{PassesLimit};

/// Tokens pass one limit, at one place.
pub fn one_limit_is_passed()
    ensures limit { (tokens : List Lexeme) (place other_place : Span) (limit other : Limit)
        → PassesLimit tokens place limit → PassesLimit tokens other_place other → limit ≡ other }
    ensures place { (tokens : List Lexeme) (place other_place : Span) (limit other : Limit)
        → PassesLimit tokens place limit → PassesLimit tokens other_place other → place ≡ other_place }
{}
