//! What holds of every text, as functions that do nothing.
ghost use Rattle.std.specs.Prelude.{◌≡◌, ◌⊎◌, ◌≤◌, List, [], ℕ, length};
ghost use Rattle.std.specs.List.{AllByRecursion};
ghost use Rattle.hp_base.specs.Limits.{most};
ghost use Rattle.hp_base.specs.declared.limit.What.TheVariants.{Size};
ghost use Rattle.hp_lexer.specs.Written.{Written, IsWritable, written_text, written_tokens};
ghost use Rattle.hp_lexer.specs.Lexing.{AreTokensOf, Refuses};
ghost use Rattle.hp_lexer.specs.declared.lexer.LexErr.{LexErr};
ghost use Rattle.hp_lexer.specs.declared.token.Token.{Token};

/// Every text has tokens or is refused.
pub fn tokens_or_refusal()
    ensures { (text : List ℕ)
        → ((tokens : List Token) × AreTokensOf text tokens) ⊎ ((error : LexErr) × Refuses text error) }
{}

/// No text has two lists of tokens, two refusals, or both.
pub fn one_reading()
    ensures tokens { (text : List ℕ) (tokens others : List Token)
        → AreTokensOf text tokens → AreTokensOf text others → tokens ≡ others }
    ensures refusal { (text : List ℕ) (error other : LexErr)
        → Refuses text error → Refuses text other → error ≡ other }
    ensures not_both { (text : List ℕ) (tokens : List Token) (error : LexErr)
        → AreTokensOf text tokens → Refuses text error → ⊥ }
{}

/// Tokens that are written one behind the other, with a blank behind each, are read again.
pub fn written_tokens_are_read()
    ensures { (written : List Written)
        → AllByRecursion IsWritable written
        → length (written_text written) ≤ most Size
        → AreTokensOf (written_text written) (written_tokens [] written) }
{}
