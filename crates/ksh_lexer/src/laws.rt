ghost use Rattle.std.specs.Prelude.{◌≡◌, ℕ, List};
ghost use Rattle.ksh_lexer.specs.declared.fault.SyntaxKind.{SyntaxKind};
ghost use Rattle.ksh_lexer.specs.declared.kind.Token.{Token};
ghost use Rattle.ksh_lexer.specs.declared.mode.LexMode.{LexMode};
ghost use Rattle.ksh_lexer.specs.Spelled.{LongestOperator, LongestRedirection};
ghost use Rattle.ksh_lexer.specs.Spells.{Spells};
ghost use Rattle.ksh_lexer.specs.Tok.{IsFault, Tok};

/// At one place under one mode comes one token, or one fault and no token.
pub fn one_answer()
    ensures one { (m : LexMode) (text : List ℕ) (at : ℕ) (t u : Token) → Tok m text at t → Tok m text at u → t ≡ u }
    ensures none { (m : LexMode) (text : List ℕ) (at : ℕ) (t : Token) (kind : SyntaxKind) (byte : ℕ)
        → Tok m text at t → IsFault m text at kind byte → ⊥ }
    ensures fault { (m : LexMode) (text : List ℕ) (at : ℕ) (k l : SyntaxKind) (i j : ℕ)
        → IsFault m text at k i → IsFault m text at l j → (k ≡ l) × (i ≡ j) }
{}

/// A token between words is as long as each operator that stands there.
pub fn longest_operator()
    ensures operator { LongestOperator }
    ensures redirection { LongestRedirection }
{}

/// The bytes of a token are names where names are told, and paths where an element is.
pub fn spells()
    ensures { Spells }
{}
