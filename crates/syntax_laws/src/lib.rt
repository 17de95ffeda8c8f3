//! What holds of every text: with a fault it is no script and has no tree, and its first fault is one.
#![tactic(auto)]

ghost use Rattle.std.specs.Prelude.{◌≡◌, ℕ, List};
ghost use Rattle.ksh_ast.specs.declared.tree.Item.{Item};
ghost use Rattle.ksh_lexer.specs.declared.fault.SyntaxFault.{SyntaxFault};
ghost use Rattle.ksh_lexer.specs.declared.fault.SyntaxKind.TheVariants as fault;
ghost use Rattle.ksh_parser.specs.Tree.{IsScriptText, IsTree};
ghost use Rattle.ksh_scan.specs.Scan.{HasFault, IsText};

/// A text that is a script has no fault, by either of the two definitions of a script, and what has a tree is one.
pub fn scripts_have_no_fault()
    ensures text { (text : List ℕ) (f : SyntaxFault) → IsText text → HasFault text f → ⊥ }
    ensures noted { (text : List ℕ) (f : SyntaxFault) → IsScriptText text → HasFault text f → ⊥ }
    ensures tree { (text : List ℕ) (tree : List Item) → IsTree text tree → IsText text }
{}

/// A text has one first fault: where two are, neither of them `TooDeep`, they have one kind and one place. Of `TooDeep` it isn't so
/// where the 65th opening is the only way on, as in 64 groups and `f()`: no script with fewer goes on with the `(`, nor with what
/// must come behind the `)`.
pub fn one_first_fault()
    ensures { (text : List ℕ) (f g : SyntaxFault) → HasFault text f → HasFault text g → (f.kind ≡ fault.TooDeep → ⊥) → (g.kind ≡ fault.TooDeep → ⊥) → f ≡ g }
{}
