//! The commands of a text.
ghost use Rattle.std.specs.Prelude.{◌≡◌, IfOk, IsErrOf, MatchResult};
ghost use Rattle.ksh_lexer.specs.declared.fault.SyntaxFault.{SyntaxFault};
ghost use Rattle.ksh_lower.specs.Lowers.{Lowers};
ghost use Rattle.ksh_parser.specs.declared.refused.Unparsed.TheVariants as unparsed;
ghost use Rattle.ksh_scan.specs.Scan.{HasFault};
ghost use Rattle.ksh_program.specs.Program.{IsProgram};

use ksh_ast::List as Tree;
use ksh_lower::lower;
use ksh_parser::{Unparsed, parse_script};
use ksh_script::List;
use std::alloc::Global;
use tree_build::release_list;

/// What a shell runs of a tree.
fn lower_tree(alloc: Global, tree: Tree) -> Result<List, Unparsed>
    ensures { MatchResult result (λ l. Lowers tree l) (λ why. why ≡ unparsed.Memory) }
{
    let lowered = lower(alloc, &tree);
    release_list(tree);
    match lowered {
        Ok(list) => Ok(list),
        Err(_) => Err(Unparsed::Memory),
    }
}

/// What a shell runs of a script's text, or the text's first fault.
#[tactic(auto, using(crate::proofs::Programs::is_program))]
pub fn read_program(alloc: Global, text: &[u8]) -> Result<List, Unparsed>
    ensures program { IfOk result (λ l. IsProgram text.now l) }
    ensures fault { (f : SyntaxFault) → IsErrOf result (Unparsed.Fault f) → HasFault text.now f }
{
    match parse_script(alloc, text) {
        Ok(tree) => lower_tree(alloc, tree),
        Err(why) => Err(why),
    }
}
