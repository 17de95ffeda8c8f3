//! The tree of a text.
ghost use Rattle.std.specs.Prelude.{IfOk, IsErrOf};
ghost use Rattle.ksh_lexer.specs.declared.fault.SyntaxFault.{SyntaxFault};
ghost use Rattle.ksh_scan.specs.Scan.{HasFault};
ghost use Rattle.ksh_parser.specs.Tree.{IsTree};

use crate::build::build;
use crate::refused::Unparsed;
use ksh_ast::List;
use ksh_scan::SyntaxRefused;
use note_moves::each_text_leads;
use note_signs::tokens_fit;
use script_notes::note_script;
use std::alloc::Global;
use tree_build::Unbuilt;

/// The tree of a script's text of at most 16,777,216 bytes, or the text's first fault: what was read before it can be completed, and
/// what comes can't. Aliases are not put in.
#[tactic(auto, using(crate::proofs::Building::is_tree, crate::proofs::Hearing::can_be_heard))]
pub fn parse_script(alloc: Global, text: &[u8]) -> Result<List, Unparsed>
    ensures tree { IfOk result (λ l. IsTree text.now l) }
    ensures fault { (f : SyntaxFault) → IsErrOf result (Unparsed.Fault f) → HasFault text.now f }
{
    match note_script(alloc, text) {
        Ok(notes) => {
            tokens_fit();
            each_text_leads();
            match build(alloc, text, &notes) {
                Ok(list) => Ok(list),
                Err(Unbuilt::Stray) => unreachable!(),
                Err(Unbuilt::Memory) => Err(Unparsed::Memory),
            }
        }
        Err(SyntaxRefused::Fault(fault)) => Err(Unparsed::Fault(fault)),
        Err(SyntaxRefused::Memory) => Err(Unparsed::Memory),
    }
}
