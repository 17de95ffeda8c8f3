//! From a script to its notes.
ghost use Rattle.std.specs.Prelude.{◌≡◌, [], IfOk, IfErr};
ghost use Rattle.ksh_scan.specs.Scan.{IsRefused, IsText};
ghost use Rattle.script_notes.specs.Noted.{line_of, IsNoted};

use crate::note::Notes;
use crate::noting::Noting;
use ksh_lexer::Lexer;
use ksh_scan::{Scanner, SyntaxRefused};
use std::alloc::Global;

/// What counts a script's lines.
fn lines_of<'a>(alloc: Global, text: &'a [u8]) -> Result<Lexer<'a>, SyntaxRefused>
    ensures ok { IfOk result (λ l. l ≡ (text.now, 0, [])) }
    ensures refused { IfErr result (λ r. IsRefused text.now r) }
{
    match Lexer::new(alloc, text) {
        Ok(lexer) => Ok(lexer),
        Err(fault) => Err(SyntaxRefused::Fault(fault)),
    }
}

/// The line of a byte, which is counted on from the one that was asked for last.
#[tactic(auto, using(crate::proofs::Keeping::line_within))]
fn line_at(lines: &mut Lexer<'_>, byte: usize) -> u32
    ensures line { result ≡ line_of lines.old.0 byte }
    ensures same { lines.new ≡ lines.old }
{
    let within = byte.min(lines.text().len());
    lines.line_at(within)
}

/// Notes a script's tokens and what is told between them, text by text: the script's, and each here-document's body. `Fault`
/// exactly with the text's first fault, as `check_text` has it. Takes memory, and time that is linear in the text. A text has
/// fewer tokens than the loop has turns.
pub fn note_script(alloc: Global, text: &[u8]) -> Result<Notes, SyntaxRefused>
    ensures noted { IfOk result (λ notes. IsNoted text.now notes) }
    ensures fine { IfOk result (λ notes. IsText text.now) }
    ensures refused { IfErr result (λ r. IsRefused text.now r) }
{
    let mut lines = lines_of(alloc, text)?;
    let mut scanner = Scanner::new(alloc, text)?;
    let mut noting = Noting::new(alloc)?;
    for _ in 0..u64::MAX {
        if scanner.is_finished() {
            return Ok(noting.finish());
        }
        match scanner.step(alloc) {
            Ok(read) => {
                let line = line_at(&mut lines, read.seen.token.from);
                noting.note(alloc, read, line, scanner.marks())?;
            }
            Err(refused) => return Err(refused),
        }
    }
    Err(SyntaxRefused::Memory)
}
