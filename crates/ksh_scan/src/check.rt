//! Whether a text is a script.
ghost use Rattle.std.specs.Prelude.{IfOk, IfErr};
ghost use Rattle.ksh_scan.specs.Scan.{IsRefused, IsText};

use crate::refusal::SyntaxRefused;
use crate::scanner::Scanner;
use std::alloc::Global;

/// Reads a text to its end. `Fault` exactly with its first fault: what stands before it can be completed to a script, and what
/// comes there can't, or ends an arithmetic text that is no expression. Aliases aren't looked up. Takes memory, time that is linear
/// in the text, and a stack that depends on it only up to the 256 levels of an expression. A text has fewer tokens than the loop has
/// turns.
pub fn check_text(alloc: Global, text: &[u8]) -> Result<(), SyntaxRefused>
    ensures fine { IfOk result (λ u. IsText text.now) }
    ensures refused { IfErr result (λ r. IsRefused text.now r) }
{
    let mut scanner = Scanner::new(alloc, text)?;
    for _ in 0..u64::MAX {
        if scanner.is_finished() {
            return Ok(());
        }
        if let Err(refused) = scanner.step(alloc) {
            return Err(refused);
        }
    }
    Err(SyntaxRefused::Memory)
}
