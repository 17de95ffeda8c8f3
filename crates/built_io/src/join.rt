ghost use Rattle.std.specs.Prelude.{◌≡◌, IfOk};
ghost use Rattle.ksh_meaning.specs.Print.{joined};

use ksh_base::{Memory, Text};
use std::alloc::Global;

/// Words with one blank between.
#[tactic(auto, using(crate::proofs::Joined::following_one))]
pub fn joined(alloc: Global, words: &[Text]) -> Result<Text, Memory>
    ensures { IfOk result (λ t. t ≡ joined words.now) }
{
    let mut text = Text::empty(alloc);
    let Some((first, others)) = words.split_first() else {
        return Ok(text);
    };
    text.append(first.bytes())?;
    for word in others {
        text.push(b' ')?;
        text.append(word.bytes())?;
    }
    Ok(text)
}
