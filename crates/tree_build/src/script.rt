//! Bytes of the script.
ghost use Rattle.std.specs.Prelude.{◌≡◌};
ghost use Rattle.tree_build.specs.Reads.{slice};

/// The bytes from one place to another; nothing behind the end.
pub fn slice(script: &[u8], from: usize, to: usize) -> &[u8]
    ensures { result.now ≡ slice script.now from to }
{
    let behind = if from <= script.len() {
        &script[from..]
    } else {
        &script[script.len()..]
    };
    let length = if from <= to { to - from } else { 0 };
    if length <= behind.len() {
        &behind[..length]
    } else {
        behind
    }
}
