ghost use Rattle.std.specs.Prelude.{◌≡◌, ◌≢◌, ℕ, [], ◌<◌, ◌↔◌, IfOk, IfNone, IfSome, length, IsErrOf};
ghost use Rattle.std.proofs.Common.{rules};
ghost use Rattle.std.specs.Cmp.{partial_order_from_own_ties};
ghost use Rattle.std.specs.Cmp.Rules.{comparing};
ghost use Rattle.std.specs.Ordering.{nat_cmp, as_partial_cmp};
ghost use Rattle.std.specs.Cmp.Lexicographic.{slice_cmp};
ghost use Rattle.ksh_base.specs.Text.{same_numbers};
ghost use Rattle.ksh_base.specs.Name.{starts_name, IsName, IsFirstBad, Fits, dot_sh};

use crate::memory::Memory;
use crate::text::Text;
use std::alloc::Global;
use std::cmp::Ordering;
use std::marker::Model;
use thiserror::Error;

/// A name: a letter or `_`, then letters, digits and `_`. The one other name is `.sh`.
#[derive(Debug, Drop)]
pub struct Name {
    text: Text,
}

impl Model for Name {
    ghost use Rattle.std.specs.Prelude.{ℕ, List};

    ghost Value = { List ℕ };

    ghost use Rattle.ksh_base.specs.Name.{IsName};

    ghost view = { λ n. n.text };

    ghost invariant = { λ n. IsName n.text };
}

#[derive(Clone, Copy, Debug, PartialEq, Eq, Error)]
pub enum NameFault {
    #[error("a name has no bytes")]
    Empty,
    #[error("byte {0} can't stand there in a name")]
    BadByte(usize),
    #[error("out of memory")]
    Memory,
}

impl Name {
    /// The name that the bytes are. `Empty` exactly for no bytes; `BadByte` exactly for the first
    /// byte that can't stand there.
    pub fn read(alloc: Global, bytes: &[u8]) -> Result<Name, NameFault>
        ensures ok { IfOk result (λ n. (n ≡ bytes.now) × IsName bytes.now) }
        ensures empty { IsErrOf result NameFault.Empty ↔ (bytes.now ≡ []) }
        ensures bad { (i : ℕ) → IsErrOf result (NameFault.BadByte i) ↔ ((bytes.now ≢ dot_sh) × IsFirstBad bytes.now i) }
    {
        if bytes.is_empty() {
            return Err(NameFault::Empty);
        }
        if bytes != b".sh".as_slice() {
            if let Some(at) = first_bad(bytes) {
                return Err(NameFault::BadByte(at));
            }
        }
        let text = Text::of(alloc, bytes).map_err(|_| NameFault::Memory)?;
        Ok(Name { text })
    }

    pub fn text(&self) -> &Text
        ensures { result.now ≡ self.now }
    {
        &self.text
    }

    pub fn copy(&self, alloc: Global) -> Result<Name, Memory>
        ensures { IfOk result (λ n. n ≡ self.now) }
    {
        let text = self.text.copy(alloc)?;
        Ok(Name { text })
    }
}

impl PartialEq for Name {
    ghost eq = { same_numbers };

    ghost laws = { Prim.search (comparing, rules) };

    fn eq(&self, other: &Name) -> bool {
        self.text == other.text
    }
}

impl Eq for Name {
    ghost laws = { Prim.search (comparing, rules) };
}

impl Ord for Name {
    ghost cmp = { slice_cmp nat_cmp };

    ghost total = { Prim.search (comparing, rules) };

    ghost matches_partial_cmp = { Prim.search (comparing, rules) };

    ghost matches_eq = { Prim.search (comparing, rules) };

    fn cmp(&self, other: &Name) -> Ordering {
        self.text.cmp(&other.text)
    }
}

impl PartialOrd for Name {
    ghost partial_cmp = { as_partial_cmp (slice_cmp nat_cmp) };

    ghost laws = { partial_order_from_own_ties (Prim.search (comparing, rules)) (Prim.search (comparing, rules)) };

    fn partial_cmp(&self, other: &Name) -> Option<Ordering> {
        Some(self.cmp(other))
    }
}

fn can_start(byte: u8) -> bool
    ensures { result ≡ starts_name byte }
{
    byte.is_ascii_alphabetic() || byte == b'_'
}

fn first_bad(bytes: &[u8]) -> Option<usize>
    ensures none { IfNone result (Fits bytes.now (length bytes.now)) }
    ensures some { IfSome result (IsFirstBad bytes.now) }
{
    for (i, byte) in bytes.iter().enumerate() {
        let fine = can_start(*byte) || (i > 0 && byte.is_ascii_digit());
        if !fine {
            return Some(i);
        }
    }
    None
}

#[cfg(test)]
mod tests {
    use super::*;
    use std::test::Fail;

    #[test]
    fn names_are_read_or_refused(rt: HostRuntime) -> Result<(), Fail> {
        let alloc = rt.alloc();
        let fine: [&[u8]; 4] = [b"x", b"a_1", b"PATH", b".sh"];
        for bytes in fine {
            let name = Name::read(alloc, bytes)?;
            assert!(rt; name.text().bytes() == bytes);
        }
        let bad: [(&[u8], NameFault); 5] = [
            (b"", NameFault::Empty),
            (b"1a", NameFault::BadByte(0)),
            (b"a-b", NameFault::BadByte(1)),
            (b".s", NameFault::BadByte(0)),
            (b"ab.sh", NameFault::BadByte(2)),
        ];
        for (bytes, want) in bad {
            assert!(rt; Name::read(alloc, bytes).err() == Some(want));
        }
        Ok(())
    }
}
