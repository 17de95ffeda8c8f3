//! How large a pattern may be that is matched by the definition.
ghost use Rattle.std.specs.Prelude.{◌≡◌};
ghost use Rattle.std.specs.List.{list_all};
ghost use Rattle.pattern_plain.specs.Limits.{fits, all_fit};

use ksh_base::Items;
use ksh_pattern::Part;

/// How many parts a pattern or an alternative may have, and how many bytes a text.
pub const MOST: usize = 64;

/// Whether no alternative in a part has too many parts.
#[cycle(fits)]
fn fits(part: &Part) -> bool
    ensures { result ≡ fits part.now }
{
    match part {
        Part::One(_) | Part::AnyText => true,
        Part::Group(_, alternatives) => some_fit(alternatives.get().as_slice()),
    }
}

/// Whether there are not too many parts, nor in an alternative in one of them.
#[cycle(fits)]
pub fn all_fit(parts: &[Part]) -> bool
    ensures { result ≡ all_fit parts.now }
{
    if parts.len() > MOST {
        return false;
    }
    for part in parts {
        if !fits(part) {
            return false;
        }
    }
    true
}

/// The same of each alternative.
#[cycle(fits)]
fn some_fit(alternatives: &[Items<Part>]) -> bool
    ensures { result ≡ list_all all_fit alternatives.now }
{
    for parts in alternatives {
        if !all_fit(parts.as_slice()) {
            return false;
        }
    }
    true
}
