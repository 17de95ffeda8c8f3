//! Patterns matched by the definition, each cut of a text being tried. This is slow: it is there to be compared with.
#![tactic(auto)]

ghost use Rattle.std.specs.Prelude.{◌≡◌, ◌&&◌, nat_le, length, Some, None, if◌then◌else◌};
ghost use Rattle.ksh_pattern.specs.Match.{matches};
ghost use Rattle.pattern_plain.specs.Limits.{all_fit};

mod limits;
mod plain;

use ksh_pattern::Pattern;

/// Whether the pattern matches the text; none where the text has more than 64 bytes, or the pattern or an alternative
/// in it has more than 64 parts.
pub fn plain_matches(pattern: &Pattern, text: &[u8]) -> Option<bool>
    ensures { result ≡ (if all_fit pattern.now && nat_le (length text.now) 64 then Some (matches pattern.now text.now) else None) }
{
    let parts = pattern.parts();
    if limits::all_fit(parts) && text.len() <= limits::MOST {
        Some(plain::all(parts, text))
    } else {
        None
    }
}

#[cfg(test)]
mod tests;
