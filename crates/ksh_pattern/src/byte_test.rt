//! What one byte of a text is tested for.
ghost use Rattle.std.specs.Prelude.{◌≡◌, IfOk};
ghost use Rattle.ksh_pattern.specs.ByteTests.{accepts, has_class, has_member, is_in};

use ksh_base::{Items, Memory, Shared};

/// A class of ASCII bytes, as POSIX names it.
#[derive(Clone, Copy, Debug, PartialEq, Eq)]
pub enum Class {
    Alnum,
    Alpha,
    Blank,
    Cntrl,
    Digit,
    Graph,
    Lower,
    Print,
    Punct,
    Space,
    Upper,
    Xdigit,
}

/// What a bracket lists: a byte, the bytes from one to another, or a class.
#[derive(Clone, Copy, Debug, PartialEq, Eq)]
pub enum Member {
    Byte(u8),
    Range(u8, u8),
    Class(Class),
}

/// A test of one byte: equality, none, or a bracket with its members, which may be turned round by `!`.
#[derive(Drop)]
pub enum ByteTest {
    Is(u8),
    Any,
    Bracket(bool, Shared<Items<Member>>),
}

impl Class {
    /// Whether a byte is of the class.
    pub fn has(self, byte: u8) -> bool
        ensures { result ≡ has_class self byte }
    {
        match self {
            Class::Alnum => byte.is_ascii_alphanumeric(),
            Class::Alpha => byte.is_ascii_alphabetic(),
            Class::Blank => byte == b' ' || byte == b'\t',
            Class::Cntrl => byte.is_ascii_control(),
            Class::Digit => byte.is_ascii_digit(),
            Class::Graph => byte.is_ascii_graphic(),
            Class::Lower => byte.is_ascii_lowercase(),
            Class::Print => byte == b' ' || byte.is_ascii_graphic(),
            Class::Punct => byte.is_ascii_punctuation(),
            Class::Space => byte == b' ' || (byte >= 9 && byte <= 13),
            Class::Upper => byte.is_ascii_uppercase(),
            Class::Xdigit => byte.is_ascii_hexdigit(),
        }
    }
}

impl Member {
    /// Whether a byte is the member, or one of it.
    pub fn has(self, byte: u8) -> bool
        ensures { result ≡ has_member self byte }
    {
        match self {
            Member::Byte(member) => member == byte,
            Member::Range(from, to) => from <= byte && byte <= to,
            Member::Class(class) => class.has(byte),
        }
    }
}

impl ByteTest {
    /// Whether a byte passes.
    pub fn accepts(&self, byte: u8) -> bool
        ensures { result ≡ accepts self.now byte }
    {
        match self {
            ByteTest::Is(wanted) => *wanted == byte,
            ByteTest::Any => true,
            ByteTest::Bracket(turned, members) => *turned != lists(members.get().as_slice(), byte),
        }
    }

    /// The same test once more.
    pub fn copy(&self) -> Result<ByteTest, Memory>
        ensures { IfOk result (λ t. t ≡ self.now) }
    {
        match self {
            ByteTest::Is(wanted) => Ok(ByteTest::Is(*wanted)),
            ByteTest::Any => Ok(ByteTest::Any),
            ByteTest::Bracket(turned, members) => Ok(ByteTest::Bracket(*turned, members.copy()?)),
        }
    }
}

/// Whether a byte is in one of the members.
fn lists(members: &[Member], byte: u8) -> bool
    ensures { result ≡ is_in members.now byte }
{
    members.iter().any(|member| member.has(byte))
}
