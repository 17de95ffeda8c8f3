ghost use Rattle.std.specs.Prelude.{◌≡◌, ◌<◌, ◌+◌, IfSome, IfNone, false};
ghost use Rattle.std.specs.Char.{is_ascii_digit};

use std::marker::Model;

/// A decimal digit, which contracts see as its number.
#[derive(Debug, Drop)]
pub struct Digit {
    number: u8,
}

impl Model for Digit {
    ghost use Rattle.std.specs.Prelude.{ℕ, ◌<◌};

    ghost Value = { ℕ };

    ghost view = { λ d. d.number };

    ghost invariant = { λ d. d.number < 10 };
}

impl Digit {
    /// The digit that the byte writes; nothing exactly where it writes none.
    pub fn read(byte: u8) -> Option<Digit>
        ensures some { IfSome result (λ d. 48 + d ≡ byte) }
        ensures none { IfNone result (is_ascii_digit byte ≡ false) }
    {
        if !byte.is_ascii_digit() {
            return None;
        }
        Some(Digit {
            number: byte - b'0',
        })
    }

    /// Its number, from 0 to 9.
    pub fn number(&self) -> u8
        ensures value { result ≡ self.now }
        ensures small { result < 10 }
    {
        self.number
    }

    pub fn copy(&self) -> Digit
        ensures { result ≡ self.now }
    {
        Digit {
            number: self.number,
        }
    }
}
