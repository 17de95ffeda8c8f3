//! What tokens are for the grammar.
#![tactic(auto)]

mod laws;
mod tokens;
mod words;

pub use laws::{no_fronts, spells_kinds};
pub use tokens::kind_of;
pub use words::{is_assignment, word_kind};

#[cfg(test)]
mod tests {
    use super::*;
    use ksh_lexer::{LexMode, Lexer};
    use ksh_syntax::{Kind, Mode};
    use std::alloc::Global;
    use std::test::Fail;

    #[test]
    fn words_are_known_by_their_bytes(rt: HostRuntime) -> Result<(), Fail> {
        let rows: [(&[u8], Kind); 12] = [
            (b"if", Kind::If),
            (b"ifs", Kind::Name),
            (b"function", Kind::Function),
            (b"]]", Kind::RightBrackets),
            (b"a.b", Kind::Dotted),
            (b".sh.name", Kind::Dotted),
            (b"a.", Kind::Other),
            (b"x=1", Kind::Assignment),
            (b"a.b+=", Kind::Assignment),
            (b"1x", Kind::Other),
            (b"-nt", Kind::Other),
            (b"-ge", Kind::Binary),
        ];
        for (word, kind) in rows {
            assert!(rt; word_kind(true, word) == kind);
        }
        assert!(rt; word_kind(false, b"x=1") == Kind::Other);
        Ok(())
    }

    // The kind of a text's first token.
    fn first(alloc: Global, lex_mode: LexMode, mode: Mode, text: &[u8]) -> Option<Kind> {
        let Ok(mut lexer) = Lexer::new(alloc, text) else {
            return None;
        };
        match lexer.next(lex_mode) {
            Ok(token) => Some(kind_of(text, mode, token)),
            Err(_) => None,
        }
    }

    #[test]
    fn tokens_of_a_text(rt: HostRuntime) -> Result<(), Fail> {
        let rows: [(&[u8], Kind); 8] = [
            (b"x=(a)", Kind::ValueOpen),
            (b"x=y(", Kind::Assignment),
            (b"(a", Kind::Open),
            (b"y=$z", Kind::StartAssignment),
            (b"a$z", Kind::Start),
            (b"<<-E", Kind::HereRedirect),
            (b"2>f", Kind::Redirect),
            (b"a[1]=b", Kind::Element),
        ];
        for (text, kind) in rows {
            assert!(rt; first(rt.alloc(), LexMode::Command, Mode::Command, text) == Some(kind));
        }
        Ok(())
    }

    #[test]
    fn patterns_and_conditions_assign_nothing(rt: HostRuntime) -> Result<(), Fail> {
        let rows: [(&[u8], Kind); 5] = [
            (b"x=(a)", Kind::Other),
            (b"x+=b", Kind::Other),
            (b"y=$z", Kind::Start),
            (b"a[1]=b", Kind::Other),
            (b"x", Kind::Name),
        ];
        for (text, kind) in rows {
            let pattern = first(rt.alloc(), LexMode::Pattern, Mode::Pattern, text);
            let condition = first(rt.alloc(), LexMode::Condition, Mode::Condition, text);
            assert!(rt; pattern == Some(kind) && condition == Some(kind));
        }
        assert!(rt;
            first(rt.alloc(), LexMode::Value, Mode::Value, b"x=(a)") == Some(Kind::ValueOpen)
        );
        Ok(())
    }
}
