//! Copies of small trees.
use ksh_ast::{
    Digit, List, Param, ParamForm, ParamOf, Piece, Redirect, RedirectForm, RedirectTo, Script,
    SubstKind, Word, copy_redirects, copy_word,
};
use ksh_base::{Items, Memory, Shared, Text};
use std::alloc::Global;
use std::test::Fail;

fn literal(alloc: Global, bytes: &[u8]) -> Result<Word, Memory> {
    let text = Text::of(alloc, bytes)?;
    let mut word = Items::new(alloc);
    word.push(Piece::Literal {
        text,
        quoted: false,
    })?;
    Ok(word)
}

fn is_literal(word: &Word, bytes: &[u8]) -> bool {
    match word.as_slice() {
        [Piece::Literal { text, quoted }] => !*quoted && text.bytes() == bytes,
        _ => false,
    }
}

#[test]
fn a_word_is_copied(rt: HostRuntime) -> Result<(), Fail> {
    let alloc = rt.alloc();
    let copy = copy_word(alloc, &literal(alloc, b"print")?)?;
    assert!(rt; is_literal(&copy, b"print"));
    Ok(())
}

#[test]
fn an_expansion_is_copied(rt: HostRuntime) -> Result<(), Fail> {
    let alloc = rt.alloc();
    let mut word = Items::new(alloc);
    word.push(Piece::Expand {
        param: Param {
            of: ParamOf::Special(Text::of(alloc, b"1")?),
            form: ParamForm::Instead {
                colon: true,
                word: literal(alloc, b"a")?,
            },
        },
        quoted: true,
    })?;
    let copy = copy_word(alloc, &word)?;
    let same = match copy.as_slice() {
        [Piece::Expand { param, quoted }] => match &param.form {
            ParamForm::Instead { colon, word } => *quoted && *colon && is_literal(word, b"a"),
            _ => false,
        },
        _ => false,
    };
    assert!(rt; same);
    Ok(())
}

#[test]
fn a_substitution_is_copied(rt: HostRuntime) -> Result<(), Fail> {
    let alloc = rt.alloc();
    let body: List = Shared::new(alloc, Items::new(alloc))?;
    let mut word = Items::new(alloc);
    word.push(Piece::Subst {
        body,
        kind: SubstKind::Current,
        quoted: false,
    })?;
    let copy = copy_word(alloc, &word)?;
    let same = match copy.as_slice() {
        [Piece::Subst { body, kind, .. }] => {
            *kind == SubstKind::Current && body.get().as_slice().is_empty()
        }
        _ => false,
    };
    assert!(rt; same);
    Ok(())
}

#[test]
fn a_redirection_is_copied(rt: HostRuntime) -> Result<(), Fail> {
    let alloc = rt.alloc();
    let Some(digit) = Digit::read(b'2') else {
        return Err(Memory.into());
    };
    let mut redirects = Items::new(alloc);
    redirects.push(Redirect {
        to: RedirectTo::Digit(digit),
        form: RedirectForm::Append,
        word: literal(alloc, b"f")?,
    })?;
    let copies = copy_redirects(alloc, redirects.as_slice())?;
    let same = match copies.as_slice() {
        [
            Redirect {
                to: RedirectTo::Digit(digit),
                form: RedirectForm::Append,
                word,
            },
        ] => { digit.number() == 2 && is_literal(word, b"f") }
        _ => false,
    };
    assert!(rt; same);
    Ok(())
}

#[test]
fn a_script_is_shared(rt: HostRuntime) -> Result<(), Fail> {
    let alloc = rt.alloc();
    let list = Shared::new(alloc, Items::new(alloc))?;
    let copy = Script { list }.copy()?;
    assert!(rt; copy.list.get().as_slice().is_empty());
    Ok(())
}

#[test]
fn digits_are_read_or_refused(rt: HostRuntime) -> Result<(), Fail> {
    assert!(rt; Digit::read(b'7').is_some_and(|digit| digit.copy().number() == 7));
    assert!(rt; Digit::read(b'/').is_none() && Digit::read(b':').is_none());
    Ok(())
}
