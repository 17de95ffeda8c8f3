use ksh_base::{Place, Text};
use ksh_lexer::{
    Body, BraceEnd, Descriptor, Form, HereDocument, LONGEST_TEXT, LexMode, Lexer, Operator,
    Redirection, SyntaxFault, SyntaxKind, Token, TokenKind, ansi_text, end_word, is_quoted,
};
use std::alloc::Global;
use std::test::Fail;

/// Whether these tokens come, one behind the other, each under its mode, with these last bytes.
fn come(alloc: Global, text: &[u8], rows: &[(LexMode, TokenKind, usize, usize)]) -> bool {
    let Ok(mut lexer) = Lexer::new(alloc, text) else {
        return false;
    };
    for (mode, kind, from, to) in rows {
        let want = Token {
            kind: *kind,
            from: *from,
            to: *to,
        };
        if lexer.next(*mode) != Ok(want) {
            return false;
        }
    }
    true
}

/// Whether under the mode this fault comes at once, twice.
fn fails(
    alloc: Global,
    text: &[u8],
    mode: LexMode,
    kind: SyntaxKind,
    line: u32,
    byte: u32,
) -> bool {
    let Ok(mut lexer) = Lexer::new(alloc, text) else {
        return false;
    };
    let want = SyntaxFault {
        kind,
        place: Place { line, byte },
    };
    lexer.next(mode) == Err(want) && lexer.next(mode) == Err(want)
}

#[test]
fn the_longest_operator_wins(rt: HostRuntime) -> Result<(), Fail> {
    let alloc = rt.alloc();
    let operators: [(&[u8], Operator); 11] = [
        (b";;;", Operator::DoubleSemicolon),
        (b";&&", Operator::SemicolonAmpersand),
        (b"&&&", Operator::AndIf),
        (b"|||", Operator::OrIf),
        (b"|&&", Operator::BarAmpersand),
        (b"(((", Operator::DoubleParenthesis),
        (b"; ;", Operator::Semicolon),
        (b"&;", Operator::Ampersand),
        (b"|;", Operator::Bar),
        (b"( (", Operator::OpenParenthesis),
        (b"))", Operator::CloseParenthesis),
    ];
    for (text, operator) in operators {
        let width = match operator {
            Operator::Semicolon
            | Operator::Ampersand
            | Operator::Bar
            | Operator::OpenParenthesis
            | Operator::CloseParenthesis => 1,
            _ => 2,
        };
        let row = (LexMode::Command, TokenKind::Operator(operator), 0, width);
        assert!(rt; come(alloc, text, &[row]));
    }
    let redirections: [(&[u8], Redirection, usize); 10] = [
        (b"<<-<", Redirection::HereTabs, 3),
        (b"<<<<", Redirection::HereString, 3),
        (b"<<>", Redirection::HereDocument, 2),
        (b"<>>", Redirection::ReadWrite, 2),
        (b"<&&", Redirection::CopyInput, 2),
        (b"< <", Redirection::Input, 1),
        (b">||", Redirection::Clobber, 2),
        (b">>>", Redirection::Append, 2),
        (b">&&", Redirection::CopyOutput, 2),
        (b"> >", Redirection::Output, 1),
    ];
    for (text, redirection, width) in redirections {
        let kind = TokenKind::Redirect(redirection, Descriptor::Default);
        assert!(rt; come(alloc, text, &[(LexMode::Argument, kind, 0, width)]));
    }
    Ok(())
}

#[test]
fn words_are_cut_at_their_ends(rt: HostRuntime) -> Result<(), Fail> {
    let alloc = rt.alloc();
    let command = LexMode::Command;
    let argument = LexMode::Argument;
    let output = |descriptor| TokenKind::Redirect(Redirection::Output, descriptor);
    assert!(rt;
        come(
            alloc,
            b"a;b",
            &[
                (command, TokenKind::Bare, 0, 1),
                (command, TokenKind::Operator(Operator::Semicolon), 1, 2),
                (command, TokenKind::Bare, 2, 3),
                (command, TokenKind::End, 3, 3),
            ]
        )
    );
    assert!(rt;
        come(
            alloc,
            b" a#b \\\n\t#c\\\nd",
            &[
                (command, TokenKind::Bare, 1, 4),
                (command, TokenKind::Newline, 11, 12),
                (command, TokenKind::Bare, 12, 13),
            ]
        )
    );
    assert!(rt;
        come(
            alloc,
            b"2>f",
            &[(argument, output(Descriptor::Digit(2)), 0, 2)]
        )
    );
    assert!(rt;
        come(
            alloc,
            b"{v}>f",
            &[(argument, output(Descriptor::Named(2)), 0, 4)]
        )
    );
    assert!(rt;
        come(
            alloc,
            b"12>f",
            &[
                (argument, TokenKind::Bare, 0, 2),
                (argument, output(Descriptor::Default), 2, 3),
            ]
        )
    );
    assert!(rt;
        come(
            alloc,
            b"2>f",
            &[(LexMode::Condition, TokenKind::Bare, 0, 1)]
        )
    );
    assert!(rt; come(alloc, b"2 >f", &[(argument, TokenKind::Bare, 0, 1)]));
    assert!(rt; come(alloc, b"{1}>f", &[(argument, TokenKind::Bare, 0, 3)]));
    assert!(rt;
        come(
            alloc,
            b"&\\\n&",
            &[(command, TokenKind::Operator(Operator::AndIf), 0, 4)]
        )
    );
    assert!(rt;
        come(
            alloc,
            b"((",
            &[(
                LexMode::Pattern,
                TokenKind::Operator(Operator::OpenParenthesis),
                0,
                1
            )]
        )
    );
    assert!(rt;
        come(
            alloc,
            b"a[b c]=d",
            &[
                (command, TokenKind::Element, 0, 1),
                (LexMode::Target, TokenKind::Open, 1, 2)
            ]
        )
    );
    assert!(rt; come(alloc, b"a[b c] d", &[(command, TokenKind::Bare, 0, 3)]));
    assert!(rt; come(alloc, b"[b c]=d", &[(LexMode::Value, TokenKind::Key, 0, 1)]));
    Ok(())
}

#[test]
fn paths_are_names_between_dots(rt: HostRuntime) -> Result<(), Fail> {
    let alloc = rt.alloc();
    let elements: [(&[u8], usize); 4] = [
        (b"a[1]=b", 1),
        (b"a.b_2[1].c=d", 5),
        (b".sh.x[1]+=y", 5),
        (b".sh.x.y[1][2]=z", 7),
    ];
    for (text, to) in elements {
        let row = (LexMode::Command, TokenKind::Element, 0, to);
        assert!(rt; come(alloc, text, &[row]));
    }
    let words: [&[u8]; 8] = [
        b".x[1]=2",
        b"x..y[1]=2",
        b"a.1[2]=x",
        b"a.[1]=2",
        b".sh[1]=2",
        b".sh..x[1]=2",
        b"1a[1]=2",
        b".[1]=2",
    ];
    for text in words {
        for mode in [LexMode::Command, LexMode::Argument, LexMode::Value] {
            let row = (mode, TokenKind::Bare, 0, text.len());
            assert!(rt; come(alloc, text, &[row]));
        }
    }
    Ok(())
}

#[test]
fn names_below_sh_begin_with_a_dot(rt: HostRuntime) -> Result<(), Fail> {
    let alloc = rt.alloc();
    let parameter = LexMode::Parameter;
    assert!(rt;
        come(
            alloc,
            b".sh.x}",
            &[
                (parameter, TokenKind::Name, 0, 3),
                (LexMode::Form, TokenKind::Member(4), 3, 5),
            ]
        )
    );
    assert!(rt; come(alloc, b"!.sh}", &[(parameter, TokenKind::Target, 0, 1)]));
    for text in [b"!.x}".as_slice(), b"#.x}".as_slice()] {
        let mut lexer = Lexer::new(alloc, text)?;
        assert!(rt; lexer.next(parameter).is_ok());
        let bad = SyntaxFault {
            kind: SyntaxKind::BadName,
            place: Place { line: 1, byte: 1 },
        };
        assert!(rt; lexer.next(parameter) == Err(bad));
    }
    Ok(())
}

#[test]
fn pieces_follow_each_other(rt: HostRuntime) -> Result<(), Fail> {
    let alloc = rt.alloc();
    let word = LexMode::Word;
    let quoted = LexMode::Quoted { opening: 2 };
    assert!(rt;
        come(
            alloc,
            b"a\"$b\\q\\\"'\"\\''c'",
            &[
                (LexMode::Command, TokenKind::Start, 0, 0),
                (word, TokenKind::Plain, 0, 1),
                (word, TokenKind::OpenQuote, 1, 2),
                (quoted, TokenKind::Expand(3), 2, 4),
                (quoted, TokenKind::Plain, 4, 6),
                (quoted, TokenKind::Escaped, 6, 8),
                (quoted, TokenKind::Plain, 8, 9),
                (quoted, TokenKind::CloseQuote, 9, 10),
                (word, TokenKind::Escaped, 10, 12),
                (word, TokenKind::Single, 12, 15),
                (word, TokenKind::WordEnd, 15, 15),
            ]
        )
    );
    assert!(rt;
        come(
            alloc,
            b"$'\\''$$$(`${$((x$",
            &[
                (word, TokenKind::Ansi(2), 0, 5),
                (word, TokenKind::Expand(6), 5, 7),
                (word, TokenKind::OpenSubstitution, 7, 9),
                (LexMode::Command, TokenKind::Backquote, 9, 10),
                (word, TokenKind::OpenParameter, 10, 12),
                (word, TokenKind::OpenArithmetic, 12, 15),
                (LexMode::Arithmetic, TokenKind::Plain, 15, 16),
                (word, TokenKind::Dollar, 16, 17),
                (word, TokenKind::WordEnd, 17, 17),
            ]
        )
    );
    assert!(rt;
        come(
            alloc,
            b"a@(b |c)+(\n",
            &[
                (word, TokenKind::Plain, 0, 1),
                (word, TokenKind::Open, 1, 3),
                (LexMode::Group, TokenKind::Plain, 3, 7),
                (LexMode::Group, TokenKind::Close, 7, 8),
                (word, TokenKind::Plain, 8, 9),
                (word, TokenKind::WordEnd, 9, 9),
            ]
        )
    );
    assert!(rt;
        come(
            alloc,
            b"#x:-a /b}/1) ))",
            &[
                (LexMode::Parameter, TokenKind::Length, 0, 1),
                (LexMode::Parameter, TokenKind::Name, 1, 2),
                (
                    LexMode::Form,
                    TokenKind::Form(Form::Instead { colon: true }),
                    2,
                    4
                ),
                (LexMode::Braced(BraceEnd::Slash), TokenKind::Plain, 4, 6),
                (LexMode::Braced(BraceEnd::Slash), TokenKind::Separator, 6, 7),
                (LexMode::Braced(BraceEnd::Brace), TokenKind::Plain, 7, 8),
                (LexMode::Braced(BraceEnd::Brace), TokenKind::Close, 8, 9),
                (LexMode::Arithmetic, TokenKind::Plain, 9, 13),
                (LexMode::Arithmetic, TokenKind::Close, 13, 15),
            ]
        )
    );
    Ok(())
}

#[test]
fn faults_stand_at_their_places(rt: HostRuntime) -> Result<(), Fail> {
    let alloc = rt.alloc();
    let rows: [(&[u8], LexMode, SyntaxKind, u32, u32); 18] = [
        (b"'a", LexMode::Word, SyntaxKind::UnclosedQuote, 1, 0),
        (b"$'a\\'", LexMode::Word, SyntaxKind::UnclosedQuote, 1, 0),
        (
            b"",
            LexMode::Quoted { opening: 0 },
            SyntaxKind::UnclosedQuote,
            1,
            0,
        ),
        (b"#\\\0", LexMode::Command, SyntaxKind::NotInProfile, 1, 2),
        (
            b"  \\\n\0",
            LexMode::Command,
            SyntaxKind::NotInProfile,
            2,
            4,
        ),
        (b"'a\n\0'", LexMode::Word, SyntaxKind::NotInProfile, 2, 3),
        (
            b"$'\n\n\\\0'",
            LexMode::Word,
            SyntaxKind::NotInProfile,
            3,
            5,
        ),
        (b" <(a)", LexMode::Argument, SyntaxKind::NotInProfile, 1, 1),
        (b">;", LexMode::Command, SyntaxKind::NotInProfile, 1, 0),
        (b"2>#", LexMode::Command, SyntaxKind::NotInProfile, 1, 1),
        (b"~(a)", LexMode::Word, SyntaxKind::NotInProfile, 1, 0),
        (b"}", LexMode::Parameter, SyntaxKind::BadName, 1, 0),
        (b".x}", LexMode::Parameter, SyntaxKind::BadName, 1, 0),
        (b".}", LexMode::Parameter, SyntaxKind::BadName, 1, 0),
        (b".shx}", LexMode::Parameter, SyntaxKind::BadName, 1, 0),
        (b"..sh}", LexMode::Parameter, SyntaxKind::BadName, 1, 0),
        (b"^}", LexMode::Form, SyntaxKind::UnexpectedToken, 1, 0),
        (b"\0", LexMode::Arithmetic, SyntaxKind::NotInProfile, 1, 0),
    ];
    for (text, mode, kind, line, byte) in rows {
        assert!(rt; fails(alloc, text, mode, kind, line, byte));
    }
    Ok(())
}

fn here(alloc: Global, operator: u32, word: &[u8], tabs: bool) -> Result<HereDocument, Fail> {
    Ok(HereDocument {
        operator,
        word: Text::of(alloc, word)?,
        tabs,
        expands: true,
    })
}

fn body(from: usize, to: usize, tabs: bool) -> Body {
    Body {
        from,
        to,
        tabs,
        expands: true,
    }
}

#[test]
fn bodies_come_in_the_order_of_their_operators(rt: HostRuntime) -> Result<(), Fail> {
    let alloc = rt.alloc();
    let text = b"<<-E <<F\n\ta$b\n\t\tE\n\tE\nF\n<<G\nG \n";
    let mut lexer = Lexer::new(alloc, text)?;
    lexer.await_body(here(alloc, 0, b"E", true)?)?;
    lexer.await_body(here(alloc, 5, b"F", false)?)?;
    for _ in 0..5 {
        lexer.next(LexMode::Argument)?;
    }
    let first = body(9, 14, true);
    let second = body(18, 21, false);
    assert!(rt; lexer.take_body() == Ok(Some(first)));
    assert!(rt; lexer.take_body() == Ok(Some(second)));
    assert!(rt; lexer.take_body() == Ok(None));
    lexer.await_body(here(alloc, 23, b"G", false)?)?;
    for _ in 0..3 {
        lexer.next(LexMode::Argument)?;
    }
    let missing = SyntaxFault {
        kind: SyntaxKind::HereDocMissing,
        place: Place { line: 6, byte: 23 },
    };
    assert!(rt; lexer.take_body() == Err(missing));
    assert!(rt; lexer.missing() == Some(missing));
    assert!(rt; lexer.fault(SyntaxKind::HereDocMissing, 23) == missing);
    Ok(())
}

#[test]
fn the_limit_and_the_escapes_are_exact(rt: HostRuntime) -> Result<(), Fail> {
    let alloc = rt.alloc();
    let mut text = Text::of(alloc, b"\n")?;
    for _ in 0..24 {
        let half = text.copy(alloc)?;
        text.append(half.bytes())?;
    }
    assert!(rt; text.len() == LONGEST_TEXT);
    assert!(rt; Lexer::new(alloc, text.bytes()).is_ok());
    text.push(b'a')?;
    let long = SyntaxFault {
        kind: SyntaxKind::TooLong,
        place: Place {
            line: 16_777_217,
            byte: 16_777_216,
        },
    };
    assert!(rt; Lexer::new(alloc, text.bytes()).err() == Some(long));
    let inside = b"\\a\\b\\e\\E\\f\\n\\r\\t\\v\\\\\\'\\\"\\1\\0123\\400\\x4\\x4a1\\q\\xg\\";
    let want = b"\x07\x08\x1b\x1b\x0c\n\r\t\x0b\\'\"\x01\n3\0\x04J1\\q\\xg\\";
    let text = ansi_text(alloc, inside)?;
    assert!(rt; text.bytes() == want.as_slice());
    Ok(())
}

#[test]
fn a_body_ends_at_its_word_without_the_quotes(rt: HostRuntime) -> Result<(), Fail> {
    let rows: [(&[u8], &[u8], bool); 8] = [
        (b"E", b"E", false),
        (b"'a b'c", b"a bc", true),
        (b"\"a\\$b\\c\"", b"a$b\\c", true),
        (b"\\E\\", b"E\\", true),
        (b"a\\\nb", b"ab", true),
        (b"$'a\\tb\\''$c", b"a\tb'$c", true),
        (b"$x", b"$x", false),
        (b"\"", b"", true),
    ];
    for (word, line, quoted) in rows {
        let end = end_word(rt.alloc(), word)?;
        assert!(rt; end.bytes() == line && is_quoted(word) == quoted);
    }
    Ok(())
}

#[test]
fn bodies_and_lines_lie_in_the_text(rt: HostRuntime) -> Result<(), Fail> {
    let alloc = rt.alloc();
    let text: &[u8] = b"<<-E <<F\n\ta$b\n\t\tE\n";
    let mut lexer = Lexer::new(alloc, text)?;
    let whole = Body {
        from: 9,
        to: 14,
        tabs: true,
        expands: true,
    };
    let mut inside = lexer.inside(alloc, whole);
    let mode = LexMode::HereBody {
        tabs: true,
        expands: true,
    };
    for (from, to) in [(10, 11), (11, 13), (13, 14), (14, 14)] {
        let token = inside.next(mode)?;
        assert!(rt; token.from == from && token.to == to);
    }
    assert_eq!(rt; lexer.line_at(14), 3);
    assert_eq!(rt; lexer.line_at(9), 2);
    Ok(())
}
