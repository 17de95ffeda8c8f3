use ksh_ast::{Arith, Assign, AssignValue, Member, ParamOf, Piece, Test, Word};
use ksh_base::{Items, Memory};
use ksh_lexer::TokenKind;
use ksh_syntax::{Kind, Mode};
use std::alloc::Global;
use std::test::Fail;
use tree_parts::{
    Entry, Sign, add_token, adds, assignment_of, literal_word, part_of_for, path_word, quotes,
    simple_param, test_of, value_of,
};

fn sign(mode: Mode, token: TokenKind) -> Sign {
    Sign {
        mode,
        kind: Kind::Plain,
        token,
        from: 10,
        to: 20,
        line: 1,
    }
}

// Whether a word's piece is that literal.
fn is_literal(word: &Word, at: usize, bytes: &[u8], quotes: bool) -> bool {
    match word.get(at) {
        Some(Piece::Literal { text, quoted }) => text.bytes() == bytes && *quoted == quotes,
        _ => false,
    }
}

// Whether a value is a word of that literal, unquoted.
fn is_word(value: &AssignValue, bytes: &[u8]) -> bool {
    match value {
        AssignValue::Word(word) => word.len() == 1 && is_literal(word, 0, bytes, false),
        _ => false,
    }
}

#[test]
fn tokens_give_literals(rt: HostRuntime) -> Result<(), Fail> {
    let alloc = rt.alloc();
    let mut word = Items::new(alloc);
    let rows: [(Mode, TokenKind, &[u8], bool); 10] = [
        (Mode::Word, TokenKind::CloseQuote, b"\"", true),
        (Mode::Word, TokenKind::Plain, b"ab", true),
        (Mode::Word, TokenKind::Joined, b"\\\n", true),
        (Mode::Group, TokenKind::Close, b")", true),
        (Mode::Word, TokenKind::Close, b")", false),
        (Mode::Word, TokenKind::Escaped, b"\\c", true),
        (Mode::Word, TokenKind::Single, b"'d'", true),
        (Mode::Word, TokenKind::Ansi(12), b"$'\\n'", true),
        (Mode::Word, TokenKind::Prefix, b"@", false),
        (Mode::Word, TokenKind::Plain, b"e", true),
    ];
    for (mode, token, bytes, is_one) in rows {
        assert!(rt; add_token(alloc, &mut word, sign(mode, token), bytes)? == is_one);
    }
    assert!(rt; word.len() == 3);
    assert!(rt; is_literal(&word, 0, b"ab)", false));
    assert!(rt; is_literal(&word, 1, b"cd\n", true));
    assert!(rt; is_literal(&word, 2, b"e", false));
    Ok(())
}

#[test]
fn words_are_assignments(rt: HostRuntime) -> Result<(), Fail> {
    let alloc = rt.alloc();
    let word = literal_word(alloc, b".sh.a.b+=c", false)?;
    let Some(assign) = assignment_of(alloc, word)? else {
        return Err(Fail::from(Memory));
    };
    let Assign {
        path,
        append,
        value,
    } = assign;
    assert!(rt; append && path.name.text().bytes() == b".sh".as_slice());
    assert!(rt; path.parts.len() == 2 && is_word(&value, b"c"));
    let path = path_word(alloc, path)?;
    assert!(rt; path.len() == 1 && is_literal(&path, 0, b".sh.a.b", false));
    let refused: [&[u8]; 4] = [b"a.=b", b"1=2", b"a+", b""];
    for bytes in refused {
        assert!(rt; assignment_of(alloc, literal_word(alloc, bytes, false)?)?.is_none());
    }
    assert!(rt; adds(b"a+=") && !adds(b"a=") && !adds(b"a+=b"));
    Ok(())
}

#[test]
fn parameters_and_arithmetic(rt: HostRuntime) -> Result<(), Fail> {
    let alloc = rt.alloc();
    assert!(rt; matches!(simple_param(alloc, b"ab")?, Some(ParamOf::Var(_))));
    assert!(rt; matches!(simple_param(alloc, b"12")?, Some(ParamOf::Special(_))));
    let parts: [(&[u8], bool, bool); 4] = [
        (b" \n", true, false),
        (b"1+2", false, true),
        (b"1+", false, false),
        (b"", true, false),
    ];
    for (bytes, is_out, is_parsed) in parts {
        let part = part_of_for(alloc, literal_word(alloc, bytes, false)?)?;
        match part {
            Some(arith) => {
                assert!(rt; !is_out && matches!(arith, Arith::Parsed(_)) == is_parsed);
            }
            None => assert!(rt; is_out),
        }
    }
    Ok(())
}

// The words of these bytes.
fn words(alloc: Global, texts: &[&[u8]]) -> Result<Items<Word>, Memory> {
    let mut words = Items::new(alloc);
    for text in texts {
        words.push(literal_word(alloc, text, false)?)?;
    }
    Ok(words)
}

#[test]
fn words_are_tests(rt: HostRuntime) -> Result<(), Fail> {
    let alloc = rt.alloc();
    assert!(rt; matches!(test_of(words(alloc, &[b"a"])?), Some(Test::Word(_))));
    assert!(rt;
        matches!(
            test_of(words(alloc, &[b"-f", b"a"])?),
            Some(Test::Unary { .. })
        )
    );
    assert!(rt;
        matches!(
            test_of(words(alloc, &[b"a", b"-lt", b"b"])?),
            Some(Test::Binary { .. })
        )
    );
    assert!(rt; test_of(words(alloc, &[b"-q", b"a"])?).is_none());
    assert!(rt; test_of(words(alloc, &[b"a", b"<", b"b", b"c"])?).is_none());
    assert!(rt; test_of(words(alloc, &[])?).is_none());
    Ok(())
}

// `x=1`, or nothing where memory is wanting.
fn assigned(alloc: Global) -> Result<Option<Entry>, Memory> {
    Ok(assignment_of(alloc, literal_word(alloc, b"x=1", false)?)?.map(Entry::Assign))
}

// The value of entries: a letter for each, `w` a word, `t` a `typeset`, `a` an assignment, `b` a break.
fn value(alloc: Global, letters: &[u8]) -> Result<AssignValue, Memory> {
    let mut entries = Items::new(alloc);
    for letter in letters {
        match letter {
            b'w' => entries.push(Entry::Word(literal_word(alloc, b"w", false)?, 0))?,
            b't' => entries.push(Entry::Typeset)?,
            b'a' => match assigned(alloc)? {
                Some(entry) => entries.push(entry)?,
                None => return Err(Memory),
            },
            b'p' => entries.push(Entry::Pair(ksh_ast::Pair {
                subscript: literal_word(alloc, b"k", false)?,
                value: literal_word(alloc, b"v", false)?,
            }))?,
            _ => entries.push(Entry::Break)?,
        }
    }
    value_of(alloc, entries)
}

#[test]
fn values_have_three_forms(rt: HostRuntime) -> Result<(), Fail> {
    let alloc = rt.alloc();
    match value(alloc, b"twabab")? {
        AssignValue::Members(members) => match members.as_slice() {
            [Member::Declare(words), Member::Assign(_)] => assert!(rt; words.len() == 3),
            _ => return Err(Fail::from(Memory)),
        },
        _ => return Err(Fail::from(Memory)),
    }
    assert!(rt; matches!(value(alloc, b"")?, AssignValue::Members(_)));
    match value(alloc, b"pbp")? {
        AssignValue::Pairs(pairs) => assert!(rt; pairs.len() == 2),
        _ => return Err(Fail::from(Memory)),
    }
    match value(alloc, b"tapbw")? {
        AssignValue::Words(words) => {
            let [_, assign, pair, _] = words.as_slice() else {
                return Err(Fail::from(Memory));
            };
            assert!(rt;
                is_literal(assign, 0, b"x=1", false) && is_literal(pair, 0, b"[k]=v", false)
            );
        }
        _ => return Err(Fail::from(Memory)),
    }
    Ok(())
}
