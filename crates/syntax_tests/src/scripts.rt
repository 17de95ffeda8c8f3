// Texts and their first faults. What is expected comes from the grammar and its places, not from the program.
use ksh_base::{Memory, Place, Text};
use ksh_lexer::{SyntaxFault, SyntaxKind};
use ksh_scan::{SyntaxRefused, check_text};
use std::alloc::Global;
use std::test::Fail;

fn is_fine(alloc: Global, text: &[u8]) -> bool {
    check_text(alloc, text).is_ok()
}

fn has_fault(alloc: Global, text: &[u8], kind: SyntaxKind, line: u32, byte: u32) -> bool {
    let fault = SyntaxFault {
        kind,
        place: Place { line, byte },
    };
    check_text(alloc, text) == Err(SyntaxRefused::Fault(fault))
}

#[test]
fn scripts_are_fine(rt: HostRuntime) -> Result<(), Fail> {
    let texts: [&[u8]; 40] = [
        b"",
        b"\n# nothing\n",
        b"a;b",
        b"if a; then b; fi",
        b"if a; then b; elif c; then d; else e; fi >f 2>&1",
        b"while a; do b; done | c && ! d || e &",
        b"until a\ndo b\ndone",
        b"for x in a b c; do print $x; done",
        b"for x\ndo print $x; done",
        b"for ((i=0; i<3; i++)); do print $i; done",
        b"select x in a b; do print $x; done",
        b"case x in (a|b) c;; d) ;& e) f\nesac",
        b"case x in\nesac",
        b"f() { a; }",
        b"function f.g { a; } >x",
        b"f()\n(a)",
        b"{ (a) }",
        b"if (a) then b; fi",
        b"(( x + 1 ))",
        b"[[ -n a && ( b = c || ! d ) ]]",
        b"[[\na\n]]",
        b"x=1 y+=2 z[3]=4 c.d=5 e",
        b"x=(a b c)",
        b"x=([a]=b [c]=d)",
        b"x=(a=1; typeset -i b=2 c; d=(e=3))",
        b"x=(f() { a; }; b=1)",
        b"typeset -A m=([k]=v)",
        b"print \"a $b ${c:-d} $(e) $((1+2)) `f`\" 'g' $'h\\n'",
        b"print ${x#*/} ${x##a} ${x%b} ${x%%c} ${x:1:2} ${x//a/b} ${#x} ${!x} ${x[@]} ${!x[@]} ${!x@}",
        b"x=$(if a; then b; fi)",
        b"x=${ a; b; }",
        b"cat <<E\nbody $x\nE\nprint",
        b"cat <<-E <<'F'\n\tone\n\tE\n$two\nF\n",
        b"cat <<E\n$(cat <<F\ninner\nF\n)\nE\n",
        b"x=`cat <<E\nb\nE\n`",
        b"a |& b",
        b"print if then fi }",
        b">f else",
        b"@(a b) x",
        b"`a`",
    ];
    for text in texts {
        assert!(rt; is_fine(rt.alloc(), text));
    }
    Ok(())
}

#[test]
fn tokens_with_which_no_script_goes_on(rt: HostRuntime) -> Result<(), Fail> {
    let alloc = rt.alloc();
    let rows: [(&[u8], u32, u32); 20] = [
        (b")", 1, 0),
        (b"a && ;", 1, 5),
        (b"a\n| b", 2, 2),
        (b"then", 1, 0),
        (b"{ }", 1, 2),
        (b"( )", 1, 2),
        (b"if a; then fi", 1, 11),
        (b"! ! a", 1, 2),
        (b"a b (", 1, 4),
        (b"for x in a; & do", 1, 12),
        (b"case x of", 1, 7),
        (b"a() b", 1, 4),
        (b"(a) b", 1, 4),
        (b"(a) time", 1, 4),
        (b"[[ a ) ]]", 1, 5),
        (b"[[ ((a)) ]]", 1, 3),
        (b"x=(a=1; b)", 1, 9),
        (b"`if a`", 1, 5),
        (b"a;;", 1, 1),
        (b"while a; do ; done", 1, 12),
    ];
    for (text, line, byte) in rows {
        assert!(rt; has_fault(alloc, text, SyntaxKind::UnexpectedToken, line, byte));
    }
    Ok(())
}

#[test]
fn ends_that_come_too_early(rt: HostRuntime) -> Result<(), Fail> {
    let alloc = rt.alloc();
    let rows: [(&[u8], SyntaxKind, u32, u32); 20] = [
        (b"if a", SyntaxKind::UnexpectedEnd, 1, 4),
        (b"{ a\n", SyntaxKind::UnexpectedEnd, 2, 4),
        (b"a &&", SyntaxKind::UnexpectedEnd, 1, 4),
        (b"(( 1 + 2", SyntaxKind::UnexpectedEnd, 1, 8),
        (b"((1) )", SyntaxKind::UnexpectedEnd, 1, 6),
        (b"for ((1;2;3", SyntaxKind::UnexpectedEnd, 1, 11),
        (b"x=(a", SyntaxKind::UnexpectedEnd, 1, 4),
        (b"[[ a", SyntaxKind::UnexpectedEnd, 1, 4),
        (b"$(if a", SyntaxKind::UnexpectedEnd, 1, 6),
        (b"$(a", SyntaxKind::UnclosedSubstitution, 1, 0),
        (b"a $((1) )", SyntaxKind::UnclosedSubstitution, 1, 2),
        (b"a ${x", SyntaxKind::UnclosedSubstitution, 1, 2),
        (b"a\n b ${x:-c", SyntaxKind::UnclosedSubstitution, 2, 5),
        (b"a ${x[1", SyntaxKind::UnclosedSubstitution, 1, 2),
        (b"a `b", SyntaxKind::UnclosedSubstitution, 1, 2),
        (b"\"a $(b", SyntaxKind::UnclosedSubstitution, 1, 3),
        (b"a \"b", SyntaxKind::UnclosedQuote, 1, 2),
        (b"a \"b$(c)\n", SyntaxKind::UnclosedQuote, 1, 2),
        (b"a 'b", SyntaxKind::UnclosedQuote, 1, 2),
        (b"$( \"a", SyntaxKind::UnclosedQuote, 1, 3),
    ];
    for (text, kind, line, byte) in rows {
        assert!(rt; has_fault(alloc, text, kind, line, byte));
    }
    Ok(())
}

#[test]
fn other_faults(rt: HostRuntime) -> Result<(), Fail> {
    let alloc = rt.alloc();
    let rows: [(&[u8], SyntaxKind, u32, u32); 17] = [
        (b"for 1x", SyntaxKind::BadName, 1, 4),
        (b"select a-b", SyntaxKind::BadName, 1, 7),
        (b"function x=1 {", SyntaxKind::BadName, 1, 9),
        (b"1f (", SyntaxKind::BadName, 1, 0),
        (b"a; 1f ()", SyntaxKind::BadName, 1, 3),
        (b"a ${}", SyntaxKind::BadName, 1, 4),
        (b"time a", SyntaxKind::NotInProfile, 1, 0),
        (b"a; namespace b", SyntaxKind::NotInProfile, 1, 3),
        (b"a <(b)", SyntaxKind::NotInProfile, 1, 2),
        (b"a \0", SyntaxKind::NotInProfile, 1, 2),
        (b"a ~(b)", SyntaxKind::NotInProfile, 1, 2),
        (b"cat <<E\nb\n", SyntaxKind::HereDocMissing, 1, 4),
        (b"cat <<E", SyntaxKind::HereDocMissing, 1, 4),
        (b"$(cat 3<<E", SyntaxKind::HereDocMissing, 1, 7),
        (b"cat <<E <<F\nE\n", SyntaxKind::HereDocMissing, 1, 8),
        (
            b"a\ncat <<E\n$(cat <<F\nE\nF\n",
            SyntaxKind::HereDocMissing,
            3,
            16,
        ),
        (b"cat <<E\n$(if a\nE\n", SyntaxKind::UnexpectedEnd, 3, 15),
    ];
    for (text, kind, line, byte) in rows {
        assert!(rt; has_fault(alloc, text, kind, line, byte));
    }
    Ok(())
}

#[test]
fn arithmetic_texts_are_expressions(rt: HostRuntime) -> Result<(), Fail> {
    let texts: [&[u8]; 12] = [
        b"(( (1) + (2) ))",
        b"((1\\\n+2))",
        b"$((a[1+]))",
        b"for ((;;)) do a; done",
        b"for (( ; \t;\n)) do a; done",
        b"for ((\\\n;;)) do a; done",
        b"((1+$x+))",
        b"$((1 `a`))",
        b"((\"1+\"))",
        b"for (('+';;)) do a; done",
        b"((\\$ +))",
        b"print ${x:1+:2} ${x[1+]}; x[1+]=2",
    ];
    for text in texts {
        assert!(rt; is_fine(rt.alloc(), text));
    }
    Ok(())
}

#[test]
fn arithmetic_texts_that_are_no_expressions(rt: HostRuntime) -> Result<(), Fail> {
    let alloc = rt.alloc();
    let rows: [(&[u8], u32, u32); 11] = [
        (b"((1+))", 1, 4),
        (b"(())", 1, 2),
        (b"(( ))", 1, 3),
        (b"print $(( ))", 1, 10),
        (b"a=$((1 2))", 1, 7),
        (b"for ((1+;;)) do a; done", 1, 8),
        (b"for ((;;1 2)) do a; done", 1, 10),
        (b"for ((1;2;3;4)) do a; done", 1, 11),
        (b"((9223372036854775809))", 1, 20),
        (b"((1 \\\\ 2))", 1, 4),
        (b"$((a[1))", 1, 6),
    ];
    for (text, line, byte) in rows {
        assert!(rt; has_fault(alloc, text, SyntaxKind::BadArithmetic, line, byte));
    }
    Ok(())
}

#[test]
fn arithmetic_faults_stand_in_the_text(rt: HostRuntime) -> Result<(), Fail> {
    let alloc = rt.alloc();
    let rows: [(&[u8], u32, u32); 8] = [
        (b"a\n((1+\\\n))", 3, 8),
        (b"((1\\\n+))", 2, 6),
        (b"((1\\\n+*2))", 2, 6),
        (b"((1+)) \"a", 1, 4),
        (b"`((1+))`", 1, 5),
        (b"cat <<E\n$((1+))\nE\n", 2, 13),
        (b"(($((1+))))", 1, 7),
        (b"\"$((1+))\"", 1, 6),
    ];
    for (text, line, byte) in rows {
        assert!(rt; has_fault(alloc, text, SyntaxKind::BadArithmetic, line, byte));
    }
    Ok(())
}

#[test]
fn other_faults_come_before_an_arithmetic_text_ends(rt: HostRuntime) -> Result<(), Fail> {
    let alloc = rt.alloc();
    let rows: [(&[u8], SyntaxKind, u32); 6] = [
        (b"((1+ \"a", SyntaxKind::UnclosedQuote, 5),
        (b"((1+ \0))", SyntaxKind::NotInProfile, 5),
        (b"((1+", SyntaxKind::UnexpectedEnd, 4),
        (b"((1+)", SyntaxKind::UnexpectedEnd, 5),
        (b"for ((1;2+)) do a; done", SyntaxKind::UnexpectedToken, 10),
        (b"$((1+", SyntaxKind::UnclosedSubstitution, 0),
    ];
    for (text, kind, byte) in rows {
        assert!(rt; has_fault(alloc, text, kind, 1, byte));
    }
    Ok(())
}

// So many signs in an arithmetic text.
fn signs(alloc: Global, count: usize) -> Result<Text, Memory> {
    let mut text = Text::of(alloc, b"((")?;
    for _ in 0..count {
        text.append(b"- ")?;
    }
    text.append(b"x))")?;
    Ok(text)
}

#[test]
fn expressions_of_256_levels_stand(rt: HostRuntime) -> Result<(), Fail> {
    let alloc = rt.alloc();
    let deep = signs(alloc, 255)?;
    assert!(rt; is_fine(alloc, deep.bytes()));
    let deeper = signs(alloc, 256)?;
    assert!(rt; has_fault(alloc, deeper.bytes(), SyntaxKind::TooDeep, 1, 512));
    Ok(())
}

// So many braces inside one another.
fn nested(alloc: Global, count: usize) -> Result<Text, Memory> {
    let mut text = Text::empty(alloc);
    for _ in 0..count {
        text.append(b"{ ")?;
    }
    text.append(b"a\n")?;
    for _ in 0..count {
        text.append(b"}\n")?;
    }
    Ok(text)
}

#[test]
fn sixty_four_openings_stand(rt: HostRuntime) -> Result<(), Fail> {
    let alloc = rt.alloc();
    let deep = nested(alloc, 64)?;
    assert!(rt; is_fine(alloc, deep.bytes()));
    let deeper = nested(alloc, 65)?;
    assert!(rt; has_fault(alloc, deeper.bytes(), SyntaxKind::TooDeep, 1, 128));
    Ok(())
}
