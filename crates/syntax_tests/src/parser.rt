//! Scripts that each have a tree, and some that have a fault.
use ksh_ast::Command;
use ksh_base::Place;
use ksh_lexer::{SyntaxFault, SyntaxKind};
use ksh_parser::{Unparsed, parse_script};
use std::test::Fail;

#[test]
fn each_form_has_a_tree(rt: HostRuntime) -> Result<(), Fail> {
    let alloc = rt.alloc();
    let scripts: [&[u8]; 42] = [
        b"",
        b"\n\n",
        b"print a; print b\n",
        b"x=1 y=(a b) z+=c print $x ${y[1]} \"${#z}\" ${x:-d} ${x%%.*} ${x:1:2} ${x//a/b}",
        b"a.b=1; a[1][x]=2; a=([k]=v [l]=w); c=(x=1; typeset -i y=2; function f { :; }; g() { :; })",
        b"print $(print a) `print b` ${ print c; } $((1 + 2)) $((x$y))",
        b"print 'a' \"b $c $(d)\" $'e' \\f g\\\nh",
        b"a && b || c; d & e |& f | g | h; ! i",
        b"{ a; }; ( b ); ((x = 1)); [[ -n $x && ( a == b || ! c ) ]]",
        b"if a; then b; elif c; then d; else e; fi",
        b"while a; do b; done; until c\ndo d\ndone > f",
        b"for i in a b c; do d; done; for j\ndo e; done; for ((i = 0; i < 3; i++)); do f; done",
        b"for ((;;)); do a; done; select k in x; do b; done",
        b"case $x in a|b) c;; (d) e;& f) esac; case x in\nesac",
        b"function f { a; }\nf.g() { b; }\nh()\n(c) > d",
        b"cat <<A <<-'B' > c\n$x\nA\n\ty\n\tB\nd",
        b"print $(cat <<A\nb\nA\n) <<C\nd $(cat <<E\nf\nE\n)\nC\n",
        b"a > b < c >> d 2>&1 3<&- {v}>f <<< g <> h >| i",
        b"[[ a ]] && [[ -f a ]] && [[ a -lt b ]] || [[ a < b ]]",
        b"typeset -i x=1 y; export z=2; readonly a[1]=3 b.c=4",
        b"print $1 ${10} $? $# $@ \"$*\" ${#a[@]} ${!b} ${!c@} ${a[*]} ${d.e[f].g}",
        b"a=(); b=( ); c=(\n); d=(\n1\n2\n); e=(x=1\ny=2\n)",
        b"a; # b\n# c\nd",
        b"{ a; } > b | ( c ) < d && if e; then f; fi <<G\nh\nG\n",
        b"print ${a:-${b:-${c:-$(d)}}} \"${e:-\"f g\"}\"",
        b"print ?(a|b)*(c)+(d|e(f))@(g)!(h)",
        b"a[$(b)]=c; a[$((1))]+=d; print ${a[$b]}",
        b"time_=1; if_=2; print if then fi",
        b"((a ? b : c)); (( x[1] += 2, y ))",
        b"print \"`a`\" \"$((1))\"",
        b"a |\nb &&\nc ||\nd",
        b"! a | b",
        b"x=$(a) y=`b` z=${ c; }; x=a$(b)c",
        b"[[ (a) ]]; [[ ! (a || b) && c ]]; [[ $a = @(b|c)* ]]",
        b"print {a,b} ~ * [a-z] a=b",
        b"f() { a; } > b; f() if c; then d; fi; f() ((1))",
        b"while (( i < 3 )); do ((i++)); done",
        b"cat <<A\nA\n",
        b"cat << \\A\n$x `b`\nA\nprint c",
        b"print ${!x.y@} ${!x[1]@} ${!x[$i].z@} ${!x@}",
        b"c=(function typeset { :; }); d=(x=1\nfunction typeset\n{ :; }\n)",
        b"print <(a",
    ];
    let mut built = 0u32;
    for script in scripts {
        match parse_script(alloc, script) {
            Ok(_) => built = built.saturating_add(1),
            Err(Unparsed::Fault(_)) => {}
            Err(why) => return Err(why.into()),
        }
    }
    assert_eq!(rt; built, 41);
    Ok(())
}

#[test]
fn a_script_has_its_commands(rt: HostRuntime) -> Result<(), Fail> {
    let alloc = rt.alloc();
    let list = parse_script(alloc, b"print a\n\nif b; then c; fi; d &")?;
    match list.get().as_slice() {
        [first, second, third] => {
            assert!(rt; first.line == 1 && matches!(&first.command, Command::Simple { .. }));
            assert!(rt; second.line == 3 && matches!(&second.command, Command::If { .. }));
            assert!(rt; third.line == 3 && matches!(&third.command, Command::Background { .. }));
        }
        _ => assert!(rt; false),
    }
    let fault = SyntaxFault {
        kind: SyntaxKind::UnexpectedToken,
        place: Place { line: 1, byte: 7 },
    };
    assert!(rt; parse_script(alloc, b"print a;;").err() == Some(Unparsed::Fault(fault)));
    Ok(())
}
