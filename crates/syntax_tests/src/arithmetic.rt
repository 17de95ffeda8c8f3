//! Values, effects and faults by the rules of the language.
use arith_tree::ArithPath;
use ksh_arith::{ArithFault, ArithRefused, NumFault, VarAnswer, VarAsk, eval_arith, parse_arith};
use ksh_base::{Memory, Text};
use std::alloc::Global;
use std::test::Fail;

/// What became of a text.
#[derive(Clone, Copy, Debug, PartialEq, Eq)]
enum End {
    /// Its value, and the number that was written last.
    Value(i64, Option<i64>),
    Refused(ArithRefused),
    Fault(NumFault),
    Memory,
}

/// The value of a text, where every variable is one that holds `held`.
fn evaluate(alloc: Global, text: &[u8], held: &[u8]) -> End {
    let expr = match parse_arith(alloc, text) {
        Ok(expr) => expr,
        Err(refused) => return End::Refused(refused),
    };
    let mut written: Option<i64> = None;
    let mut vars = |_rest: &mut (), _state: &mut (), path: &ArithPath, what: VarAsk, _depth: u32| -> Result<
        VarAnswer,
        Memory,
    > {
        match what {
            VarAsk::Read => match written {
                Some(number) => Ok(VarAnswer::Number(number)),
                None => Ok(VarAnswer::Plain(Text::of(alloc, held)?)),
            },
            VarAsk::Write(number) => {
                written = Some(number);
                Ok(VarAnswer::Number(number))
            }
            VarAsk::Settle => Ok(VarAnswer::Settled(path.copy(alloc)?)),
        }
    };
    match eval_arith(alloc, &expr, &mut (), &mut (), &mut vars, 0) {
        Ok(value) => End::Value(value, written),
        Err(ArithFault::Value(fault)) => End::Fault(fault),
        Err(ArithFault::Var(_) | ArithFault::Memory) => End::Memory,
    }
}

#[test]
fn values_are_those_of_the_rules(rt: HostRuntime) -> Result<(), Fail> {
    let cases: [(&[u8], i64); 34] = [
        (b"1+2*3", 7),
        (b"-2**2", 4),
        (b"2**3**2", 512),
        (b"2**64", 0),
        (b"0**0", 1),
        (b"-1>>70", -1),
        (b"1<<65", 2),
        (b"36#z", 35),
        (b"36#Z", 35),
        (b"2#101", 5),
        (b"0x1f", 31),
        (b"0X1F", 31),
        (b"010", 10),
        (b"1?2:1/0", 2),
        (b"0&&1/0", 0),
        (b"2||1/0", 1),
        (b"1,2,3", 3),
        (b"7/-2", -3),
        (b"-7%2", -1),
        (b"9223372036854775807+1", i64::MIN),
        (b"9223372036854775808/-1", i64::MIN),
        (b"!5", 0),
        (b"~5", -6),
        (b"- -5", 5),
        (b"1<2==1", 1),
        (b"6&3|8^12", 6),
        (b"1||0&&0", 1),
        (b"8-3-2", 3),
        (b"100/10/5", 2),
        (b"1?0?2:3:4", 3),
        (b"(1+2)*(3+4)", 21),
        (b"\t3 <= 3\n", 1),
        (b"5!=5||4>3", 1),
        (b"3**0**2", 1),
    ];
    for (text, want) in cases {
        assert_eq!(rt; evaluate(rt.alloc(), text, b""), End::Value(want, None));
    }
    Ok(())
}

#[test]
fn variables_are_read_and_written(rt: HostRuntime) -> Result<(), Fail> {
    let cases: [(&[u8], &[u8], i64, Option<i64>); 13] = [
        (b"x=3,x*x", b"", 9, Some(3)),
        (b"x", b"", 0, None),
        (b"x", b"-12", -12, None),
        (b"x+1", b"2*3", 7, None),
        (b"x++", b"4", 4, Some(5)),
        (b"--x", b"4", 3, Some(3)),
        (b"x+=2", b"4", 6, Some(6)),
        (b"x<<=2", b"3", 12, Some(12)),
        (b"a[i+1] *= 2", b"5", 10, Some(10)),
        (b".sh.value>1000", b"1001", 1, None),
        (b"it.qty*it.price", b"6", 36, None),
        (b"x=y=4", b"", 4, Some(4)),
        (b"0&&(x=1)", b"", 0, None),
    ];
    for (text, held, want, written) in cases {
        assert_eq!(rt; evaluate(rt.alloc(), text, held), End::Value(want, written));
    }
    Ok(())
}

#[test]
fn faults_are_the_first(rt: HostRuntime) -> Result<(), Fail> {
    let refused: [(&[u8], usize); 22] = [
        (b"", 0),
        (b"1+", 2),
        (b"9223372036854775809", 18),
        (b"1++", 2),
        (b"1--1", 2),
        (b"1=2", 2),
        (b"1+x=3", 4),
        (b"1<<=2", 3),
        (b"1+=2", 2),
        (b"(1", 2),
        (b"(1))", 3),
        (b"1:2", 1),
        (b"1?2", 3),
        (b"0x", 2),
        (b"2#2", 2),
        (b"37#1", 2),
        (b"12abc", 2),
        (b"1.5", 1),
        (b"a[1", 3),
        (b"a.5", 2),
        (b"(x)=3", 4),
        (b"++5", 2),
    ];
    for (text, at) in refused {
        assert_eq!(rt;
            evaluate(rt.alloc(), text, b""),
            End::Refused(ArithRefused::Bad(at))
        );
    }
    let faults: [(&[u8], &[u8], NumFault); 6] = [
        (b"2**-1", b"", NumFault::NegativeExponent),
        (b"1/0", b"", NumFault::DivideByZero),
        (b"x%=0", b"5", NumFault::DivideByZero),
        (b"x", b"y+", NumFault::NotANumber(2)),
        (b"x", b"x", NumFault::TooDeep),
        (b"1/0,x", b"y+", NumFault::DivideByZero),
    ];
    for (text, held, fault) in faults {
        assert_eq!(rt; evaluate(rt.alloc(), text, held), End::Fault(fault));
    }
    Ok(())
}

/// So many copies of some bytes, before others.
fn repeated(alloc: Global, bytes: &[u8], count: u32, last: &[u8]) -> Result<Text, Memory> {
    let mut text = Text::empty(alloc);
    for _ in 0..count {
        text.append(bytes)?;
    }
    text.append(last)?;
    Ok(text)
}

#[test]
fn depth_has_a_limit_and_length_none(rt: HostRuntime) -> Result<(), Fail> {
    let alloc = rt.alloc();
    let chain = repeated(alloc, b"1+", 100_000, b"1")?;
    assert_eq!(rt;
        evaluate(alloc, chain.bytes(), b""),
        End::Value(100_001, None)
    );
    let signs = repeated(alloc, b"-", 100_000, b"1")?;
    assert_eq!(rt;
        evaluate(alloc, signs.bytes(), b""),
        End::Refused(ArithRefused::Bad(2))
    );
    let fine = repeated(alloc, b"- ", 255, b"1")?;
    assert_eq!(rt; evaluate(alloc, fine.bytes(), b""), End::Value(-1, None));
    let deep = repeated(alloc, b"- ", 100_000, b"1")?;
    assert_eq!(rt;
        evaluate(alloc, deep.bytes(), b""),
        End::Refused(ArithRefused::TooDeep(510))
    );
    let open = repeated(alloc, b"(", 100_000, b"1")?;
    assert_eq!(rt;
        evaluate(alloc, open.bytes(), b""),
        End::Refused(ArithRefused::TooDeep(255))
    );
    let powers = repeated(alloc, b"1**", 255, b"1")?;
    assert_eq!(rt; evaluate(alloc, powers.bytes(), b""), End::Value(1, None));
    Ok(())
}

/// Operators and their levels, the loosest first, as C has them.
const LEVELS: [(&[u8], u32); 18] = [
    (b"||", 1),
    (b"&&", 2),
    (b"|", 3),
    (b"^", 4),
    (b"&", 5),
    (b"==", 6),
    (b"!=", 6),
    (b"<", 7),
    (b"<=", 7),
    (b">", 7),
    (b">=", 7),
    (b"<<", 8),
    (b">>", 8),
    (b"+", 9),
    (b"-", 9),
    (b"*", 10),
    (b"/", 10),
    (b"%", 10),
];

/// The pieces, one after another.
fn joined(alloc: Global, pieces: &[&[u8]]) -> Result<Text, Memory> {
    let mut text = Text::empty(alloc);
    for piece in pieces {
        text.append(piece)?;
    }
    Ok(text)
}

#[test]
fn each_pair_of_operators_groups_as_in_c(rt: HostRuntime) -> Result<(), Fail> {
    let alloc = rt.alloc();
    let operands: [(&[u8], &[u8], &[u8]); 3] = [
        (b"7", b"3", b"2"),
        (b"1", b"0", b"5"),
        (b"12", b"5", b"9"),
    ];
    for (left, left_level) in LEVELS {
        for (right, right_level) in LEVELS {
            for (a, b, c) in operands {
                let bare = joined(alloc, &[a, left, b, right, c])?;
                let grouped = if left_level >= right_level {
                    joined(alloc, &[b"(", a, left, b, b")", right, c])?
                } else {
                    joined(alloc, &[a, left, b"(", b, right, c, b")"])?
                };
                assert_eq!(rt;
                    evaluate(alloc, bare.bytes(), b""),
                    evaluate(alloc, grouped.bytes(), b"")
                );
            }
        }
    }
    Ok(())
}
