//! Steps of an arithmetic expression over a map of numbers.
use arith_tree::{ArithExpr, ArithPath};
use ksh_arith::{VarAnswer, VarAsk, eval_arith, parse_arith};
use ksh_base::{Memory, Name};
use std::alloc::Global;
use std::collections::BTreeMap;

const STEPS: u32 = 10_000_000;

/// The value of a variable, or its change, in a map of numbers.
fn answer(
    numbers: &mut BTreeMap<Name, i64>,
    path: &ArithPath,
    what: VarAsk,
) -> Result<VarAnswer, Memory> {
    match what {
        VarAsk::Read | VarAsk::Settle => Ok(VarAnswer::Number(
            numbers.get(&path.name).copied().unwrap_or(0),
        )),
        VarAsk::Write(number) => {
            if let Some(held) = numbers.get_mut(&path.name) {
                *held = number;
            }
            Ok(VarAnswer::Number(number))
        }
    }
}

fn steps(alloc: Global, expr: &ArithExpr, numbers: &mut BTreeMap<Name, i64>) -> Option<i64> {
    let mut vars = |_rest: &mut (), _state: &mut (), path: &ArithPath, what: VarAsk, _depth: u32| -> Result<
        VarAnswer,
        Memory,
    > { answer(numbers, path, what) };
    let mut last = 0;
    for _ in 0..STEPS {
        last = eval_arith(alloc, expr, &mut (), &mut (), &mut vars, 0).ok()?;
    }
    Some(last)
}

/// Runs `i = i * 3 + 1 & 1023` ten million times, and prints the last value.
pub(crate) fn run(rt: &HostRuntime) -> anyhow::Result<()> {
    let alloc = rt.alloc();
    let expr = parse_arith(alloc, b"i = i * 3 + 1 & 1023")?;
    let mut numbers = BTreeMap::new(alloc);
    numbers.insert(Name::read(alloc, b"i")?, 0)?;
    match steps(alloc, &expr, &mut numbers) {
        Some(last) => println!(rt; "{last}")?,
        None => println!(rt; "refused")?,
    }
    Ok(())
}
