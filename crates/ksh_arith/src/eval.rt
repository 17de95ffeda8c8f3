ghost use Rattle.std.specs.Prelude.{◌≡◌, ◌≤◌, ◌-◌};
ghost use Rattle.ksh_arith.specs.Asks.{Serves, Performs, ServedBy, then_by, Ends, ended_as};
ghost use Rattle.ksh_arith.specs.Meaning.{asked, text_value, told_value, parsed_value, reads_by, meaning_at, read, write, settle, settled_as, settled_in, fault_of, step_at, step_by, update_at, assign_by, joined, chain_from, power_by, chosen, truth_of, value_at};
ghost use Rattle.ksh_arith.specs.Values.{binary_value};
ghost use Rattle.ksh_arith.specs.Grammar.{parsed};

use crate::ask::{VarAnswer, VarAsk};
use crate::compute;
use crate::fault::{ArithFault, ArithRefused, NumFault};
use crate::numeral::read_number;
use crate::parse::parse_arith;
use arith_tree::{ArithExpr, ArithLink, ArithPath, BinaryOp, ChainOp, StepWay};
use std::alloc::Global;

/// How many levels an expression may have.
const LEVELS: u32 = 256;

/// How many texts may be read inside one another.
const TEXTS: u32 = 16;

fn call<S, T, E, V: FnMut(&mut S, &mut T, &ArithPath, VarAsk, u32) -> Result<VarAnswer, E>>(
    rest: &mut S,
    state: &mut T,
    vars: &mut V,
    path: &ArithPath,
    what: VarAsk,
    depth: u32,
) -> Result<VarAnswer, E>
    requires ready { Serves V.FnMut (vars.old, (rest.old, state.old)) }
    requires small { depth ≤ 16 }
    ensures did { Performs V.FnMut (vars.old, (rest.old, state.old)) (record { path = path.now; ask = what; depth = depth }) result (vars.new, (rest.new, state.new)) }
    ensures serves { Serves V.FnMut (vars.new, (rest.new, state.new)) }
{
    vars(rest, state, path, what, depth)
}

fn ask<S, T, E, V: FnMut(&mut S, &mut T, &ArithPath, VarAsk, u32) -> Result<VarAnswer, E>>(
    rest: &mut S,
    state: &mut T,
    vars: &mut V,
    path: &ArithPath,
    what: VarAsk,
    depth: u32,
) -> Result<VarAnswer, ArithFault<E>>
    requires ready { Serves V.FnMut (vars.old, (rest.old, state.old)) }
    requires small { depth ≤ 16 }
    ensures served { ServedBy V.FnMut (vars.old, (rest.old, state.old)) (asked path.now what depth) result (vars.new, (rest.new, state.new)) }
    ensures serves { Serves V.FnMut (vars.new, (rest.new, state.new)) }
{
    match call(rest, state, vars, path, what, depth) {
        Ok(answer) => Ok(answer),
        Err(refused) => Err(ArithFault::Var(refused))
    }
}

fn write<S, T, E, V: FnMut(&mut S, &mut T, &ArithPath, VarAsk, u32) -> Result<VarAnswer, E>>(
    rest: &mut S,
    state: &mut T,
    vars: &mut V,
    path: &ArithPath,
    value: i64,
    depth: u32,
) -> Result<i64, ArithFault<E>>
    requires ready { Serves V.FnMut (vars.old, (rest.old, state.old)) }
    requires small { depth ≤ 16 }
    ensures served { ServedBy V.FnMut (vars.old, (rest.old, state.old)) (write (reads_by (16 - depth)) depth path.now value) result (vars.new, (rest.new, state.new)) }
    ensures serves { Serves V.FnMut (vars.new, (rest.new, state.new)) }
{
    match ask(rest, state, vars, path, VarAsk::Write(value), depth) {
        Ok(_) => Ok(value),
        Err(stop) => Err(stop)
    }
}

/// The path with its subscripts evaluated, in an answer to `Settle`.
fn settled(answer: VarAnswer) -> Option<ArithPath>
    ensures { result ≡ settled_in answer }
{
    match answer {
        VarAnswer::Settled(path) => Some(path),
        VarAnswer::Number(_) | VarAnswer::Plain(_) => None,
    }
}

/// The path with its subscripts evaluated; nothing where it stays as it is.
fn settle<S, T, E, V: FnMut(&mut S, &mut T, &ArithPath, VarAsk, u32) -> Result<VarAnswer, E>>(
    rest: &mut S,
    state: &mut T,
    vars: &mut V,
    path: &ArithPath,
    depth: u32,
) -> Result<Option<ArithPath>, ArithFault<E>>
    requires ready { Serves V.FnMut (vars.old, (rest.old, state.old)) }
    requires small { depth ≤ 16 }
    ensures served { ServedBy V.FnMut (vars.old, (rest.old, state.old)) (settle (reads_by (16 - depth)) depth path.now) (settled_as path.now result) (vars.new, (rest.new, state.new)) }
    ensures serves { Serves V.FnMut (vars.new, (rest.new, state.new)) }
{
    if path.parts.is_empty() {
        return Ok(None);
    }
    match ask(rest, state, vars, path, VarAsk::Settle, depth) {
        Ok(answer) => Ok(settled(answer)),
        Err(stop) => Err(stop)
    }
}

/// The value of a variable.
#[cycle(eval)]
fn read<S, T, E, V: FnMut(&mut S, &mut T, &ArithPath, VarAsk, u32) -> Result<VarAnswer, E>>(
    alloc: Global,
    rest: &mut S,
    state: &mut T,
    vars: &mut V,
    path: &ArithPath,
    depth: u32,
) -> Result<i64, ArithFault<E>>
    requires ready { Serves V.FnMut (vars.old, (rest.old, state.old)) }
    requires small { depth ≤ 16 }
    ensures served { ServedBy V.FnMut (vars.old, (rest.old, state.old)) (read (reads_by (16 - depth)) depth path.now) result (vars.new, (rest.new, state.new)) }
    ensures serves { Serves V.FnMut (vars.new, (rest.new, state.new)) }
{
    match ask(rest, state, vars, path, VarAsk::Read, depth) {
        Ok(answer) => match answer {
            VarAnswer::Number(value) => Ok(value),
            VarAnswer::Plain(text) => read_text(alloc, rest, state, vars, text.bytes(), depth),
            VarAnswer::Settled(_) => Ok(0),
        },
        Err(stop) => Err(stop),
    }
}

/// The value of a variable's text.
#[cycle(eval)]
fn read_text<S, T, E, V: FnMut(&mut S, &mut T, &ArithPath, VarAsk, u32) -> Result<VarAnswer, E>>(
    alloc: Global,
    rest: &mut S,
    state: &mut T,
    vars: &mut V,
    text: &[u8],
    depth: u32,
) -> Result<i64, ArithFault<E>>
    requires ready { Serves V.FnMut (vars.old, (rest.old, state.old)) }
    requires small { depth ≤ 16 }
    ensures served { ServedBy V.FnMut (vars.old, (rest.old, state.old)) (text_value (reads_by (16 - depth)) text.now) result (vars.new, (rest.new, state.new)) }
    ensures serves { Serves V.FnMut (vars.new, (rest.new, state.new)) }
{
    if text.is_empty() {
        return Ok(0);
    }
    if let Some(number) = read_number(text) {
        return Ok(number);
    }
    if depth >= TEXTS {
        return Err(ArithFault::Value(NumFault::TooDeep));
    }
    match parse_arith(alloc, text) {
        Ok(expr) => eval(alloc, rest, state, vars, &expr, depth + 1, LEVELS),
        Err(refused) => Err(refused_as(refused)),
    }
}

/// A text that is no expression, as the fault of its reader.
fn refused_as<E>(refused: ArithRefused) -> ArithFault<E>
    ensures { result ≡ fault_of refused }
{
    match refused {
        ArithRefused::Bad(at) => ArithFault::Value(NumFault::NotANumber(at)),
        ArithRefused::TooDeep(_) => ArithFault::Value(NumFault::TooDeep),
        ArithRefused::Memory => ArithFault::Memory,
    }
}

/// The value of an expression of at most so many levels.
#[cycle(eval)]
fn eval<S, T, E, V: FnMut(&mut S, &mut T, &ArithPath, VarAsk, u32) -> Result<VarAnswer, E>>(
    alloc: Global,
    rest: &mut S,
    state: &mut T,
    vars: &mut V,
    expr: &ArithExpr,
    depth: u32,
    levels: u32,
) -> Result<i64, ArithFault<E>>
    requires ready { Serves V.FnMut (vars.old, (rest.old, state.old)) }
    requires small { depth ≤ 16 }
    ensures served { ServedBy V.FnMut (vars.old, (rest.old, state.old)) (meaning_at depth levels expr.now) result (vars.new, (rest.new, state.new)) }
    ensures serves { Serves V.FnMut (vars.new, (rest.new, state.new)) }
{
    if levels == 0 {
        return Err(ArithFault::Value(NumFault::TooDeep));
    }
    let levels = levels - 1;
    match expr {
        ArithExpr::Number(value) => Ok(*value),
        ArithExpr::Variable(path) => read(alloc, rest, state, vars, path, depth),
        ArithExpr::Unary(op, operand) => match eval(
            alloc,
            rest,
            state,
            vars,
            operand.get(),
            depth,
            levels,
        ) {
            Ok(value) => Ok(compute::unary(*op, value)),
            Err(stop) => Err(stop)
        },
        ArithExpr::Step { path, way } => eval_step(alloc, rest, state, vars, path, *way, depth),
        ArithExpr::Power(base, exponent) => eval_power(
            alloc,
            rest,
            state,
            vars,
            base.get(),
            exponent.get(),
            depth,
            levels,
        ),
        ArithExpr::Chain(first, links) => match eval(
            alloc,
            rest,
            state,
            vars,
            first.get(),
            depth,
            levels,
        ) {
            Ok(value) => eval_links(
                alloc,
                rest,
                state,
                vars,
                links.as_slice(),
                value,
                depth,
                levels,
            ),
            Err(stop) => Err(stop)
        },
        ArithExpr::Choice(test, first, second) => match eval(
            alloc,
            rest,
            state,
            vars,
            test.get(),
            depth,
            levels,
        ) {
            Ok(value) => {
                if value == 0 {
                    eval(alloc, rest, state, vars, second.get(), depth, levels)
                } else {
                    eval(alloc, rest, state, vars, first.get(), depth, levels)
                }
            }
            Err(stop) => Err(stop)
        },
        ArithExpr::Assign { path, op, value } => eval_assign(
            alloc,
            rest,
            state,
            vars,
            path,
            *op,
            value.get(),
            depth,
            levels,
        ),
    }
}

#[cycle(eval)]
fn eval_step<S, T, E, V: FnMut(&mut S, &mut T, &ArithPath, VarAsk, u32) -> Result<VarAnswer, E>>(
    alloc: Global,
    rest: &mut S,
    state: &mut T,
    vars: &mut V,
    path: &ArithPath,
    way: StepWay,
    depth: u32,
) -> Result<i64, ArithFault<E>>
    requires ready { Serves V.FnMut (vars.old, (rest.old, state.old)) }
    requires small { depth ≤ 16 }
    ensures served { ServedBy V.FnMut (vars.old, (rest.old, state.old)) (step_by (reads_by (16 - depth)) depth way path.now) result (vars.new, (rest.new, state.new)) }
    ensures serves { Serves V.FnMut (vars.new, (rest.new, state.new)) }
{
    match settle(rest, state, vars, path, depth) {
        Ok(settled) => match settled {
            Some(path) => step_settled(alloc, rest, state, vars, &path, way, depth),
            None => step_settled(alloc, rest, state, vars, path, way, depth),
        },
        Err(stop) => Err(stop),
    }
}

#[cycle(eval)]
fn step_settled<S, T, E, V: FnMut(&mut S, &mut T, &ArithPath, VarAsk, u32) -> Result<VarAnswer, E>>(
    alloc: Global,
    rest: &mut S,
    state: &mut T,
    vars: &mut V,
    path: &ArithPath,
    way: StepWay,
    depth: u32,
) -> Result<i64, ArithFault<E>>
    requires ready { Serves V.FnMut (vars.old, (rest.old, state.old)) }
    requires small { depth ≤ 16 }
    ensures served { ServedBy V.FnMut (vars.old, (rest.old, state.old)) (step_at (reads_by (16 - depth)) depth way path.now) result (vars.new, (rest.new, state.new)) }
    ensures serves { Serves V.FnMut (vars.new, (rest.new, state.new)) }
{
    match read(alloc, rest, state, vars, path, depth) {
        Ok(before) => match write(rest, state, vars, path, compute::step(way, before), depth) {
            Ok(after) => Ok(compute::step_result(way, before, after)),
            Err(stop) => Err(stop),
        },
        Err(stop) => Err(stop),
    }
}

#[cycle(eval)]
fn eval_power<S, T, E, V: FnMut(&mut S, &mut T, &ArithPath, VarAsk, u32) -> Result<VarAnswer, E>>(
    alloc: Global,
    rest: &mut S,
    state: &mut T,
    vars: &mut V,
    base: &ArithExpr,
    exponent: &ArithExpr,
    depth: u32,
    levels: u32,
) -> Result<i64, ArithFault<E>>
    requires ready { Serves V.FnMut (vars.old, (rest.old, state.old)) }
    requires small { depth ≤ 16 }
    ensures served { ServedBy V.FnMut (vars.old, (rest.old, state.old)) (power_by (reads_by (16 - depth)) depth (meaning_at depth levels base.now) (meaning_at depth levels exponent.now)) result (vars.new, (rest.new, state.new)) }
    ensures serves { Serves V.FnMut (vars.new, (rest.new, state.new)) }
{
    match eval(alloc, rest, state, vars, base, depth, levels) {
        Ok(base) => match eval(alloc, rest, state, vars, exponent, depth, levels) {
            Ok(exponent) => as_value(compute::power(base, exponent)),
            Err(stop) => Err(stop),
        },
        Err(stop) => Err(stop),
    }
}

/// A value or its fault, as an evaluation answers it.
fn as_value<E>(value: Result<i64, NumFault>) -> Result<i64, ArithFault<E>>
    ensures { result ≡ ended_as value }
{
    match value {
        Ok(value) => Ok(value),
        Err(fault) => Err(ArithFault::Value(fault)),
    }
}

/// The operands of a chain behind the first, from the left.
#[cycle(eval)]
fn eval_links<S, T, E, V: FnMut(&mut S, &mut T, &ArithPath, VarAsk, u32) -> Result<VarAnswer, E>>(
    alloc: Global,
    rest: &mut S,
    state: &mut T,
    vars: &mut V,
    links: &[ArithLink],
    first: i64,
    depth: u32,
    levels: u32,
) -> Result<i64, ArithFault<E>>
    requires ready { Serves V.FnMut (vars.old, (rest.old, state.old)) }
    requires small { depth ≤ 16 }
    ensures served { ServedBy V.FnMut (vars.old, (rest.old, state.old)) (chain_from (reads_by (16 - depth)) depth (meaning_at depth levels) links.now first) result (vars.new, (rest.new, state.new)) }
    ensures serves { Serves V.FnMut (vars.new, (rest.new, state.new)) }
{
    let mut value = first;
    for link in links {
        match eval_link(alloc, rest, state, vars, link, value, depth, levels) {
            Ok(next) => value = next,
            Err(stop) => return Err(stop),
        }
    }
    Ok(value)
}

#[cycle(eval)]
fn eval_link<S, T, E, V: FnMut(&mut S, &mut T, &ArithPath, VarAsk, u32) -> Result<VarAnswer, E>>(
    alloc: Global,
    rest: &mut S,
    state: &mut T,
    vars: &mut V,
    link: &ArithLink,
    before: i64,
    depth: u32,
    levels: u32,
) -> Result<i64, ArithFault<E>>
    requires ready { Serves V.FnMut (vars.old, (rest.old, state.old)) }
    requires small { depth ≤ 16 }
    ensures served { ServedBy V.FnMut (vars.old, (rest.old, state.old)) (joined (reads_by (16 - depth)) depth link.now.op before (meaning_at depth levels link.now.operand)) result (vars.new, (rest.new, state.new)) }
    ensures serves { Serves V.FnMut (vars.new, (rest.new, state.new)) }
{
    match link.op {
        ChainOp::Comma => eval(alloc, rest, state, vars, &link.operand, depth, levels),
        ChainOp::Or => {
            if before != 0 {
                return Ok(1);
            }
            eval_truth(alloc, rest, state, vars, &link.operand, depth, levels)
        }
        ChainOp::And => {
            if before == 0 {
                return Ok(0);
            }
            eval_truth(alloc, rest, state, vars, &link.operand, depth, levels)
        }
        ChainOp::Binary(op) => match eval(alloc, rest, state, vars, &link.operand, depth, levels) {
            Ok(value) => as_value(compute::binary(op, before, value)),
            Err(stop) => Err(stop),
        },
    }
}

#[cycle(eval)]
fn eval_truth<S, T, E, V: FnMut(&mut S, &mut T, &ArithPath, VarAsk, u32) -> Result<VarAnswer, E>>(
    alloc: Global,
    rest: &mut S,
    state: &mut T,
    vars: &mut V,
    operand: &ArithExpr,
    depth: u32,
    levels: u32,
) -> Result<i64, ArithFault<E>>
    requires ready { Serves V.FnMut (vars.old, (rest.old, state.old)) }
    requires small { depth ≤ 16 }
    ensures served { ServedBy V.FnMut (vars.old, (rest.old, state.old)) (then_by (meaning_at depth levels operand.now) (truth_of (reads_by (16 - depth)) depth)) result (vars.new, (rest.new, state.new)) }
    ensures serves { Serves V.FnMut (vars.new, (rest.new, state.new)) }
{
    match eval(alloc, rest, state, vars, operand, depth, levels) {
        Ok(value) => Ok(i64::from(value != 0)),
        Err(stop) => Err(stop),
    }
}

#[cycle(eval)]
fn eval_assign<S, T, E, V: FnMut(&mut S, &mut T, &ArithPath, VarAsk, u32) -> Result<VarAnswer, E>>(
    alloc: Global,
    rest: &mut S,
    state: &mut T,
    vars: &mut V,
    path: &ArithPath,
    op: Option<BinaryOp>,
    value: &ArithExpr,
    depth: u32,
    levels: u32,
) -> Result<i64, ArithFault<E>>
    requires ready { Serves V.FnMut (vars.old, (rest.old, state.old)) }
    requires small { depth ≤ 16 }
    ensures served { ServedBy V.FnMut (vars.old, (rest.old, state.old)) (assign_by (reads_by (16 - depth)) depth path.now op (meaning_at depth levels value.now)) result (vars.new, (rest.new, state.new)) }
    ensures serves { Serves V.FnMut (vars.new, (rest.new, state.new)) }
{
    let Some(op) = op else {
        return match eval(alloc, rest, state, vars, value, depth, levels) {
            Ok(value) => write(rest, state, vars, path, value, depth),
            Err(stop) => Err(stop),
        };
    };
    match settle(rest, state, vars, path, depth) {
        Ok(settled) => match settled {
            Some(path) => update_settled(alloc, rest, state, vars, &path, op, value, depth, levels),
            None => update_settled(alloc, rest, state, vars, path, op, value, depth, levels),
        },
        Err(stop) => Err(stop),
    }
}

#[cycle(eval)]
fn update_settled<
    S,
    T,
    E,
    V: FnMut(&mut S, &mut T, &ArithPath, VarAsk, u32) -> Result<VarAnswer, E>,
>(
    alloc: Global,
    rest: &mut S,
    state: &mut T,
    vars: &mut V,
    path: &ArithPath,
    op: BinaryOp,
    value: &ArithExpr,
    depth: u32,
    levels: u32,
) -> Result<i64, ArithFault<E>>
    requires ready { Serves V.FnMut (vars.old, (rest.old, state.old)) }
    requires small { depth ≤ 16 }
    ensures served { ServedBy V.FnMut (vars.old, (rest.old, state.old)) (update_at (reads_by (16 - depth)) depth op (meaning_at depth levels value.now) path.now) result (vars.new, (rest.new, state.new)) }
    ensures serves { Serves V.FnMut (vars.new, (rest.new, state.new)) }
{
    match read(alloc, rest, state, vars, path, depth) {
        Ok(before) => match eval(alloc, rest, state, vars, value, depth, levels) {
            Ok(value) => write_result(
                rest,
                state,
                vars,
                path,
                compute::binary(op, before, value),
                depth,
            ),
            Err(stop) => Err(stop),
        },
        Err(stop) => Err(stop),
    }
}

fn write_result<S, T, E, V: FnMut(&mut S, &mut T, &ArithPath, VarAsk, u32) -> Result<VarAnswer, E>>(
    rest: &mut S,
    state: &mut T,
    vars: &mut V,
    path: &ArithPath,
    value: Result<i64, NumFault>,
    depth: u32,
) -> Result<i64, ArithFault<E>>
    requires ready { Serves V.FnMut (vars.old, (rest.old, state.old)) }
    requires small { depth ≤ 16 }
    ensures served { ServedBy V.FnMut (vars.old, (rest.old, state.old)) (then_by (Ends value) (write (reads_by (16 - depth)) depth path.now)) result (vars.new, (rest.new, state.new)) }
    ensures serves { Serves V.FnMut (vars.new, (rest.new, state.new)) }
{
    match value {
        Ok(value) => write(rest, state, vars, path, value, depth),
        Err(fault) => Err(ArithFault::Value(fault)),
    }
}

/// The value of an expression, with its effects on variables, while `depth` texts are being read inside one another.
///
/// `vars` is handed `rest` and `state`, the variable's path, what is asked of it, and how many texts are being read.
/// The value comes with exactly the calls that the expression asks for, in its order of evaluation, or the first fault
/// in that order; `Var` has what a call of `vars` refused.
pub fn eval_arith<
    S,
    T,
    E,
    V: FnMut(&mut S, &mut T, &ArithPath, VarAsk, u32) -> Result<VarAnswer, E>,
>(
    alloc: Global,
    expr: &ArithExpr,
    rest: &mut S,
    state: &mut T,
    vars: &mut V,
    depth: u32,
) -> Result<i64, ArithFault<E>>
    requires ready { Serves V.FnMut (vars.old, (rest.old, state.old)) }
    requires small { depth ≤ 16 }
    ensures served { ServedBy V.FnMut (vars.old, (rest.old, state.old)) (value_at depth expr.now) result (vars.new, (rest.new, state.new)) }
    ensures serves { Serves V.FnMut (vars.new, (rest.new, state.new)) }
{
    eval(alloc, rest, state, vars, expr, depth, LEVELS)
}
