ghost use Rattle.std.specs.Prelude.{◌≡◌, ◌≤◌, ◌<◌, ◌+◌, ◌-◌, Ok, Err, [], length, drop, max, IfOk};
ghost use Rattle.arith_tree.specs.declared.expr.ArithExpr.TheVariants as expr;
ghost use Rattle.ksh_arith.specs.declared.fault.ArithRefused.TheVariants.{Bad};
ghost use Rattle.ksh_arith.specs.Grammar.{Gives, parsed, whole_read, ended_by, placed, whole, read_by, signed, operand, in_parentheses, before_step, maybe_step, variable, number_read, literal, stepping, behind, power_behind, choice_behind, chosen_by, assign_behind, assigned_by, assigning, links_read, chain_read, closed_by, common_bytes, expr_of, height_of};

use crate::fault::ArithRefused;
use crate::part::Part;
use crate::path::read_path;
use crate::scan::{
    assigning, begins, begins_digit, begins_name, begins_two, behind, common_bytes, level_at,
    literal, operator_at, signing, skip, stepping,
};
use arith_tree::{ArithExpr, ArithLink, ArithPath, StepWay};
use ksh_base::{Boxed, Items, Memory};
use std::alloc::Global;

/// The level of the grammar that is a whole expression.
const WHOLE: u32 = 14;

/// How many levels an expression may have.
const LEVELS: u32 = 256;

/// The expression that the text is, of at most 256 levels; `Bad` has the first byte, or the end, at which none goes
/// on, and `TooDeep` the token past which the expression has more levels.
#[tactic(auto, unfolding(crate::specs::Grammar::parsed))]
pub fn parse_arith(alloc: Global, text: &[u8]) -> Result<ArithExpr, ArithRefused>
    ensures { Gives (λ e. e) result (parsed text.now) }
{
    match read_whole(alloc, text) {
        Ok(expr) => Ok(expr),
        Err(refused) => Err(place(text.len(), refused)),
    }
}

/// A fault at its place; the fault has how many bytes are left there.
fn place(length: usize, refused: ArithRefused) -> ArithRefused
    ensures { Err result ≡ placed length (Err refused) }
{
    match refused {
        ArithRefused::Bad(left) => ArithRefused::Bad(length.saturating_sub(left)),
        ArithRefused::TooDeep(left) => ArithRefused::TooDeep(length.saturating_sub(left)),
        ArithRefused::Memory => ArithRefused::Memory,
    }
}

fn read_whole(alloc: Global, text: &[u8]) -> Result<ArithExpr, ArithRefused>
    ensures { Gives (λ e. e) result (whole_read (read_by 256 whole text.now)) }
{
    match read(alloc, LEVELS, WHOLE, text) {
        Ok((part, rest)) => {
            let rest = skip(rest);
            if rest.is_empty() {
                return Ok(part.into_expr());
            }
            Err(dead_operator(rest))
        }
        Err(refused) => Err(refused),
    }
}

/// What closes an expression, which must stand there.
fn close(byte: u8, part: Part, text: &[u8]) -> Result<(Part, &[u8]), ArithRefused>
    ensures { Gives (λ r. (r.0, r.1.now)) result (closed_by byte part text.now) }
{
    if begins(byte, text) {
        return Ok((part, behind(text, 1)));
    }
    Err(dead_operator(text))
}

/// The fault where no token may stand there.
fn dead_operator(text: &[u8]) -> ArithRefused
    ensures { result ≡ Bad (length (drop (common_bytes text.now) text.now)) }
{
    ArithRefused::Bad(behind(text, common_bytes(text)).len())
}

/// A level of the grammar at the front of the text, where so many levels of the tree may stand: an operand, and what the
/// levels up to that one add behind it, the tightest first. Those whose operators don't stand there are passed over at once.
#[cycle(read)]
fn read(alloc: Global, levels: u32, level: u32, text: &[u8]) -> Result<(Part, &[u8]), ArithRefused>
    requires few { levels ≤ 256 }
    requires level { level ≤ 14 }
    ensures means { Gives (λ r. (r.0, r.1.now)) result (read_by levels level text.now) }
    ensures small { IfOk result (λ r. height_of r.0 ≤ levels + 2) }
{
    if levels == 0 {
        return Err(ArithRefused::TooDeep(text.len()));
    }
    let (mut part, mut rest) = match read_signed(alloc, levels, skip(text)) {
        Ok(signed) => signed,
        Err(refused) => return Err(refused),
    };
    let mut from = 0;
    while from < level {
        let front = skip(rest);
        let next = level_at(front);
        if next < from || next >= level {
            return Ok((part, front));
        }
        match read_behind(alloc, levels, next, part, front) {
            Ok((joined, more)) => {
                part = joined;
                rest = more;
            }
            Err(refused) => return Err(refused),
        }
        from = next + 1;
    }
    Ok((part, rest))
}

/// An operand with what is written before it.
#[cycle(read)]
#[tactic(auto, unfolding(crate::specs::Grammar::signed))]
fn read_signed(alloc: Global, levels: u32, text: &[u8]) -> Result<(Part, &[u8]), ArithRefused>
    requires few { levels ≤ 256 }
    ensures means { Gives (λ r. (r.0, r.1.now)) result (signed levels (read_by (levels - 1)) text.now) }
    ensures small { IfOk result (λ r. height_of r.0 ≤ levels + 2) }
{
    if let Some(down) = stepping(text) {
        return step_before(alloc, levels, down, text);
    }
    let Some(op) = signing(text) else {
        return read_operand(alloc, levels, text);
    };
    if levels < 2 {
        return Err(ArithRefused::TooDeep(text.len()));
    }
    match read(alloc, levels - 1, 0, behind(text, 1)) {
        Ok((part, rest)) => {
            let height = part.height() + 1;
            match Boxed::new(alloc, part.into_expr()) {
                Ok(operand) => Ok((
                    Part::Other {
                        expr: ArithExpr::Unary(op, operand),
                        height,
                    },
                    rest,
                )),
                Err(_) => Err(ArithRefused::Memory),
            }
        }
        Err(refused) => Err(refused),
    }
}

fn step_before(
    alloc: Global,
    levels: u32,
    down: bool,
    text: &[u8],
) -> Result<(Part, &[u8]), ArithRefused>
    requires few { levels ≤ 256 }
    ensures means { Gives (λ r. (r.0, r.1.now)) result (before_step levels down text.now) }
    ensures small { IfOk result (λ r. height_of r.0 ≤ levels + 2) }
{
    if levels < 2 {
        return Err(ArithRefused::TooDeep(text.len()));
    }
    match read_path(alloc, levels - 1, skip(behind(text, 2))) {
        Ok((path, height, rest)) => {
            let way = StepWay {
                down,
                before: false,
            };
            Ok((
                Part::Other {
                    expr: ArithExpr::Step { path, way },
                    height: height + 1,
                },
                rest,
            ))
        }
        Err(refused) => Err(refused),
    }
}

#[cycle(read)]
#[tactic(auto, unfolding(crate::specs::Grammar::operand))]
fn read_operand(alloc: Global, levels: u32, text: &[u8]) -> Result<(Part, &[u8]), ArithRefused>
    requires few { levels ≤ 256 }
    ensures means { Gives (λ r. (r.0, r.1.now)) result (operand levels (read_by (levels - 1)) text.now) }
    ensures small { IfOk result (λ r. height_of r.0 ≤ levels + 2) }
{
    if begins(b'(', text) {
        return read_parentheses(alloc, levels, text);
    }
    if begins_digit(text) {
        return read_number(text);
    }
    if begins_name(text) || begins(b'.', text) {
        return read_variable(alloc, levels, text);
    }
    Err(ArithRefused::Bad(text.len()))
}

#[cycle(read)]
fn read_parentheses(alloc: Global, levels: u32, text: &[u8]) -> Result<(Part, &[u8]), ArithRefused>
    requires few { levels ≤ 256 }
    ensures means { Gives (λ r. (r.0, r.1.now)) result (in_parentheses levels (read_by (levels - 1)) text.now) }
    ensures small { IfOk result (λ r. height_of r.0 ≤ levels + 2) }
{
    if levels < 2 {
        return Err(ArithRefused::TooDeep(text.len()));
    }
    match read(alloc, levels - 1, WHOLE, behind(text, 1)) {
        Ok((part, rest)) => match close(b')', part, skip(rest)) {
            Ok((part, rest)) => {
                let height = part.height() + 1;
                Ok((
                    Part::Other {
                        expr: part.into_expr(),
                        height,
                    },
                    rest,
                ))
            }
            Err(refused) => Err(refused),
        },
        Err(refused) => Err(refused),
    }
}

fn read_number(text: &[u8]) -> Result<(Part, &[u8]), ArithRefused>
    ensures means { Gives (λ r. (r.0, r.1.now)) result (number_read (literal text.now)) }
    ensures small { IfOk result (λ r. height_of r.0 ≤ 2) }
{
    match literal(text) {
        Ok((value, rest)) => {
            let expr = ArithExpr::Number(value.cast_signed());
            Ok((Part::Other { expr, height: 1 }, rest))
        }
        Err(refused) => Err(refused),
    }
}

fn read_variable(alloc: Global, levels: u32, text: &[u8]) -> Result<(Part, &[u8]), ArithRefused>
    requires few { levels ≤ 256 }
    ensures means { Gives (λ r. (r.0, r.1.now)) result (variable levels text.now) }
    ensures small { IfOk result (λ r. height_of r.0 ≤ levels + 2) }
{
    match read_path(alloc, levels, text) {
        Ok((path, height, rest)) => step_behind(levels, path, height, skip(rest)),
        Err(refused) => Err(refused),
    }
}

fn step_behind(
    levels: u32,
    path: ArithPath,
    height: u32,
    text: &[u8],
) -> Result<(Part, &[u8]), ArithRefused>
    requires few { levels ≤ 256 }
    requires low { height ≤ 2 }
    ensures means { Gives (λ r. (r.0, r.1.now)) result (maybe_step levels (path, height) text.now (stepping text.now)) }
    ensures small { IfOk result (λ r. height_of r.0 ≤ levels + 2) }
{
    let Some(down) = stepping(text) else {
        return Ok((Part::Variable { path, height }, text));
    };
    if levels <= height {
        return Err(ArithRefused::TooDeep(text.len()));
    }
    let way = StepWay { down, before: true };
    Ok((
        Part::Other {
            expr: ArithExpr::Step { path, way },
            height: height + 1,
        },
        behind(text, 2),
    ))
}

/// What may follow what was read of the level before.
#[cycle(read)]
#[tactic(auto, unfolding(crate::specs::Grammar::behind))]
fn read_behind(
    alloc: Global,
    levels: u32,
    before: u32,
    part: Part,
    text: &[u8],
) -> Result<(Part, &[u8]), ArithRefused>
    requires few { levels ≤ 256 }
    requires before { before ≤ 13 }
    requires low { height_of part ≤ levels + 2 }
    ensures means { Gives (λ r. (r.0, r.1.now)) result (behind levels (read_by (levels - 1)) before part text.now) }
    ensures small { IfOk result (λ r. height_of r.0 ≤ levels + 2) }
{
    match before {
        0 => power_behind(alloc, levels, part, text),
        11 => choice_behind(alloc, levels, part, text),
        12 => assign_behind(alloc, levels, part, text),
        13 => read_links(alloc, levels, 10, 13, part, text),
        level => read_links(alloc, levels, level - 1, level, part, text),
    }
}

#[cycle(read)]
#[tactic(auto, unfolding(crate::specs::Grammar::power_behind))]
fn power_behind(
    alloc: Global,
    levels: u32,
    part: Part,
    text: &[u8],
) -> Result<(Part, &[u8]), ArithRefused>
    requires few { levels ≤ 256 }
    requires low { height_of part ≤ levels + 2 }
    ensures means { Gives (λ r. (r.0, r.1.now)) result (power_behind levels (read_by (levels - 1)) part text.now) }
    ensures small { IfOk result (λ r. height_of r.0 ≤ levels + 2) }
{
    if !begins_two(b'*', b'*', text) {
        return Ok((part, text));
    }
    let height = part.height();
    if levels <= height {
        return Err(ArithRefused::TooDeep(text.len()));
    }
    match read(alloc, levels - 1, 1, behind(text, 2)) {
        Ok((exponent, rest)) => {
            let height = height.max(exponent.height()) + 1;
            match join_power(alloc, part.into_expr(), exponent.into_expr()) {
                Ok(expr) => Ok((Part::Other { expr, height }, rest)),
                Err(_) => Err(ArithRefused::Memory),
            }
        }
        Err(refused) => Err(refused),
    }
}

fn join_power(alloc: Global, base: ArithExpr, exponent: ArithExpr) -> Result<ArithExpr, Memory>
    ensures { IfOk result (λ e. e ≡ expr.Power base exponent) }
{
    let base = Boxed::new(alloc, base)?;
    let exponent = Boxed::new(alloc, exponent)?;
    Ok(ArithExpr::Power(base, exponent))
}

fn join_choice(
    alloc: Global,
    test: ArithExpr,
    first: ArithExpr,
    second: ArithExpr,
) -> Result<ArithExpr, Memory>
    ensures { IfOk result (λ e. e ≡ expr.Choice test first second) }
{
    let test = Boxed::new(alloc, test)?;
    let first = Boxed::new(alloc, first)?;
    let second = Boxed::new(alloc, second)?;
    Ok(ArithExpr::Choice(test, first, second))
}

#[cycle(read)]
#[tactic(auto, unfolding(crate::specs::Grammar::choice_behind))]
fn choice_behind(
    alloc: Global,
    levels: u32,
    part: Part,
    text: &[u8],
) -> Result<(Part, &[u8]), ArithRefused>
    requires few { levels ≤ 256 }
    requires low { height_of part ≤ levels + 2 }
    ensures means { Gives (λ r. (r.0, r.1.now)) result (choice_behind levels (read_by (levels - 1)) part text.now) }
    ensures small { IfOk result (λ r. height_of r.0 ≤ levels + 2) }
{
    if !begins(b'?', text) {
        return Ok((part, text));
    }
    if levels <= part.height() {
        return Err(ArithRefused::TooDeep(text.len()));
    }
    match read(alloc, levels - 1, WHOLE, behind(text, 1)) {
        Ok((first, rest)) => match close(b':', first, skip(rest)) {
            Ok((first, rest)) => choose(alloc, levels, part, first, rest),
            Err(refused) => Err(refused),
        },
        Err(refused) => Err(refused),
    }
}

#[cycle(read)]
fn choose(
    alloc: Global,
    levels: u32,
    part: Part,
    first: Part,
    text: &[u8],
) -> Result<(Part, &[u8]), ArithRefused>
    requires few { levels ≤ 256 }
    requires low { height_of part < levels }
    requires first { height_of first < levels + 2 }
    ensures means { Gives (λ r. (r.0, r.1.now)) result (chosen_by levels (read_by (levels - 1)) part first text.now) }
    ensures small { IfOk result (λ r. height_of r.0 ≤ levels + 2) }
{
    match read(alloc, levels - 1, 12, text) {
        Ok((second, rest)) => {
            let height = part.height().max(first.height().max(second.height())) + 1;
            match join_choice(
                alloc,
                part.into_expr(),
                first.into_expr(),
                second.into_expr(),
            ) {
                Ok(expr) => Ok((Part::Other { expr, height }, rest)),
                Err(_) => Err(ArithRefused::Memory),
            }
        }
        Err(refused) => Err(refused),
    }
}

#[cycle(read)]
fn assign_behind(
    alloc: Global,
    levels: u32,
    part: Part,
    text: &[u8],
) -> Result<(Part, &[u8]), ArithRefused>
    requires few { levels ≤ 256 }
    requires low { height_of part ≤ levels + 2 }
    ensures means { Gives (λ r. (r.0, r.1.now)) result (assign_behind levels (read_by (levels - 1)) part text.now) }
    ensures small { IfOk result (λ r. height_of r.0 ≤ levels + 2) }
{
    match part {
        Part::Variable { path, height } => assign(alloc, levels, path, height, text),
        Part::Other { expr, height } => Ok((Part::Other { expr, height }, text)),
    }
}

#[cycle(read)]
fn assign(
    alloc: Global,
    levels: u32,
    path: ArithPath,
    height: u32,
    text: &[u8],
) -> Result<(Part, &[u8]), ArithRefused>
    requires few { levels ≤ 256 }
    requires low { height ≤ levels + 2 }
    ensures means { Gives (λ r. (r.0, r.1.now)) result (assigned_by levels (read_by (levels - 1)) path height (assigning text.now) text.now) }
    ensures small { IfOk result (λ r. height_of r.0 ≤ levels + 2) }
{
    let Some((op, length)) = assigning(text) else {
        return Ok((Part::Variable { path, height }, text));
    };
    if levels <= height {
        return Err(ArithRefused::TooDeep(text.len()));
    }
    match read(alloc, levels - 1, 13, behind(text, length)) {
        Ok((value, rest)) => {
            let height = height.max(value.height()) + 1;
            match Boxed::new(alloc, value.into_expr()) {
                Ok(value) => Ok((
                    Part::Other {
                        expr: ArithExpr::Assign { path, op, value },
                        height,
                    },
                    rest,
                )),
                Err(_) => Err(ArithRefused::Memory),
            }
        }
        Err(refused) => Err(refused),
    }
}

/// The operands behind the first that operators of that level join, whose operands are of the tighter level of the grammar.
#[cycle(read)]
fn read_links(
    alloc: Global,
    levels: u32,
    level: u32,
    tighter: u32,
    first: Part,
    text: &[u8],
) -> Result<(Part, &[u8]), ArithRefused>
    requires few { levels ≤ 256 }
    requires low { height_of first ≤ levels + 2 }
    requires tighter { tighter ≤ 14 }
    ensures means { Gives (λ r. (r.0, r.1.now)) result (links_read levels (read_by (levels - 1)) (length text.now) level tighter first [] (height_of first) text.now) }
    ensures small { IfOk result (λ r. height_of r.0 ≤ levels + 2) }
{
    let mut links = Items::new(alloc);
    let mut height = first.height();
    let mut rest = text;
    let mut left = text.len();
    while left > 0 {
        let at = skip(rest);
        let Some((op, length)) = operator_at(level, at) else {
            return chained(alloc, levels, first, links, height, at);
        };
        if levels <= height {
            return Err(ArithRefused::TooDeep(at.len()));
        }
        match read(alloc, levels - 1, tighter, behind(at, length)) {
            Ok((part, more)) => {
                height = height.max(part.height());
                if links
                    .push(ArithLink {
                        op,
                        operand: part.into_expr(),
                    })
                    .is_err()
                {
                    return Err(ArithRefused::Memory);
                }
                rest = more;
            }
            Err(refused) => return Err(refused),
        }
        left -= 1;
    }
    chained(alloc, levels, first, links, height, rest)
}

/// The first operand alone, or a chain.
fn chained(
    alloc: Global,
    levels: u32,
    first: Part,
    links: Items<ArithLink>,
    height: u32,
    text: &[u8],
) -> Result<(Part, &[u8]), ArithRefused>
    requires few { levels ≤ 256 }
    requires low { height_of first ≤ levels + 2 }
    requires chain { (links ≡ [] → ⊥) → height ≤ levels + 1 }
    ensures means { Gives (λ r. (r.0, r.1.now)) result (chain_read first links height text.now) }
    ensures small { IfOk result (λ r. height_of r.0 ≤ levels + 2) }
{
    if links.is_empty() {
        return Ok((first, text));
    }
    match Boxed::new(alloc, first.into_expr()) {
        Ok(first) => Ok((
            Part::Other {
                expr: ArithExpr::Chain(first, links),
                height: height + 1,
            },
            text,
        )),
        Err(_) => Err(ArithRefused::Memory),
    }
}
