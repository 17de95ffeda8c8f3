//! Whether two commands are equal, one level at a time.
ghost use Rattle.std.specs.Prelude.{◌≡◌, IfOk};
ghost use Rattle.ast_equal.specs.Equal.{ComesTo};
ghost use Rattle.ksh_ast.specs.declared.tree.Command.TheVariants as command;
ghost use Rattle.ksh_ast.specs.declared.tree.Command.TheVariants.{Simple, Cond, Group, Subshell, If, Loop, For, ForArith, Case, Select, Function, Pipeline, AndOr, Not, Background};

use crate::equal_assigns::compare_definition;
use crate::equal_words::compare_arith;
use crate::unsettled::{Sides, Unsettled};
use ksh_ast::{
    Argument, Arith, Arm, Assign, CaseItem, Command, Condition, FunctionDef, Item, Link, List,
    Redirect, Word,
};
use ksh_base::{Boxed, Items, Memory, Name, Shared};

pub fn compare_items<'a>(
    left: &'a [Item],
    right: &'a [Item],
    unsettled: &mut Unsettled<'a>,
) -> Result<bool, Memory>
    ensures { IfOk result (λ same. ComesTo (left.now ≡ right.now) unsettled.old same unsettled.new) }
{
    let Some((left_first, left_rest)) = left.split_first() else {
        return Ok(right.is_empty());
    };
    let Some((right_first, right_rest)) = right.split_first() else {
        return Ok(false);
    };
    unsettled.push(Sides::Items(left_rest, right_rest))?;
    compare_item(left_first, right_first, unsettled)
}

fn compare_item<'a>(
    left: &'a Item,
    right: &'a Item,
    unsettled: &mut Unsettled<'a>,
) -> Result<bool, Memory>
    ensures { IfOk result (λ same. ComesTo (left.now ≡ right.now) unsettled.old same unsettled.new) }
{
    if left.line != right.line {
        return Ok(false);
    }
    unsettled.push(Sides::Command(&left.command, &right.command))?;
    Ok(true)
}

pub fn compare_lists<'a>(
    left: &'a [List],
    right: &'a [List],
    unsettled: &mut Unsettled<'a>,
) -> Result<bool, Memory>
    ensures { IfOk result (λ same. ComesTo (left.now ≡ right.now) unsettled.old same unsettled.new) }
{
    let Some((left_first, left_rest)) = left.split_first() else {
        return Ok(right.is_empty());
    };
    let Some((right_first, right_rest)) = right.split_first() else {
        return Ok(false);
    };
    unsettled.push(Sides::Lists(left_rest, right_rest))?;
    unsettled.push(Sides::Items(left_first.get().as_slice(), right_first.get().as_slice()))?;
    Ok(true)
}

pub fn compare_arms<'a>(
    left: &'a [Arm<List>],
    right: &'a [Arm<List>],
    unsettled: &mut Unsettled<'a>,
) -> Result<bool, Memory>
    ensures { IfOk result (λ same. ComesTo (left.now ≡ right.now) unsettled.old same unsettled.new) }
{
    let Some((left_first, left_rest)) = left.split_first() else {
        return Ok(right.is_empty());
    };
    let Some((right_first, right_rest)) = right.split_first() else {
        return Ok(false);
    };
    unsettled.push(Sides::Arms(left_rest, right_rest))?;
    compare_arm(left_first, right_first, unsettled)
}

fn compare_arm<'a>(
    left: &'a Arm<List>,
    right: &'a Arm<List>,
    unsettled: &mut Unsettled<'a>,
) -> Result<bool, Memory>
    ensures { IfOk result (λ same. ComesTo (left.now ≡ right.now) unsettled.old same unsettled.new) }
{
    unsettled.push(Sides::Items(left.test.get().as_slice(), right.test.get().as_slice()))?;
    unsettled.push(Sides::Items(left.body.get().as_slice(), right.body.get().as_slice()))?;
    Ok(true)
}

pub fn compare_case_items<'a>(
    left: &'a [CaseItem],
    right: &'a [CaseItem],
    unsettled: &mut Unsettled<'a>,
) -> Result<bool, Memory>
    ensures { IfOk result (λ same. ComesTo (left.now ≡ right.now) unsettled.old same unsettled.new) }
{
    let Some((left_first, left_rest)) = left.split_first() else {
        return Ok(right.is_empty());
    };
    let Some((right_first, right_rest)) = right.split_first() else {
        return Ok(false);
    };
    unsettled.push(Sides::CaseItems(left_rest, right_rest))?;
    compare_case_item(left_first, right_first, unsettled)
}

fn compare_case_item<'a>(
    left: &'a CaseItem,
    right: &'a CaseItem,
    unsettled: &mut Unsettled<'a>,
) -> Result<bool, Memory>
    ensures { IfOk result (λ same. ComesTo (left.now ≡ right.now) unsettled.old same unsettled.new) }
{
    if left.falls != right.falls {
        return Ok(false);
    }
    unsettled.push(Sides::Words(left.patterns.as_slice(), right.patterns.as_slice()))?;
    unsettled.push(Sides::Items(left.body.get().as_slice(), right.body.get().as_slice()))?;
    Ok(true)
}

pub fn compare_links<'a>(
    left: &'a [Link<Command>],
    right: &'a [Link<Command>],
    unsettled: &mut Unsettled<'a>,
) -> Result<bool, Memory>
    ensures { IfOk result (λ same. ComesTo (left.now ≡ right.now) unsettled.old same unsettled.new) }
{
    let Some((left_first, left_rest)) = left.split_first() else {
        return Ok(right.is_empty());
    };
    let Some((right_first, right_rest)) = right.split_first() else {
        return Ok(false);
    };
    unsettled.push(Sides::Links(left_rest, right_rest))?;
    compare_link(left_first, right_first, unsettled)
}

fn compare_link<'a>(
    left: &'a Link<Command>,
    right: &'a Link<Command>,
    unsettled: &mut Unsettled<'a>,
) -> Result<bool, Memory>
    ensures { IfOk result (λ same. ComesTo (left.now ≡ right.now) unsettled.old same unsettled.new) }
{
    unsettled.push(Sides::Command(&left.command, &right.command))?;
    Ok(left.or == right.or)
}

fn compare_otherwise<'a>(
    left: &'a Option<List>,
    right: &'a Option<List>,
    unsettled: &mut Unsettled<'a>,
) -> Result<bool, Memory>
    ensures { IfOk result (λ same. ComesTo (left.now ≡ right.now) unsettled.old same unsettled.new) }
{
    match left {
        Some(left) => match right {
            Some(right) => {
                unsettled.push(Sides::Items(left.get().as_slice(), right.get().as_slice()))?;
                Ok(true)
            },
            _ => Ok(false),
        },
        None => match right {
            None => Ok(true),
            _ => Ok(false),
        },
    }
}

fn compare_in_words<'a>(
    left: &'a Option<Items<Word>>,
    right: &'a Option<Items<Word>>,
    unsettled: &mut Unsettled<'a>,
) -> Result<bool, Memory>
    ensures { IfOk result (λ same. ComesTo (left.now ≡ right.now) unsettled.old same unsettled.new) }
{
    match left {
        Some(left) => match right {
            Some(right) => {
                unsettled.push(Sides::Words(left.as_slice(), right.as_slice()))?;
                Ok(true)
            },
            _ => Ok(false),
        },
        None => match right {
            None => Ok(true),
            _ => Ok(false),
        },
    }
}

fn compare_part<'a>(
    left: &'a Option<Arith>,
    right: &'a Option<Arith>,
    unsettled: &mut Unsettled<'a>,
) -> Result<bool, Memory>
    ensures { IfOk result (λ same. ComesTo (left.now ≡ right.now) unsettled.old same unsettled.new) }
{
    match left {
        Some(left) => match right {
            Some(right) => compare_arith(left, right, unsettled),
            _ => Ok(false),
        },
        None => match right {
            None => Ok(true),
            _ => Ok(false),
        },
    }
}

fn compare_simple<'a>(
    assigns: &'a Items<Assign>,
    words: &'a Items<Argument>,
    redirects: &'a Items<Redirect<Word>>,
    right: &'a Command,
    unsettled: &mut Unsettled<'a>,
) -> Result<bool, Memory>
    ensures { IfOk result (λ same. ComesTo (Simple assigns.now words.now redirects.now ≡ right.now) unsettled.old same unsettled.new) }
{
    let Command::Simple {
        assigns: right_assigns,
        words: right_words,
        redirects: right_redirects,
    } = right
    else {
        return Ok(false);
    };
    unsettled.push(Sides::Assigns(assigns.as_slice(), right_assigns.as_slice()))?;
    unsettled.push(Sides::Arguments(words.as_slice(), right_words.as_slice()))?;
    unsettled.push(Sides::Redirects(redirects.as_slice(), right_redirects.as_slice()))?;
    Ok(true)
}

fn compare_numeric<'a>(
    text: &'a Arith,
    redirects: &'a Items<Redirect<Word>>,
    right: &'a Command,
    unsettled: &mut Unsettled<'a>,
) -> Result<bool, Memory>
    ensures { IfOk result (λ same. ComesTo (command.Arith text.now redirects.now ≡ right.now) unsettled.old same unsettled.new) }
{
    let Command::Arith {
        text: right_text,
        redirects: right_redirects,
    } = right
    else {
        return Ok(false);
    };
    unsettled.push(Sides::Redirects(redirects.as_slice(), right_redirects.as_slice()))?;
    compare_arith(text, right_text, unsettled)
}

fn compare_cond<'a>(
    test: &'a Condition,
    redirects: &'a Items<Redirect<Word>>,
    right: &'a Command,
    unsettled: &mut Unsettled<'a>,
) -> Result<bool, Memory>
    ensures { IfOk result (λ same. ComesTo (Cond test.now redirects.now ≡ right.now) unsettled.old same unsettled.new) }
{
    let Command::Cond {
        test: right_test,
        redirects: right_redirects,
    } = right
    else {
        return Ok(false);
    };
    unsettled.push(Sides::Redirects(redirects.as_slice(), right_redirects.as_slice()))?;
    unsettled.push(Sides::Tests(test.as_slice(), right_test.as_slice()))?;
    Ok(true)
}

fn compare_group<'a>(
    body: &'a List,
    redirects: &'a Items<Redirect<Word>>,
    right: &'a Command,
    unsettled: &mut Unsettled<'a>,
) -> Result<bool, Memory>
    ensures { IfOk result (λ same. ComesTo (Group body.now redirects.now ≡ right.now) unsettled.old same unsettled.new) }
{
    let Command::Group {
        body: right_body,
        redirects: right_redirects,
    } = right
    else {
        return Ok(false);
    };
    unsettled.push(Sides::Redirects(redirects.as_slice(), right_redirects.as_slice()))?;
    unsettled.push(Sides::Items(body.get().as_slice(), right_body.get().as_slice()))?;
    Ok(true)
}

fn compare_child<'a>(
    body: &'a List,
    redirects: &'a Items<Redirect<Word>>,
    right: &'a Command,
    unsettled: &mut Unsettled<'a>,
) -> Result<bool, Memory>
    ensures { IfOk result (λ same. ComesTo (Subshell body.now redirects.now ≡ right.now) unsettled.old same unsettled.new) }
{
    let Command::Subshell {
        body: right_body,
        redirects: right_redirects,
    } = right
    else {
        return Ok(false);
    };
    unsettled.push(Sides::Redirects(redirects.as_slice(), right_redirects.as_slice()))?;
    unsettled.push(Sides::Items(body.get().as_slice(), right_body.get().as_slice()))?;
    Ok(true)
}

fn compare_if<'a>(
    arms: &'a Items<Arm<List>>,
    otherwise: &'a Option<List>,
    redirects: &'a Items<Redirect<Word>>,
    right: &'a Command,
    unsettled: &mut Unsettled<'a>,
) -> Result<bool, Memory>
    ensures { IfOk result (λ same. ComesTo (If arms.now otherwise.now redirects.now ≡ right.now) unsettled.old same unsettled.new) }
{
    let Command::If {
        arms: right_arms,
        otherwise: right_otherwise,
        redirects: right_redirects,
    } = right
    else {
        return Ok(false);
    };
    unsettled.push(Sides::Redirects(redirects.as_slice(), right_redirects.as_slice()))?;
    unsettled.push(Sides::Arms(arms.as_slice(), right_arms.as_slice()))?;
    compare_otherwise(otherwise, right_otherwise, unsettled)
}

fn compare_loop<'a>(
    until: &'a bool,
    test: &'a List,
    body: &'a List,
    redirects: &'a Items<Redirect<Word>>,
    right: &'a Command,
    unsettled: &mut Unsettled<'a>,
) -> Result<bool, Memory>
    ensures { IfOk result (λ same. ComesTo (Loop until.now test.now body.now redirects.now ≡ right.now) unsettled.old same unsettled.new) }
{
    let Command::Loop {
        until: right_until,
        test: right_test,
        body: right_body,
        redirects: right_redirects,
    } = right
    else {
        return Ok(false);
    };
    unsettled.push(Sides::Redirects(redirects.as_slice(), right_redirects.as_slice()))?;
    unsettled.push(Sides::Items(test.get().as_slice(), right_test.get().as_slice()))?;
    unsettled.push(Sides::Items(body.get().as_slice(), right_body.get().as_slice()))?;
    Ok(until == right_until)
}

fn compare_for<'a>(
    name: &'a Name,
    words: &'a Option<Items<Word>>,
    body: &'a List,
    redirects: &'a Items<Redirect<Word>>,
    right: &'a Command,
    unsettled: &mut Unsettled<'a>,
) -> Result<bool, Memory>
    ensures { IfOk result (λ same. ComesTo (For name.now words.now body.now redirects.now ≡ right.now) unsettled.old same unsettled.new) }
{
    let Command::For {
        name: right_name,
        words: right_words,
        body: right_body,
        redirects: right_redirects,
    } = right
    else {
        return Ok(false);
    };
    unsettled.push(Sides::Redirects(redirects.as_slice(), right_redirects.as_slice()))?;
    unsettled.push(Sides::Items(body.get().as_slice(), right_body.get().as_slice()))?;
    if name != right_name {
        return Ok(false);
    }
    compare_in_words(words, right_words, unsettled)
}

fn compare_select<'a>(
    name: &'a Name,
    words: &'a Option<Items<Word>>,
    body: &'a List,
    redirects: &'a Items<Redirect<Word>>,
    right: &'a Command,
    unsettled: &mut Unsettled<'a>,
) -> Result<bool, Memory>
    ensures { IfOk result (λ same. ComesTo (Select name.now words.now body.now redirects.now ≡ right.now) unsettled.old same unsettled.new) }
{
    let Command::Select {
        name: right_name,
        words: right_words,
        body: right_body,
        redirects: right_redirects,
    } = right
    else {
        return Ok(false);
    };
    unsettled.push(Sides::Redirects(redirects.as_slice(), right_redirects.as_slice()))?;
    unsettled.push(Sides::Items(body.get().as_slice(), right_body.get().as_slice()))?;
    if name != right_name {
        return Ok(false);
    }
    compare_in_words(words, right_words, unsettled)
}

fn compare_for_arith<'a>(
    first: &'a Option<Arith>,
    test: &'a Option<Arith>,
    step: &'a Option<Arith>,
    body: &'a List,
    redirects: &'a Items<Redirect<Word>>,
    right: &'a Command,
    unsettled: &mut Unsettled<'a>,
) -> Result<bool, Memory>
    ensures { IfOk result (λ same. ComesTo (ForArith first.now test.now step.now body.now redirects.now ≡ right.now) unsettled.old same unsettled.new) }
{
    let Command::ForArith {
        first: right_first,
        test: right_test,
        step: right_step,
        body: right_body,
        redirects: right_redirects,
    } = right
    else {
        return Ok(false);
    };
    unsettled.push(Sides::Redirects(redirects.as_slice(), right_redirects.as_slice()))?;
    unsettled.push(Sides::Items(body.get().as_slice(), right_body.get().as_slice()))?;
    if !compare_part(first, right_first, unsettled)? {
        return Ok(false);
    }
    if !compare_part(test, right_test, unsettled)? {
        return Ok(false);
    }
    compare_part(step, right_step, unsettled)
}

fn compare_case<'a>(
    word: &'a Word,
    items: &'a Items<CaseItem>,
    redirects: &'a Items<Redirect<Word>>,
    right: &'a Command,
    unsettled: &mut Unsettled<'a>,
) -> Result<bool, Memory>
    ensures { IfOk result (λ same. ComesTo (Case word.now items.now redirects.now ≡ right.now) unsettled.old same unsettled.new) }
{
    let Command::Case {
        word: right_word,
        items: right_items,
        redirects: right_redirects,
    } = right
    else {
        return Ok(false);
    };
    unsettled.push(Sides::Redirects(redirects.as_slice(), right_redirects.as_slice()))?;
    unsettled.push(Sides::Pieces(word.as_slice(), right_word.as_slice()))?;
    unsettled.push(Sides::CaseItems(items.as_slice(), right_items.as_slice()))?;
    Ok(true)
}

fn compare_and_or<'a>(
    first: &'a Boxed<Command>,
    rest: &'a Items<Link<Command>>,
    right: &'a Command,
    unsettled: &mut Unsettled<'a>,
) -> Result<bool, Memory>
    ensures { IfOk result (λ same. ComesTo (AndOr first.now rest.now ≡ right.now) unsettled.old same unsettled.new) }
{
    let Command::AndOr {
        first: right_first,
        rest: right_rest,
    } = right
    else {
        return Ok(false);
    };
    unsettled.push(Sides::Command(first.get(), right_first.get()))?;
    unsettled.push(Sides::Links(rest.as_slice(), right_rest.as_slice()))?;
    Ok(true)
}

fn compare_job<'a>(
    inner: &'a List,
    coprocess: &'a bool,
    right: &'a Command,
    unsettled: &mut Unsettled<'a>,
) -> Result<bool, Memory>
    ensures { IfOk result (λ same. ComesTo (Background inner.now coprocess.now ≡ right.now) unsettled.old same unsettled.new) }
{
    let Command::Background {
        inner: right_inner,
        coprocess: right_coprocess,
    } = right
    else {
        return Ok(false);
    };
    unsettled.push(Sides::Items(inner.get().as_slice(), right_inner.get().as_slice()))?;
    Ok(coprocess == right_coprocess)
}

fn compare_function<'a>(
    definition: &'a Shared<FunctionDef<List>>,
    right: &'a Command,
    unsettled: &mut Unsettled<'a>,
) -> Result<bool, Memory>
    ensures { IfOk result (λ same. ComesTo (Function definition.now ≡ right.now) unsettled.old same unsettled.new) }
{
    let Command::Function {
        definition: right_definition,
    } = right
    else {
        return Ok(false);
    };
    compare_definition(definition.get(), right_definition.get(), unsettled)
}

fn compare_pipeline<'a>(
    members: &'a Items<List>,
    right: &'a Command,
    unsettled: &mut Unsettled<'a>,
) -> Result<bool, Memory>
    ensures { IfOk result (λ same. ComesTo (Pipeline members.now ≡ right.now) unsettled.old same unsettled.new) }
{
    let Command::Pipeline {
        members: right_members,
    } = right
    else {
        return Ok(false);
    };
    unsettled.push(Sides::Lists(members.as_slice(), right_members.as_slice()))?;
    Ok(true)
}

fn compare_not<'a>(
    inner: &'a Boxed<Command>,
    right: &'a Command,
    unsettled: &mut Unsettled<'a>,
) -> Result<bool, Memory>
    ensures { IfOk result (λ same. ComesTo (Not inner.now ≡ right.now) unsettled.old same unsettled.new) }
{
    let Command::Not { inner: right_inner } = right else {
        return Ok(false);
    };
    unsettled.push(Sides::Command(inner.get(), right_inner.get()))?;
    Ok(true)
}

pub fn compare_command<'a>(
    left: &'a Command,
    right: &'a Command,
    unsettled: &mut Unsettled<'a>,
) -> Result<bool, Memory>
    ensures { IfOk result (λ same. ComesTo (left.now ≡ right.now) unsettled.old same unsettled.new) }
{
    match left {
        Command::Simple {
            assigns,
            words,
            redirects,
        } => compare_simple(assigns, words, redirects, right, unsettled),
        Command::Arith { text, redirects } => compare_numeric(text, redirects, right, unsettled),
        Command::Cond { test, redirects } => compare_cond(test, redirects, right, unsettled),
        Command::Group { body, redirects } => compare_group(body, redirects, right, unsettled),
        Command::Subshell { body, redirects } => compare_child(body, redirects, right, unsettled),
        Command::If {
            arms,
            otherwise,
            redirects,
        } => compare_if(arms, otherwise, redirects, right, unsettled),
        Command::Case {
            word,
            items,
            redirects,
        } => compare_case(word, items, redirects, right, unsettled),
        Command::AndOr { first, rest } => compare_and_or(first, rest, right, unsettled),
        Command::Background { inner, coprocess } => compare_job(inner, coprocess, right, unsettled),
        Command::Function { definition } => compare_function(definition, right, unsettled),
        Command::Pipeline { members } => compare_pipeline(members, right, unsettled),
        Command::Not { inner } => compare_not(inner, right, unsettled),
        _ => compare_loops(left, right, unsettled),
    }
}

/// Looks at a loop on the left; any other form stays unsettled.
fn compare_loops<'a>(
    left: &'a Command,
    right: &'a Command,
    unsettled: &mut Unsettled<'a>,
) -> Result<bool, Memory>
    ensures { IfOk result (λ same. ComesTo (left.now ≡ right.now) unsettled.old same unsettled.new) }
{
    match left {
        Command::Loop {
            until,
            test,
            body,
            redirects,
        } => compare_loop(until, test, body, redirects, right, unsettled),
        Command::For {
            name,
            words,
            body,
            redirects,
        } => compare_for(name, words, body, redirects, right, unsettled),
        Command::ForArith {
            first,
            test,
            step,
            body,
            redirects,
        } => compare_for_arith(first, test, step, body, redirects, right, unsettled),
        Command::Select {
            name,
            words,
            body,
            redirects,
        } => compare_select(name, words, body, redirects, right, unsettled),
        _ => {
            unsettled.push(Sides::Command(left, right))?;
            Ok(true)
        }
    }
}
