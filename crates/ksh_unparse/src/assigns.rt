//! Assignments, the words of a command, and redirections.
ghost use Rattle.std.specs.Prelude.{◌≡◌, OnOk, codes, map};
ghost use Rattle.ksh_unparse.specs.Commands.{arguments_between, arguments_put, blank, equals, form_put, function_put, is_branch_bytes, is_loop_bytes, is_other_bytes, is_reserved_bytes, names_behind, names_put, pair_put, pairs_behind, pairs_put, redirect_put, redirects_put, to_put, words_behind, words_between};
ghost use Rattle.ksh_unparse.specs.Marks.{alone, behind, behind_lines, between, lines, say};
ghost use Rattle.ksh_unparse.specs.Stack.{function_puts, list_puts, pair_spots, redirect_spots, to_write, word_spots};
ghost use Rattle.ksh_unparse.specs.Tree.{argument_put, assign_put, item_put, member_put, value_put};
ghost use Rattle.ksh_unparse.specs.Words.{word_put};

use crate::left::{Left, Task};
use crate::words::put_path;
use ksh_ast::{
    Argument, Assign, AssignValue, FunctionDef, Item, List, Member, Pair, Piece, Redirect,
    RedirectForm, RedirectTo, Word,
};
use ksh_base::{Memory, Name};

/// Commands, each on its line.
pub fn put_list<'a>(list: &'a [Item], left: &mut Left<'a>) -> Result<(), Memory>
    ensures { OnOk result (to_write left.new.tasks ≡ lines (list_puts list.now) (to_write left.old.tasks)) }
{
    let Some((item, rest)) = list.split_first() else {
        return Ok(());
    };
    left.push(Task::List(rest))?;
    left.push(Task::Line)?;
    put_item(item, left)
}

/// Commands, each behind a newline.
pub fn put_behind_lines<'a>(list: &'a [Item], left: &mut Left<'a>) -> Result<(), Memory>
    ensures { OnOk result (to_write left.new.tasks ≡ behind_lines (list_puts list.now) (to_write left.old.tasks)) }
{
    let Some((item, rest)) = list.split_first() else {
        return Ok(());
    };
    left.push(Task::BehindLines(rest))?;
    put_item(item, left)?;
    left.push(Task::Line)
}

/// The command of a list of one.
pub fn put_alone<'a>(list: &'a [Item], left: &mut Left<'a>) -> Result<(), Memory>
    ensures { OnOk result (to_write left.new.tasks ≡ alone (list_puts list.now) (to_write left.old.tasks)) }
{
    let Some((item, rest)) = list.split_first() else {
        return Ok(());
    };
    left.push(Task::BehindLines(rest))?;
    put_item(item, left)
}

#[tactic(auto, unfolding(crate::specs::Tree::item_put, crate::specs::Tree::command_put))]
fn put_item<'a>(item: &'a Item, left: &mut Left<'a>) -> Result<(), Memory>
    ensures { OnOk result (to_write left.new.tasks ≡ item_put item.now (to_write left.old.tasks)) }
{
    left.push(Task::Command(&item.command))
}

/// Words, each behind these bytes.
pub fn put_words<'a>(bytes: &'a [u8], words: &'a [Word], left: &mut Left<'a>) -> Result<(), Memory>
    ensures { OnOk result (to_write left.new.tasks ≡ words_behind bytes.now (map word_spots words.now) (to_write left.old.tasks)) }
{
    let Some((word, rest)) = words.split_first() else {
        return Ok(());
    };
    left.push(Task::Words(bytes, rest))?;
    left.push(Task::Word(word.as_slice()))?;
    left.push(Task::Bytes(bytes))
}

/// Words, these bytes between them.
pub fn put_words_between<'a>(
    bytes: &'a [u8],
    words: &'a [Word],
    left: &mut Left<'a>,
) -> Result<(), Memory>
    ensures { OnOk result (to_write left.new.tasks ≡ words_between bytes.now (map word_spots words.now) (to_write left.old.tasks)) }
{
    let Some((word, rest)) = words.split_first() else {
        return Ok(());
    };
    left.push(Task::Words(bytes, rest))?;
    left.push(Task::Word(word.as_slice()))
}

/// The words of a command, each behind a blank.
pub fn put_arguments<'a>(arguments: &'a [Argument], left: &mut Left<'a>) -> Result<(), Memory>
    ensures { OnOk result (to_write left.new.tasks ≡ arguments_put (map argument_put arguments.now) (to_write left.old.tasks)) }
{
    let Some((argument, rest)) = arguments.split_first() else {
        return Ok(());
    };
    left.push(Task::Arguments(rest))?;
    put_argument(argument, left)?;
    left.push(Task::Bytes(b" "))
}

/// The words of a declaration, `typeset` the first.
fn put_arguments_between<'a>(arguments: &'a [Argument], left: &mut Left<'a>) -> Result<(), Memory>
    ensures { OnOk result (to_write left.new.tasks ≡ arguments_between (map argument_put arguments.now) (to_write left.old.tasks)) }
{
    let Some((argument, rest)) = arguments.split_first() else {
        return Ok(());
    };
    left.push(Task::Arguments(rest))?;
    put_argument(argument, left)
}

/// A word of a command.
#[tactic(auto, unfolding(crate::specs::Tree::argument_put, crate::specs::Tree::assign_put, crate::specs::Tree::piece_spot))]
pub fn put_argument<'a>(argument: &'a Argument, left: &mut Left<'a>) -> Result<(), Memory>
    ensures { OnOk result (to_write left.new.tasks ≡ (argument_put argument.now).put (to_write left.old.tasks)) }
{
    match argument {
        Argument::Word(word) => left.push(Task::Word(word.as_slice())),
        Argument::Assign(assign) => left.push(Task::Assign(assign)),
    }
}

/// Assignments, each behind a blank.
pub fn put_assigns<'a>(assigns: &'a [Assign], left: &mut Left<'a>) -> Result<(), Memory>
    ensures { OnOk result (to_write left.new.tasks ≡ behind (codes " ") (map assign_put assigns.now) (to_write left.old.tasks)) }
{
    let Some((assign, rest)) = assigns.split_first() else {
        return Ok(());
    };
    left.push(Task::Assigns(rest))?;
    put_assign(assign, left)?;
    left.push(Task::Bytes(b" "))
}

/// An assignment.
#[tactic(auto, unfolding(crate::specs::Tree::assign_put, crate::specs::Tree::value_put, crate::specs::Tree::path_put))]
pub fn put_assign<'a>(assign: &'a Assign, left: &mut Left<'a>) -> Result<(), Memory>
    ensures { OnOk result (to_write left.new.tasks ≡ assign_put assign.now (to_write left.old.tasks)) }
{
    put_value(&assign.value, left)?;
    left.push(Task::Bytes(equals(assign.append)))?;
    put_path(&assign.path, left)
}

fn equals<'a>(append: bool) -> &'a [u8]
    ensures { result.now ≡ equals append }
{
    if append { b"+=" } else { b"=" }
}

#[tactic(auto, unfolding(crate::specs::Tree::value_put, crate::specs::Tree::member_put, crate::specs::Tree::piece_spot))]
fn put_value<'a>(value: &'a AssignValue, left: &mut Left<'a>) -> Result<(), Memory>
    ensures { OnOk result (to_write left.new.tasks ≡ value_put value.now (to_write left.old.tasks)) }
{
    match value {
        AssignValue::Word(word) => left.push(Task::Word(word.as_slice())),
        AssignValue::Words(words) => {
            left.push(Task::Bytes(b")"))?;
            put_words_between(b" ", words.as_slice(), left)?;
            left.push(Task::Bytes(b"("))
        }
        AssignValue::Pairs(pairs) => {
            left.push(Task::Bytes(b")"))?;
            put_pairs_between(pairs.as_slice(), left)?;
            left.push(Task::Bytes(b"("))
        }
        AssignValue::Members(members) => {
            left.push(Task::Bytes(b")"))?;
            put_members_between(members.as_slice(), left)?;
            left.push(Task::Bytes(b"("))
        }
    }
}

/// Pairs, each behind a blank.
pub fn put_pairs<'a>(pairs: &'a [Pair<Word>], left: &mut Left<'a>) -> Result<(), Memory>
    ensures { OnOk result (to_write left.new.tasks ≡ pairs_behind (map pair_spots pairs.now) (to_write left.old.tasks)) }
{
    let Some((pair, rest)) = pairs.split_first() else {
        return Ok(());
    };
    left.push(Task::Pairs(rest))?;
    put_pair(pair, left)?;
    left.push(Task::Bytes(b" "))
}

fn put_pairs_between<'a>(pairs: &'a [Pair<Word>], left: &mut Left<'a>) -> Result<(), Memory>
    ensures { OnOk result (to_write left.new.tasks ≡ pairs_put (map pair_spots pairs.now) (to_write left.old.tasks)) }
{
    let Some((pair, rest)) = pairs.split_first() else {
        return Ok(());
    };
    left.push(Task::Pairs(rest))?;
    put_pair(pair, left)
}

fn put_pair<'a>(pair: &'a Pair<Word>, left: &mut Left<'a>) -> Result<(), Memory>
    ensures { OnOk result (to_write left.new.tasks ≡ pair_put (pair_spots pair.now) (to_write left.old.tasks)) }
{
    left.push(Task::Word(pair.value.as_slice()))?;
    left.push(Task::Bytes(b"]="))?;
    left.push(Task::Word(pair.subscript.as_slice()))?;
    left.push(Task::Bytes(b"["))
}

/// Members, each behind `; `.
pub fn put_members<'a>(members: &'a [Member], left: &mut Left<'a>) -> Result<(), Memory>
    ensures { OnOk result (to_write left.new.tasks ≡ behind (codes "; ") (map member_put members.now) (to_write left.old.tasks)) }
{
    let Some((member, rest)) = members.split_first() else {
        return Ok(());
    };
    left.push(Task::Members(rest))?;
    put_member(member, left)?;
    left.push(Task::Bytes(b"; "))
}

fn put_members_between<'a>(members: &'a [Member], left: &mut Left<'a>) -> Result<(), Memory>
    ensures { OnOk result (to_write left.new.tasks ≡ between (codes "; ") (map member_put members.now) (to_write left.old.tasks)) }
{
    let Some((member, rest)) = members.split_first() else {
        return Ok(());
    };
    left.push(Task::Members(rest))?;
    put_member(member, left)
}

#[tactic(auto, unfolding(crate::specs::Tree::member_put, crate::specs::Tree::assign_put, crate::specs::Tree::argument_put, crate::specs::Tree::item_put))]
fn put_member<'a>(member: &'a Member, left: &mut Left<'a>) -> Result<(), Memory>
    ensures { OnOk result (to_write left.new.tasks ≡ member_put member.now (to_write left.old.tasks)) }
{
    match member {
        Member::Assign(assign) => left.push(Task::Assign(assign)),
        Member::Declare(arguments) => put_arguments_between(arguments.as_slice(), left),
        Member::Function(definition) => put_function(definition.get(), left),
    }
}

/// The definition of a function.
pub fn put_function<'a>(
    definition: &'a FunctionDef<List>,
    left: &mut Left<'a>,
) -> Result<(), Memory>
    ensures { OnOk result (to_write left.new.tasks ≡ function_put (function_puts definition.now) (to_write left.old.tasks)) }
{
    put_alone(definition.body.get().as_slice(), left)?;
    if definition.own_scope {
        left.push(Task::Bytes(b" "))?;
        put_names_between(definition.name.as_slice(), left)?;
        left.push(Task::Bytes(b"function "))
    } else {
        left.push(Task::Bytes(b"() "))?;
        put_names_between(definition.name.as_slice(), left)
    }
}

/// Names, each behind a dot.
pub fn put_names<'a>(names: &'a [Name], left: &mut Left<'a>) -> Result<(), Memory>
    ensures { OnOk result (to_write left.new.tasks ≡ names_behind names.now (to_write left.old.tasks)) }
{
    let Some((name, rest)) = names.split_first() else {
        return Ok(());
    };
    left.push(Task::Names(rest))?;
    left.push(Task::Bytes(name.text().bytes()))?;
    left.push(Task::Bytes(b"."))
}

fn put_names_between<'a>(names: &'a [Name], left: &mut Left<'a>) -> Result<(), Memory>
    ensures { OnOk result (to_write left.new.tasks ≡ names_put names.now (to_write left.old.tasks)) }
{
    let Some((name, rest)) = names.split_first() else {
        return Ok(());
    };
    left.push(Task::Names(rest))?;
    left.push(Task::Bytes(name.text().bytes()))
}

/// Redirections, each behind a blank.
pub fn put_redirects<'a>(redirects: &'a [Redirect<Word>], left: &mut Left<'a>) -> Result<(), Memory>
    ensures { OnOk result (to_write left.new.tasks ≡ redirects_put (map redirect_spots redirects.now) (to_write left.old.tasks)) }
{
    let Some((redirect, rest)) = redirects.split_first() else {
        return Ok(());
    };
    left.push(Task::Redirects(rest))?;
    put_redirect(redirect, left)?;
    left.push(Task::Bytes(b" "))
}

/// A redirection.
pub fn put_redirect<'a>(redirect: &'a Redirect<Word>, left: &mut Left<'a>) -> Result<(), Memory>
    ensures { OnOk result (to_write left.new.tasks ≡ redirect_put (redirect_spots redirect.now) (to_write left.old.tasks)) }
{
    put_form(&redirect.form, redirect.word.as_slice(), left)?;
    put_to(&redirect.to, left)
}

fn put_form<'a>(
    form: &'a RedirectForm,
    word: &'a [Piece],
    left: &mut Left<'a>,
) -> Result<(), Memory>
    ensures { OnOk result (to_write left.new.tasks ≡ form_put form.now (word_spots word.now) (to_write left.old.tasks)) }
{
    match form {
        RedirectForm::Read => put_operator(b"<", word, left),
        RedirectForm::Write => put_operator(b">", word, left),
        RedirectForm::Clobber => put_operator(b">|", word, left),
        RedirectForm::Append => put_operator(b">>", word, left),
        RedirectForm::ReadWrite => put_operator(b"<>", word, left),
        RedirectForm::DupInput => put_operator(b"<&", word, left),
        RedirectForm::DupOutput => put_operator(b">&", word, left),
        RedirectForm::HereString => put_operator(b"<<<", word, left),
        RedirectForm::HereDoc { end: _ } => {
            left.push(Task::Close)?;
            left.push(Task::Body(word))?;
            left.push(Task::Open)
        }
    }
}

fn put_operator<'a>(
    operator: &'a [u8],
    word: &'a [Piece],
    left: &mut Left<'a>,
) -> Result<(), Memory>
    ensures { OnOk result (to_write left.new.tasks ≡ say operator.now (word_put (word_spots word.now) (to_write left.old.tasks))) }
{
    left.push(Task::Word(word))?;
    left.push(Task::Bytes(operator))
}

fn put_to<'a>(to: &'a RedirectTo, left: &mut Left<'a>) -> Result<(), Memory>
    ensures { OnOk result (to_write left.new.tasks ≡ to_put to.now (to_write left.old.tasks)) }
{
    match to {
        RedirectTo::Usual => Ok(()),
        RedirectTo::Digit(digit) => left.push(Task::Number(u64::from(digit.number()))),
        RedirectTo::Var(name) => {
            left.push(Task::Bytes(b"}"))?;
            left.push(Task::Bytes(name.text().bytes()))?;
            left.push(Task::Bytes(b"{"))
        }
    }
}

/// Whether the word is a reserved word without quotes.
#[tactic(auto, unfolding(crate::specs::Tree::argument_put, crate::specs::Tree::piece_spot))]
pub fn is_reserved(argument: &Argument) -> bool
    ensures { result ≡ (argument_put argument.now).reserved }
{
    let Argument::Word(word) = argument else {
        return false;
    };
    match word.as_slice() {
        [
            Piece::Literal {
                text,
                quoted: false,
            },
        ] => is_reserved_word(text.bytes()),
        _ => false,
    }
}

fn is_reserved_word(word: &[u8]) -> bool
    ensures { result ≡ is_reserved_bytes word.now }
{
    is_branch_word(word) || (is_loop_word(word) || is_other_word(word))
}

fn is_branch_word(word: &[u8]) -> bool
    ensures { result ≡ is_branch_bytes word.now }
{
    word == b"if".as_slice()
        || word == b"then".as_slice()
        || word == b"else".as_slice()
        || word == b"elif".as_slice()
        || word == b"fi".as_slice()
        || word == b"case".as_slice()
        || word == b"esac".as_slice()
}

fn is_loop_word(word: &[u8]) -> bool
    ensures { result ≡ is_loop_bytes word.now }
{
    word == b"for".as_slice()
        || word == b"while".as_slice()
        || word == b"until".as_slice()
        || word == b"select".as_slice()
        || word == b"do".as_slice()
        || word == b"done".as_slice()
}

fn is_other_word(word: &[u8]) -> bool
    ensures { result ≡ is_other_bytes word.now }
{
    word == b"{".as_slice()
        || word == b"}".as_slice()
        || word == b"[[".as_slice()
        || word == b"!".as_slice()
        || word == b"time".as_slice()
        || word == b"function".as_slice()
        || word == b"namespace".as_slice()
}
