//! Whether two forms of a parameter are equal, one level at a time.
ghost use Rattle.std.specs.Prelude.{◌≡◌, IfOk};
ghost use Rattle.ast_equal.specs.Equal.{ComesTo};
ghost use Rattle.ksh_ast.specs.declared.tree.ParamForm.TheVariants.{Instead, Assign, Fault, Other, Cut, Slice, Replace};

use crate::unsettled::{Sides, Unsettled};
use ksh_ast::{ParamForm, Replaced, Word};
use ksh_base::Memory;

pub fn compare_form<'a>(
    left: &'a ParamForm,
    right: &'a ParamForm,
    unsettled: &mut Unsettled<'a>,
) -> Result<bool, Memory>
    ensures { IfOk result (λ same. ComesTo (left.now ≡ right.now) unsettled.old same unsettled.new) }
{
    match left {
        ParamForm::Plain => Ok(matches!(right, ParamForm::Plain)),
        ParamForm::Length => Ok(matches!(right, ParamForm::Length)),
        ParamForm::Target => Ok(matches!(right, ParamForm::Target)),
        ParamForm::Instead { colon, word } => compare_instead(colon, word, right, unsettled),
        ParamForm::Assign { colon, word } => compare_assign(colon, word, right, unsettled),
        ParamForm::Fault { colon, word } => compare_fault(colon, word, right, unsettled),
        ParamForm::Other { colon, word } => compare_other(colon, word, right, unsettled),
        ParamForm::Cut {
            tail,
            longest,
            pattern,
        } => compare_cut(tail, longest, pattern, right, unsettled),
        ParamForm::Slice { from, count } => compare_slice(from, count, right, unsettled),
        ParamForm::Replace {
            which,
            pattern,
            with,
        } => compare_replace(which, pattern, with, right, unsettled),
    }
}

fn compare_instead<'a>(
    colon: &'a bool,
    word: &'a Word,
    right: &'a ParamForm,
    unsettled: &mut Unsettled<'a>,
) -> Result<bool, Memory>
    ensures { IfOk result (λ same. ComesTo (Instead colon.now word.now ≡ right.now) unsettled.old same unsettled.new) }
{
    let ParamForm::Instead {
        colon: right_colon,
        word: right_word,
    } = right
    else {
        return Ok(false);
    };
    unsettled.push(Sides::Pieces(word.as_slice(), right_word.as_slice()))?;
    Ok(colon == right_colon)
}

fn compare_assign<'a>(
    colon: &'a bool,
    word: &'a Word,
    right: &'a ParamForm,
    unsettled: &mut Unsettled<'a>,
) -> Result<bool, Memory>
    ensures { IfOk result (λ same. ComesTo (Assign colon.now word.now ≡ right.now) unsettled.old same unsettled.new) }
{
    let ParamForm::Assign {
        colon: right_colon,
        word: right_word,
    } = right
    else {
        return Ok(false);
    };
    unsettled.push(Sides::Pieces(word.as_slice(), right_word.as_slice()))?;
    Ok(colon == right_colon)
}

fn compare_fault<'a>(
    colon: &'a bool,
    word: &'a Word,
    right: &'a ParamForm,
    unsettled: &mut Unsettled<'a>,
) -> Result<bool, Memory>
    ensures { IfOk result (λ same. ComesTo (Fault colon.now word.now ≡ right.now) unsettled.old same unsettled.new) }
{
    let ParamForm::Fault {
        colon: right_colon,
        word: right_word,
    } = right
    else {
        return Ok(false);
    };
    unsettled.push(Sides::Pieces(word.as_slice(), right_word.as_slice()))?;
    Ok(colon == right_colon)
}

fn compare_other<'a>(
    colon: &'a bool,
    word: &'a Word,
    right: &'a ParamForm,
    unsettled: &mut Unsettled<'a>,
) -> Result<bool, Memory>
    ensures { IfOk result (λ same. ComesTo (Other colon.now word.now ≡ right.now) unsettled.old same unsettled.new) }
{
    let ParamForm::Other {
        colon: right_colon,
        word: right_word,
    } = right
    else {
        return Ok(false);
    };
    unsettled.push(Sides::Pieces(word.as_slice(), right_word.as_slice()))?;
    Ok(colon == right_colon)
}

fn compare_cut<'a>(
    tail: &'a bool,
    longest: &'a bool,
    pattern: &'a Word,
    right: &'a ParamForm,
    unsettled: &mut Unsettled<'a>,
) -> Result<bool, Memory>
    ensures { IfOk result (λ same. ComesTo (Cut tail.now longest.now pattern.now ≡ right.now) unsettled.old same unsettled.new) }
{
    let ParamForm::Cut {
        tail: right_tail,
        longest: right_longest,
        pattern: right_pattern,
    } = right
    else {
        return Ok(false);
    };
    unsettled.push(Sides::Pieces(pattern.as_slice(), right_pattern.as_slice()))?;
    Ok(tail == right_tail && longest == right_longest)
}

fn compare_slice<'a>(
    from: &'a Word,
    count: &'a Option<Word>,
    right: &'a ParamForm,
    unsettled: &mut Unsettled<'a>,
) -> Result<bool, Memory>
    ensures { IfOk result (λ same. ComesTo (Slice from.now count.now ≡ right.now) unsettled.old same unsettled.new) }
{
    let ParamForm::Slice {
        from: right_from,
        count: right_count,
    } = right
    else {
        return Ok(false);
    };
    unsettled.push(Sides::Pieces(from.as_slice(), right_from.as_slice()))?;
    compare_count(count, right_count, unsettled)
}

fn compare_replace<'a>(
    which: &'a Replaced,
    pattern: &'a Word,
    with: &'a Word,
    right: &'a ParamForm,
    unsettled: &mut Unsettled<'a>,
) -> Result<bool, Memory>
    ensures { IfOk result (λ same. ComesTo (Replace which.now pattern.now with.now ≡ right.now) unsettled.old same unsettled.new) }
{
    let ParamForm::Replace {
        which: right_which,
        pattern: right_pattern,
        with: right_with,
    } = right
    else {
        return Ok(false);
    };
    unsettled.push(Sides::Pieces(pattern.as_slice(), right_pattern.as_slice()))?;
    unsettled.push(Sides::Pieces(with.as_slice(), right_with.as_slice()))?;
    Ok(*which == *right_which)
}

fn compare_count<'a>(
    left: &'a Option<Word>,
    right: &'a Option<Word>,
    unsettled: &mut Unsettled<'a>,
) -> Result<bool, Memory>
    ensures { IfOk result (λ same. ComesTo (left.now ≡ right.now) unsettled.old same unsettled.new) }
{
    match left {
        Some(left) => match right {
            Some(right) => {
                unsettled.push(Sides::Pieces(left.as_slice(), right.as_slice()))?;
                Ok(true)
            },
            _ => Ok(false),
        },
        None => match right {
            None => Ok(true),
            _ => Ok(false),
        },
    }
}
