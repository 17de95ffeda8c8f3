// Times the tokens of a text.

use anyhow::Result;
use ksh_base::{Memory, Text};
use ksh_lexer::{
    BraceEnd, Form, HereDocument, LexMode, Lexer, Operator, Redirection, SyntaxFault, Token,
    TokenKind,
};
use std::alloc::{AllocGlobal, Global};
use std::io::Print;
use std::time::{Clock, Instant};

// How much may be open at one place.
const MOST_OPEN: usize = 1_000;

// What came of a text.
#[derive(Clone, Copy, Debug, PartialEq, Eq)]
enum End {
    Whole,
    Unclosed,
    TooDeep,
    Fault(SyntaxFault),
}

// What ends the tokens of a mode.
#[derive(Clone, Copy, Debug, PartialEq, Eq)]
enum Closer {
    Text,
    Parenthesis,
    Backquote,
    Piece,
}

#[derive(Clone, Copy, Debug, PartialEq, Eq)]
struct Open {
    mode: LexMode,
    closer: Closer,
}

// A text or a body that is being read.
#[derive(Drop)]
struct Level<'a> {
    text: &'a [u8],
    lexer: Lexer<'a>,
    here: Option<(u32, bool)>,
    word: Text,
    bodies: bool,
}

// What is left to do after a token.
#[derive(Clone, Copy, Debug, PartialEq, Eq)]
enum Progress {
    Next,
    Done(End),
}

pub(crate) fn run(rt: &(impl Print + AllocGlobal + Clock), text: &[u8]) -> Result<()> {
    let start = Instant::now(rt)?;
    let (tokens, end) = lex(rt.alloc(), text)?;
    let micros = start.elapsed(rt)?.as_micros();
    println!(rt; "{} {micros} {tokens} {end:?}", text.len())?;
    Ok(())
}

// How many tokens come, and how they end.
fn lex(alloc: Global, text: &[u8]) -> Result<(u64, End), Memory> {
    let mut tokens = 0u64;
    let lexer = match Lexer::new(alloc, text) {
        Ok(lexer) => lexer,
        Err(fault) => return Ok((0, End::Fault(fault))),
    };
    let mut levels = Vec::new(alloc);
    levels.push(begin_level(alloc, text, lexer))?;
    // What is open in all of them, the innermost last.
    let mut open = Vec::new(alloc);
    push(&mut open, LexMode::Command, Closer::Text)?;
    for _ in 0..u64::MAX {
        let Some(top) = levels.last_mut() else {
            break;
        };
        if top.bodies {
            match top.lexer.take_body() {
                Ok(Some(body)) => {
                    let inside = top.lexer.inside(alloc, body);
                    let mode = LexMode::HereBody {
                        tabs: body.tabs,
                        expands: body.expands,
                    };
                    let next = begin_level(alloc, top.text, inside);
                    levels.push(next)?;
                    push(&mut open, mode, Closer::Text)?;
                }
                Ok(None) => top.bodies = false,
                Err(fault) => return Ok((tokens, End::Fault(fault))),
            }
            continue;
        }
        tokens = tokens.saturating_add(1);
        match take_token(alloc, top, &mut open)? {
            Progress::Next => {}
            Progress::Done(End::Whole) => {
                let _read = levels.pop();
                pop(&mut open);
            }
            Progress::Done(end) => return Ok((tokens, end)),
        }
    }
    Ok((tokens, End::Whole))
}

fn begin_level<'a>(alloc: Global, text: &'a [u8], lexer: Lexer<'a>) -> Level<'a> {
    Level {
        text,
        lexer,
        here: None,
        word: Text::empty(alloc),
        bodies: false,
    }
}

// Takes a token.
fn take_token(alloc: Global, level: &mut Level, open: &mut Vec<Open>) -> Result<Progress, Memory> {
    let Some(top) = open.last() else {
        return Ok(Progress::Done(End::Whole));
    };
    let top = *top;
    if open.len() > MOST_OPEN {
        return Ok(Progress::Done(End::TooDeep));
    }
    let token = match level.lexer.next(top.mode) {
        Ok(token) => token,
        Err(fault) => return Ok(Progress::Done(End::Fault(fault))),
    };
    match top.mode {
        LexMode::Command | LexMode::Argument => between(alloc, level, open, top, token),
        _ => inside(alloc, level, open, top, token),
    }
}

// A token between words.
fn between(
    alloc: Global,
    level: &mut Level,
    open: &mut Vec<Open>,
    top: Open,
    token: Token,
) -> Result<Progress, Memory> {
    match token.kind {
        TokenKind::End => return Ok(Progress::Done(at_end(top))),
        TokenKind::Newline => level.bodies = true,
        TokenKind::Bare => {
            if let Some((operator, tabs)) = level.here.take() {
                let word = Text::of(alloc, bytes_of(level.text, token))?;
                await_body(level, operator, tabs, word)?;
            }
        }
        TokenKind::Start => push(open, LexMode::Word, Closer::Piece)?,
        TokenKind::Element | TokenKind::Key => push(open, LexMode::Target, Closer::Piece)?,
        TokenKind::Redirect(Redirection::HereDocument, _) => {
            level.here = Some((place(token), false));
        }
        TokenKind::Redirect(Redirection::HereTabs, _) => {
            level.here = Some((place(token), true));
        }
        TokenKind::Operator(Operator::OpenParenthesis) => {
            push(open, LexMode::Command, Closer::Parenthesis)?;
        }
        TokenKind::Operator(Operator::DoubleParenthesis) => {
            push(open, LexMode::Arithmetic, Closer::Piece)?;
        }
        TokenKind::Operator(Operator::CloseParenthesis) => {
            if top.closer == Closer::Parenthesis {
                pop(open);
            }
        }
        TokenKind::Backquote => {
            if !closes_backquote(open) {
                push(open, LexMode::Word, Closer::Piece)?;
                push(open, LexMode::Command, Closer::Backquote)?;
            }
        }
        _ => {}
    }
    Ok(Progress::Next)
}

// The bytes of a token; none where it lies elsewhere.
fn bytes_of(text: &[u8], token: Token) -> &[u8] {
    text.get(token.from..token.to).unwrap_or(&text[..0])
}

// The bytes for which a token without an expansion stands.
fn unquoted(text: &[u8], token: Token) -> &[u8] {
    let bytes = bytes_of(text, token);
    match (token.kind, bytes) {
        (TokenKind::Escaped, [_, quoted @ ..]) => quoted,
        (TokenKind::Single, [_, quoted @ .., _]) => quoted,
        _ => bytes,
    }
}

fn place(token: Token) -> u32 {
    u32::try_from(token.from).unwrap_or(u32::MAX)
}

fn await_body(level: &mut Level, operator: u32, tabs: bool, word: Text) -> Result<(), Memory> {
    level.lexer.await_body(HereDocument {
        operator,
        word,
        tabs,
        expands: true,
    })
}

fn at_end(top: Open) -> End {
    if top.closer == Closer::Text {
        End::Whole
    } else {
        End::Unclosed
    }
}

fn push(open: &mut Vec<Open>, mode: LexMode, closer: Closer) -> Result<(), Memory> {
    open.push(Open { mode, closer })?;
    Ok(())
}

fn pop(open: &mut Vec<Open>) {
    let _closed = open.pop();
}

// A token inside a word, a body, a parameter or an arithmetic text.
fn inside(
    alloc: Global,
    level: &mut Level,
    open: &mut Vec<Open>,
    top: Open,
    token: Token,
) -> Result<Progress, Memory> {
    match token.kind {
        TokenKind::End => return Ok(Progress::Done(at_end(top))),
        TokenKind::WordEnd => end_word(alloc, level, open)?,
        TokenKind::CloseQuote | TokenKind::Close => pop(open),
        TokenKind::OpenQuote => {
            let opening = place(token);
            push(open, LexMode::Quoted { opening }, Closer::Piece)?;
        }
        TokenKind::OpenParameter => push(open, LexMode::Parameter, Closer::Piece)?,
        TokenKind::OpenSubstitution => push(open, LexMode::Command, Closer::Parenthesis)?,
        TokenKind::OpenArithmetic => push(open, LexMode::Arithmetic, Closer::Piece)?,
        TokenKind::Backquote => {
            if !closes_backquote(open) {
                push(open, LexMode::Command, Closer::Backquote)?;
            }
        }
        TokenKind::Open => push(open, opened(top.mode), Closer::Piece)?,
        TokenKind::Plain | TokenKind::Single | TokenKind::Escaped => {
            if level.here.is_some() {
                level.word.append(unquoted(level.text, token))?;
            }
        }
        TokenKind::Name | TokenKind::Digits | TokenKind::Special => replace(open, LexMode::Form)?,
        TokenKind::Form(form) => replace(open, LexMode::Braced(brace_end(form)))?,
        TokenKind::Separator => replace(open, parted(top.mode))?,
        TokenKind::Assign | TokenKind::AddAssign | TokenKind::Otherwise => {
            replace(open, LexMode::Word)?;
        }
        _ => {}
    }
    Ok(Progress::Next)
}

// Closes the innermost substitution by backquotes, if one is open.
fn closes_backquote(open: &mut Vec<Open>) -> bool {
    let mut innermost = None;
    for (place, opening) in open.iter().enumerate() {
        match opening.closer {
            Closer::Backquote => innermost = Some(place),
            Closer::Text => innermost = None,
            _ => {}
        }
    }
    if let Some(place) = innermost {
        open.truncate(place);
    }
    innermost.is_some()
}

fn end_word(alloc: Global, level: &mut Level, open: &mut Vec<Open>) -> Result<(), Memory> {
    if let Some((operator, tabs)) = level.here.take() {
        let word = level.word.copy(alloc)?;
        level.word = Text::empty(alloc);
        await_body(level, operator, tabs, word)?;
    }
    pop(open);
    Ok(())
}

fn replace(open: &mut Vec<Open>, mode: LexMode) -> Result<(), Memory> {
    pop(open);
    push(open, mode, Closer::Piece)
}

// The mode in which a `(` or a `[` is opened.
fn opened(mode: LexMode) -> LexMode {
    match mode {
        LexMode::Word | LexMode::Group => LexMode::Group,
        LexMode::Arithmetic | LexMode::LoopArithmetic | LexMode::Parentheses => {
            LexMode::Parentheses
        }
        _ => LexMode::Subscript,
    }
}

fn brace_end(form: Form) -> BraceEnd {
    match form {
        Form::Slice => BraceEnd::Colon,
        Form::ReplaceFirst | Form::ReplaceAll | Form::ReplaceFront | Form::ReplaceTail => {
            BraceEnd::Slash
        }
        _ => BraceEnd::Brace,
    }
}

fn parted(mode: LexMode) -> LexMode {
    match mode {
        LexMode::Braced(_) => LexMode::Braced(BraceEnd::Brace),
        _ => mode,
    }
}
