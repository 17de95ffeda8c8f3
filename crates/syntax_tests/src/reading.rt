// Sentences by the kinds of their tokens.
use ksh_base::Memory;
use ksh_syntax::{Kind, Next, Reading};
use std::alloc::Global;
use std::test::Fail;

// How many tokens are read, and what becomes of the last of them.
fn read(alloc: Global, kinds: &[Kind]) -> Result<(usize, Next), Memory> {
    let mut reading = Reading::new(alloc)?;
    let mut marks = Vec::new(alloc);
    let mut next = Next::Taken;
    for (i, kind) in kinds.iter().enumerate() {
        let mode = reading.mode();
        next = reading.take(mode, *kind, &mut marks)?;
        if next != Next::Taken {
            return Ok((i, next));
        }
    }
    Ok((kinds.len(), next))
}

#[test]
fn commands_are_read(rt: HostRuntime) -> Result<(), Fail> {
    let alloc = rt.alloc();
    // a; b
    let r = read(alloc, &[Kind::Name, Kind::Semicolon, Kind::Name, Kind::End])?;
    assert!(rt; r == (4, Next::Taken));
    // if a; then b; fi
    let r = read(
        alloc,
        &[
            Kind::If,
            Kind::Name,
            Kind::Semicolon,
            Kind::Then,
            Kind::Name,
            Kind::Semicolon,
            Kind::Fi,
            Kind::End,
        ],
    )?;
    assert!(rt; r == (8, Next::Taken));
    // { (a) }: reserved words are known behind a compound command
    let r = read(
        alloc,
        &[
            Kind::LeftBrace,
            Kind::Open,
            Kind::Name,
            Kind::Close,
            Kind::RightBrace,
            Kind::End,
        ],
    )?;
    assert!(rt; r == (6, Next::Taken));
    // case x in a) ;; esac
    let r = read(
        alloc,
        &[
            Kind::Case,
            Kind::Name,
            Kind::In,
            Kind::Name,
            Kind::Close,
            Kind::DoubleSemicolon,
            Kind::Esac,
            Kind::End,
        ],
    )?;
    assert!(rt; r == (8, Next::Taken));
    Ok(())
}

#[test]
fn the_first_token_that_no_script_goes_on_with_is_refused(rt: HostRuntime) -> Result<(), Fail> {
    let alloc = rt.alloc();
    // if a then b fi: `then` and the rest are words of the command
    let r = read(
        alloc,
        &[
            Kind::If,
            Kind::Name,
            Kind::Then,
            Kind::Name,
            Kind::Fi,
            Kind::End,
        ],
    )?;
    assert!(rt; r == (5, Next::Refused));
    // { } has no command
    let r = read(alloc, &[Kind::LeftBrace, Kind::RightBrace])?;
    assert!(rt; r == (1, Next::Refused));
    // a && ; and ! !
    let r = read(alloc, &[Kind::Name, Kind::AndIf, Kind::Semicolon])?;
    assert!(rt; r == (2, Next::Refused));
    let r = read(alloc, &[Kind::Bang, Kind::Bang])?;
    assert!(rt; r == (1, Next::Refused));
    // a b (
    let r = read(alloc, &[Kind::Name, Kind::Name, Kind::Open])?;
    assert!(rt; r == (2, Next::Refused));
    Ok(())
}

#[test]
fn sixty_four_openings_stand_and_one_more_is_too_deep(rt: HostRuntime) -> Result<(), Fail> {
    let alloc = rt.alloc();
    let mut kinds = Vec::new(alloc);
    for _ in 0..65 {
        kinds.push(Kind::Open)?;
    }
    let r = read(alloc, kinds.as_slice())?;
    assert!(rt; r == (64, Next::TooDeep));
    Ok(())
}
