// The program's words.
ghost use Rattle.std.specs.Prelude.{◌≡◌, ℕ, List, Option, None, slice_get, IfOk};
ghost use Rattle.os_world.specs.Words.{IfTold, IsWord};

use ksh_base::{Items, Memory, Text};
use std::alloc::Global;
use std::env::{Env, FillError};
use thiserror::Error;

// Room for one word: the most that Linux hands to a program in one.
const LONGEST_WORD: usize = 131_072;

/// A word is longer than the room for it.
#[derive(Clone, Copy, Debug, PartialEq, Eq, Error)]
#[error("a word is too long")]
pub struct TooLong;

/// What gives the words that follow the program's name.
pub trait ProgramWords {
    /// The words, where they are told.
    ghost told: { Self → Option (List (List ℕ)) };

    /// Puts the word of that place, counted from 0, into the front of `room`, and says how many
    /// bytes it has. None exactly past the last word.
    fn word(&self, place: usize, room: &mut [u8]) -> Result<Option<usize>, TooLong>
        ensures { IfOk result (λ found. IsWord (told self.now) place found room.new) };
}

/// The words that the operating system hands to the program. It tells nothing of them.
#[derive(Clone, Copy)]
pub struct SystemWords<E> {
    env: E,
}

impl<E: Env> SystemWords<E> {
    pub fn new(env: E) -> SystemWords<E>
        ensures { result.env ≡ env }
    {
        SystemWords { env }
    }
}

impl<E: Env> ProgramWords for SystemWords<E> {
    ghost told = { λ _. None };

    fn word(&self, place: usize, room: &mut [u8]) -> Result<Option<usize>, TooLong> {
        // The first argument is the program's name.
        let Some(argument) = place.checked_add(1) else {
            return Ok(None);
        };
        match self.env.arg(argument, room) {
            Ok(length) => Ok(Some(length)),
            Err(FillError::NotPresent) => Ok(None),
            Err(FillError::TooLong) => Err(TooLong),
        }
    }
}

// The word of that place, if there is one.
fn word_at<G: ProgramWords>(
    alloc: Global,
    given: &G,
    place: usize,
    room: &mut [u8],
) -> Result<Option<Text>, Memory>
    ensures { IfOk result (λ word. IfTold (G.told given.now) (λ told. word ≡ slice_get told place)) }
{
    match given.word(place, room) {
        Ok(Some(length)) => Ok(Some(Text::of(alloc, &room[..length])?)),
        Ok(None) => Ok(None),
        Err(TooLong) => Err(Memory),
    }
}

/// The words that follow the program's name, all of them and in order. A word of more than 131,072
/// bytes is answered as want of memory.
#[tactic(auto, using(crate::proofs::Reading::word_more, crate::proofs::Reading::words_end))]
pub fn program_words<G: ProgramWords>(given: &G, alloc: Global) -> Result<Items<Text>, Memory>
    ensures { IfOk result (λ words. IfTold (G.told given.now) (λ told. words ≡ told)) }
{
    let mut room = Vec::new(alloc);
    room.resize(LONGEST_WORD, 0u8)?;
    let mut words = Items::new(alloc);
    for place in 0..usize::MAX {
        match word_at(alloc, given, place, room.as_mut_slice())? {
            Some(word) => words.push(word)?,
            None => return Ok(words),
        }
    }
    Err(Memory)
}
