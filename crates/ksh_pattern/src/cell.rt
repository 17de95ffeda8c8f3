//! A pattern that is being matched: the places in it that a text so far leads to are marked, so that each byte is
//! one walk over the pattern.
ghost use Rattle.std.specs.Prelude.{◌≡◌, ℕ, List, [], ◌∷◌, Bool, true, false, ◌||◌, ◌&&◌, not, IfOk, OnOk};
ghost use Rattle.ksh_pattern.specs.ByteTests.{accepts};
ghost use Rattle.ksh_pattern.specs.Match.{part_matches, matches, one_matches, repeated, goes_on};
ghost use Rattle.ksh_pattern.specs.Cells.{whole, rest, whole_all, rest_all, whole_some, rest_some, rest_copies, rest_repeated, looped};

use crate::alike::drop_doubles;
use crate::byte_test::ByteTest;
use crate::part::{Kind, Part};
use ksh_base::{Items, Memory, Shared};
use std::alloc::Global;
use std::mem;

/// A part that is being matched. A mark says that the text so far may end there; a `!` group has a copy of its
/// alternatives for each place at which it began.
#[derive(Drop)]
pub enum Cell {
    One(ByteTest, bool),
    AnyText(bool),
    Group(Kind, Vec<Vec<Cell>>),
    Not(Shared<Items<Items<Part>>>, Vec<Vec<Vec<Cell>>>),
}

/// What is true at a place of the text: whether the text so far may end there, and whether the empty text matches.
#[derive(Clone, Copy, Debug, PartialEq, Eq)]
pub struct Look {
    pub last: bool,
    pub empty: bool,
}

/// What was true before a byte, and whether a mark is left after it.
#[derive(Clone, Copy, Debug, PartialEq, Eq)]
pub struct Step {
    pub before: Look,
    pub live: bool,
}

impl Look {
    /// Of one part and then another.
    fn then(self, next: Look) -> Look
        ensures last { result.last ≡ ((self.last && next.empty) || next.last) }
        ensures empty { result.empty ≡ (self.empty && next.empty) }
    {
        Look {
            last: (self.last && next.empty) || next.last,
            empty: self.empty && next.empty,
        }
    }

    /// Of one part or another.
    fn or(self, other: Look) -> Look
        ensures last { result.last ≡ (self.last || other.last) }
        ensures empty { result.empty ≡ (self.empty || other.empty) }
    {
        Look {
            last: self.last || other.last,
            empty: self.empty || other.empty,
        }
    }

    /// Whether a match that enters here, or is under way, reaches this place.
    fn reaches(self, entering: bool) -> bool
        ensures { result ≡ (self.last || (entering && self.empty)) }
    {
        self.last || (entering && self.empty)
    }
}

impl Step {
    /// Of one part and then another.
    fn then(self, next: Step) -> Step
        ensures last { result.before.last ≡ ((self.before.last && next.before.empty) || next.before.last) }
        ensures empty { result.before.empty ≡ (self.before.empty && next.before.empty) }
        ensures live { result.live ≡ (self.live || next.live) }
    {
        Step {
            before: self.before.then(next.before),
            live: self.live || next.live,
        }
    }

    /// Of one part or another.
    fn or(self, other: Step) -> Step
        ensures last { result.before.last ≡ (self.before.last || other.before.last) }
        ensures empty { result.before.empty ≡ (self.before.empty || other.before.empty) }
        ensures live { result.live ≡ (self.live || other.live) }
    {
        Step {
            before: self.before.or(other.before),
            live: self.live || other.live,
        }
    }

    /// Whether a text before the byte isn't matched here, or wasn't there.
    fn fails_too(self, failed: bool) -> bool
        ensures { result ≡ (failed || not self.before.last) }
    {
        failed || !self.before.last
    }
}

/// Whether a part matches the empty text.
#[cycle(empty)]
fn empty_part(part: &Part) -> bool
    ensures { result ≡ part_matches part.now [] }
{
    match part {
        Part::One(_) => false,
        Part::AnyText => true,
        Part::Group(kind, alternatives) => kind.has_empty(empty_some(
            alternatives.get().as_slice(),
        )),
    }
}

/// Whether all the parts match the empty text.
#[cycle(empty)]
pub fn empty_all(parts: &[Part]) -> bool
    ensures { result ≡ matches parts.now [] }
{
    for part in parts {
        if !empty_part(part) {
            return false;
        }
    }
    true
}

/// Whether one of the alternatives matches the empty text.
#[cycle(empty)]
fn empty_some(alternatives: &[Items<Part>]) -> bool
    ensures { result ≡ one_matches alternatives.now [] }
{
    for parts in alternatives {
        if empty_all(parts.as_slice()) {
            return true;
        }
    }
    false
}

/// Whether a match that enters a part leaves it without a byte.
fn passes(part: &Part, entering: bool) -> bool
    ensures { result ≡ (entering && part_matches part.now []) }
{
    entering && empty_part(part)
}

/// A part after its first byte; `entering` tells whether a match begins with that byte.
#[cycle(begin)]
fn begin_part(alloc: Global, part: &Part, entering: bool, byte: u8) -> Result<Cell, Memory>
    ensures whole { IfOk result (λ c. (w : List ℕ) → whole c w ≡ part_matches part.now w) }
    ensures rest { IfOk result (λ c. (w : List ℕ) → rest c w ≡ (entering && part_matches part.now (byte ∷ w))) }
{
    match part {
        Part::One(test) => Ok(Cell::One(test.copy()?, entering && test.accepts(byte))),
        Part::AnyText => Ok(Cell::AnyText(entering)),
        Part::Group(kind, alternatives) => begin_group(alloc, *kind, alternatives, entering, byte),
    }
}

/// A group after its first byte.
#[cycle(begin)]
fn begin_group(
    alloc: Global,
    kind: Kind,
    alternatives: &Shared<Items<Items<Part>>>,
    entering: bool,
    byte: u8,
) -> Result<Cell, Memory>
    ensures whole { IfOk result (λ c. (w : List ℕ) → whole c w ≡ repeated kind (one_matches alternatives.now) w) }
    ensures rest { IfOk result (λ c. (w : List ℕ) → rest c w ≡ (entering && repeated kind (one_matches alternatives.now) (byte ∷ w))) }
{
    if kind.is_not() {
        let copies = begin_copies(alloc, alternatives.get().as_slice(), entering, byte)?;
        return Ok(Cell::Not(alternatives.copy()?, copies));
    }
    let cells = begin_some(alloc, alternatives.get().as_slice(), entering, byte)?;
    Ok(Cell::Group(kind, cells))
}

/// The copies of a `!` group's alternatives after its first byte: one, where it is entered.
#[cycle(begin)]
fn begin_copies(
    alloc: Global,
    alternatives: &[Items<Part>],
    entering: bool,
    byte: u8,
) -> Result<Vec<Vec<Vec<Cell>>>, Memory>
    ensures { IfOk result (λ v. (w : List ℕ) → rest_copies v.items w ≡ (entering && not (one_matches alternatives.now (byte ∷ w)))) }
{
    let mut copies = Vec::new(alloc);
    if entering {
        let copy = begin_some(alloc, alternatives, true, byte)?;
        copies.push(copy)?;
    }
    Ok(copies)
}

/// A list of parts after its first byte.
#[cycle(begin)]
pub fn begin_all(
    alloc: Global,
    parts: &[Part],
    entering: bool,
    byte: u8,
) -> Result<Vec<Cell>, Memory>
    ensures whole { IfOk result (λ v. (w : List ℕ) → whole_all v.items w ≡ matches parts.now w) }
    ensures rest { IfOk result (λ v. (w : List ℕ) → rest_all v.items w ≡ (entering && matches parts.now (byte ∷ w))) }
{
    let mut cells = Vec::new(alloc);
    let mut enters = entering;
    for part in parts {
        let cell = begin_part(alloc, part, enters, byte)?;
        cells.push(cell)?;
        enters = passes(part, enters);
    }
    Ok(cells)
}

/// Alternatives after their first byte.
#[cycle(begin)]
fn begin_some(
    alloc: Global,
    alternatives: &[Items<Part>],
    entering: bool,
    byte: u8,
) -> Result<Vec<Vec<Cell>>, Memory>
    ensures whole { IfOk result (λ v. (w : List ℕ) → whole_some v.items w ≡ one_matches alternatives.now w) }
    ensures rest { IfOk result (λ v. (w : List ℕ) → rest_some v.items w ≡ (entering && one_matches alternatives.now (byte ∷ w))) }
{
    let mut begun = Vec::new(alloc);
    for parts in alternatives {
        let cells = begin_all(alloc, parts.as_slice(), entering, byte)?;
        begun.push(cells)?;
    }
    Ok(begun)
}

/// Whether the text so far may end at a part, and whether the part matches the empty text.
#[cycle(look)]
fn look_cell(cell: &Cell) -> Look
    ensures last { result.last ≡ rest cell.now [] }
    ensures empty { result.empty ≡ whole cell.now [] }
{
    match cell {
        Cell::One(_, mark) => Look {
            last: *mark,
            empty: false,
        },
        Cell::AnyText(mark) => Look {
            last: *mark,
            empty: true,
        },
        Cell::Group(kind, alternatives) => {
            let inner = look_some(alternatives);
            Look {
                last: inner.last,
                empty: kind.may_vanish(inner.empty),
            }
        }
        Cell::Not(alternatives, copies) => Look {
            last: look_copies(copies),
            empty: !empty_some(alternatives.get().as_slice()),
        },
    }
}

/// The same of a list of parts.
#[cycle(look)]
pub fn look_all(cells: &[Cell]) -> Look
    ensures last { result.last ≡ rest_all cells.now [] }
    ensures empty { result.empty ≡ whole_all cells.now [] }
{
    let mut before = Look {
        last: false,
        empty: true,
    };
    for cell in cells {
        let here = look_cell(cell);
        before = before.then(here);
    }
    before
}

/// The same of alternatives.
#[cycle(look)]
fn look_some(alternatives: &[Vec<Cell>]) -> Look
    ensures last { result.last ≡ rest_some alternatives.now [] }
    ensures empty { result.empty ≡ whole_some alternatives.now [] }
{
    let mut before = Look {
        last: false,
        empty: false,
    };
    for cells in alternatives {
        let here = look_all(cells);
        before = before.or(here);
    }
    before
}

/// Whether one of the copies of a `!` group doesn't match the text that it was given.
#[cycle(look)]
fn look_copies(copies: &[Vec<Vec<Cell>>]) -> bool
    ensures { result ≡ rest_copies copies.now [] }
{
    for copy in copies {
        let here = look_some(copy);
        if !here.last {
            return true;
        }
    }
    false
}

/// A part after a further byte; `entering` tells whether a match of it begins with that byte.
#[cycle(shift)]
fn shift_cell(alloc: Global, cell: &mut Cell, entering: bool, byte: u8) -> Result<Step, Memory>
    ensures last { IfOk result (λ s. s.before.last ≡ rest cell.old []) }
    ensures empty { IfOk result (λ s. s.before.empty ≡ whole cell.old []) }
    ensures same { OnOk result ((w : List ℕ) → whole cell.new w ≡ whole cell.old w) }
    ensures shifts { OnOk result ((w : List ℕ) → rest cell.new w ≡ (rest cell.old (byte ∷ w) || (entering && whole cell.old (byte ∷ w)))) }
    ensures live { IfOk result (λ s. s.live ≡ false → (w : List ℕ) → rest cell.new w ≡ false) }
{
    match cell {
        Cell::One(test, mark) => Ok(shift_one(test, mark, entering, byte)),
        Cell::AnyText(mark) => Ok(shift_any(mark, entering)),
        Cell::Group(kind, alternatives) => shift_group(alloc, *kind, alternatives, entering, byte),
        Cell::Not(alternatives, copies) => {
            shift_not(alloc, copies, alternatives.get().as_slice(), entering, byte)
        }
    }
}

/// The mark of a part of one byte after a further byte.
fn shift_one(test: &ByteTest, mark: &mut bool, entering: bool, byte: u8) -> Step
    ensures before { result.before ≡ record { last = mark.old; empty = false } }
    ensures mark { mark.new ≡ (entering && accepts test.now byte) }
    ensures live { result.live ≡ mark.new }
{
    let last = *mark;
    *mark = entering && test.accepts(byte);
    Step {
        before: Look { last, empty: false },
        live: *mark,
    }
}

/// The mark of a `*` after a further byte.
fn shift_any(mark: &mut bool, entering: bool) -> Step
    ensures before { result.before ≡ record { last = mark.old; empty = true } }
    ensures mark { mark.new ≡ (mark.old || entering) }
    ensures live { result.live ≡ mark.new }
{
    let last = *mark;
    *mark = last || entering;
    Step {
        before: Look { last, empty: true },
        live: *mark,
    }
}

/// The alternatives of a group after a further byte.
#[cycle(shift)]
fn shift_group(
    alloc: Global,
    kind: Kind,
    alternatives: &mut Vec<Vec<Cell>>,
    entering: bool,
    byte: u8,
) -> Result<Step, Memory>
    ensures last { IfOk result (λ s. s.before.last ≡ rest_repeated kind (whole_some alternatives.old.items) (rest_some alternatives.old.items) []) }
    ensures empty { IfOk result (λ s. s.before.empty ≡ looped kind (whole_some alternatives.old.items) []) }
    ensures same { OnOk result ((w : List ℕ) → looped kind (whole_some alternatives.new.items) w ≡ looped kind (whole_some alternatives.old.items) w) }
    ensures shifts { OnOk result ((w : List ℕ) → rest_repeated kind (whole_some alternatives.new.items) (rest_some alternatives.new.items) w
        ≡ (rest_repeated kind (whole_some alternatives.old.items) (rest_some alternatives.old.items) (byte ∷ w) || (entering && looped kind (whole_some alternatives.old.items) (byte ∷ w)))) }
    ensures live { IfOk result (λ s. s.live ≡ false → (w : List ℕ) → rest_repeated kind (whole_some alternatives.new.items) (rest_some alternatives.new.items) w ≡ false) }
{
    let enters = enters_group(kind, alternatives, entering);
    let step = shift_some(alloc, alternatives, enters, byte)?;
    let before = Look {
        last: step.before.last,
        empty: kind.may_vanish(step.before.empty),
    };
    Ok(Step {
        before,
        live: step.live,
    })
}

/// Whether a repetition of a group begins here: where the group is entered, or one of its repetitions ended.
fn enters_group(kind: Kind, alternatives: &[Vec<Cell>], entering: bool) -> bool
    ensures { result ≡ (entering || (goes_on kind && rest_some alternatives.now [])) }
{
    entering || (kind.goes_on() && look_some(alternatives).last)
}

/// A list of parts after a further byte.
#[cycle(shift)]
pub fn shift_all(
    alloc: Global,
    cells: &mut Vec<Cell>,
    entering: bool,
    byte: u8,
) -> Result<Step, Memory>
    ensures last { IfOk result (λ s. s.before.last ≡ rest_all cells.old.items []) }
    ensures empty { IfOk result (λ s. s.before.empty ≡ whole_all cells.old.items []) }
    ensures same { OnOk result ((w : List ℕ) → whole_all cells.new.items w ≡ whole_all cells.old.items w) }
    ensures shifts { OnOk result ((w : List ℕ) → rest_all cells.new.items w ≡ (rest_all cells.old.items (byte ∷ w) || (entering && whole_all cells.old.items (byte ∷ w)))) }
    ensures live { IfOk result (λ s. s.live ≡ false → (w : List ℕ) → rest_all cells.new.items w ≡ false) }
{
    let mut so_far = Step {
        before: Look {
            last: false,
            empty: true,
        },
        live: false,
    };
    for cell in cells.iter_mut() {
        let step = shift_cell(alloc, cell, so_far.before.reaches(entering), byte)?;
        so_far = so_far.then(step);
    }
    Ok(so_far)
}

/// Alternatives after a further byte.
#[cycle(shift)]
fn shift_some(
    alloc: Global,
    alternatives: &mut Vec<Vec<Cell>>,
    entering: bool,
    byte: u8,
) -> Result<Step, Memory>
    ensures last { IfOk result (λ s. s.before.last ≡ rest_some alternatives.old.items []) }
    ensures empty { IfOk result (λ s. s.before.empty ≡ whole_some alternatives.old.items []) }
    ensures same { OnOk result ((w : List ℕ) → whole_some alternatives.new.items w ≡ whole_some alternatives.old.items w) }
    ensures shifts { OnOk result ((w : List ℕ) → rest_some alternatives.new.items w ≡ (rest_some alternatives.old.items (byte ∷ w) || (entering && whole_some alternatives.old.items (byte ∷ w)))) }
    ensures live { IfOk result (λ s. s.live ≡ false → (w : List ℕ) → rest_some alternatives.new.items w ≡ false) }
{
    let mut so_far = Step {
        before: Look {
            last: false,
            empty: false,
        },
        live: false,
    };
    for cells in alternatives.iter_mut() {
        let step = shift_all(alloc, cells, entering, byte)?;
        so_far = so_far.or(step);
    }
    Ok(so_far)
}

/// The copies of a `!` group after a further byte, with which another one may begin.
#[cycle(shift)]
fn shift_not(
    alloc: Global,
    copies: &mut Vec<Vec<Vec<Cell>>>,
    alternatives: &[Items<Part>],
    entering: bool,
    byte: u8,
) -> Result<Step, Memory>
    ensures last { IfOk result (λ s. s.before.last ≡ rest_copies copies.old.items []) }
    ensures empty { IfOk result (λ s. s.before.empty ≡ not (one_matches alternatives.now [])) }
    ensures shifts { OnOk result ((w : List ℕ) → rest_copies copies.new.items w ≡ (rest_copies copies.old.items (byte ∷ w) || (entering && not (one_matches alternatives.now (byte ∷ w))))) }
    ensures live { IfOk result (λ s. s.live ≡ false → (w : List ℕ) → rest_copies copies.new.items w ≡ false) }
{
    let last = shift_copies(alloc, copies, byte)?;
    if entering {
        let copy = begin_some(alloc, alternatives, true, byte)?;
        copies.push(copy)?;
    }
    drop_doubles(copies);
    let before = Look {
        last,
        empty: !empty_some(alternatives),
    };
    Ok(Step {
        before,
        live: !copies.is_empty(),
    })
}

/// The copies of a `!` group after a further byte, and whether one of them didn't match the text before it.
#[cycle(shift)]
fn shift_copies(alloc: Global, copies: &mut Vec<Vec<Vec<Cell>>>, byte: u8) -> Result<bool, Memory>
    ensures last { IfOk result (λ last. last ≡ rest_copies copies.old.items []) }
    ensures shifts { OnOk result ((w : List ℕ) → rest_copies copies.new.items w ≡ rest_copies copies.old.items (byte ∷ w)) }
{
    let mut last = false;
    for copy in copies.iter_mut() {
        let step = shift_some(alloc, copy, false, byte)?;
        last = step.fails_too(last);
    }
    Ok(last)
}
