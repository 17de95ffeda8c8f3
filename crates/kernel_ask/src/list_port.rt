// The ports of the world of the tests.
ghost use Rattle.std.specs.Prelude.{◌≡◌, ◌<◌, ◌≤◌, ◌+◌, ◌-◌, ◌*◌, ℕ, true, vec_len, vec_capacity, sum_by, min, ◌^◌, IfOk, OnOk, false, [], ◌∷◌, ◌++◌, slice_index_or, slice_set, length};
ghost use Rattle.kernel_ask.specs.declared.ask.Answer.TheVariants.{Forked};
ghost use Rattle.kernel_ask.specs.declared.ask.Ask.TheVariants.{Fork};
ghost use Rattle.kernel_ask.specs.declared.ask.Phase.TheVariants.{Made, Unrun};
ghost use Rattle.kernel_ask.specs.Causes.{CountsRefusal, CountsForkRefusal, is_refusal, refused_in};
ghost use Rattle.kernel_ask.specs.Listed.{calls_in, is_call, next_answer, Refuses};
ghost use Rattle.kernel_ask.specs.Owed.{owed};

use crate::ask::{Answer, Ask, Call, Entry, ForkRefused, Handle, Phase, Refusal, Snapshot};
use crate::list_world::{answers_of, default_answer};
use crate::port::Port;
use ksh_base::{Items, Memory, Shared, ShellName};
use std::alloc::Global;

/// A port in memory that gives listed answers and keeps its transcript.
#[derive(Drop)]
pub struct ListPort<F> {
    name: ShellName,
    done: Vec<Entry<F>>,
    children: Vec<Phase>,
    live: bool,
    refusals: u64,
    // How many calls `done` has.
    calls: usize,
    lists: Shared<Vec<(ShellName, Vec<Answer>)>>,
    ghost room: { vec_len done + sum_by owed children.items ≤ vec_capacity done },
    ghost counted: { calls ≡ calls_in done.items },
    ghost covers: { min (refused_in done.items) (2 ^ 64 - 1) ≤ refusals },
}

impl<F: Snapshot> ListPort<F> {
    /// A live port that has asked nothing.
    pub(crate) fn new(
        alloc: Global,
        name: ShellName,
        lists: Shared<Vec<(ShellName, Vec<Answer>)>>,
    ) -> Self
        ensures name { result.name ≡ name }
        ensures done { result.done.items ≡ [] }
        ensures children { result.children.items ≡ [] }
        ensures live { result.live ≡ true }
        ensures refusals { result.refusals ≡ 0 }
        ensures lists { result.lists ≡ lists }
    {
        ListPort {
            name,
            done: Vec::new(alloc),
            children: Vec::new(alloc),
            live: true,
            refusals: 0,
            calls: 0,
            lists,
        }
    }

    /// What was asked and answered, the oldest first.
    pub fn entries(&self) -> &[Entry<F>]
        ensures { result.now ≡ self.now.done.items }
    {
        self.done.as_slice()
    }

    /// How far each forked shell is, the first fork first.
    pub fn children(&self) -> &[Phase]
        ensures { result.now ≡ self.now.children.items }
    {
        self.children.as_slice()
    }

    pub fn name(&self) -> &ShellName
        ensures { result.now ≡ self.now.name }
    {
        &self.name
    }

    pub fn live(&self) -> bool
        ensures { result ≡ self.now.live }
    {
        self.live
    }

    /// How often it has refused an ask.
    pub fn refusals(&self) -> u64
        ensures { result ≡ self.now.refusals }
    {
        self.refusals
    }

    fn next(&self, alloc: Global, call: &Call) -> Result<Answer, Memory>
        ensures { IfOk result (λ a. a ≡ next_answer self.now.lists.items self.now.name self.now.done.items call.now) }
    {
        let answers = answers_of(self.lists.get().as_slice(), &self.name);
        match answers.get(self.calls) {
            Some(answer) => answer.copy(alloc),
            None => Ok(default_answer(call)),
        }
    }

    // Appends an entry that no fork has room for.
    #[tactic(auto, using(crate::proofs::Counts::covers_more))]
    fn push(&mut self, ask: Ask<F>, answer: Answer)
        requires room { vec_len self.old.done + (sum_by owed self.old.children.items + 1) ≤ vec_capacity self.old.done }
        ensures done { self.new.done.items ≡ self.old.done.items ++ record { ask = ask; answer = answer } ∷ [] }
        ensures counts { CountsRefusal self.old.refusals self.new.refusals answer }
        ensures rest { (self.new.children ≡ self.old.children) × (self.new.live ≡ self.old.live) × (self.new.name ≡ self.old.name) × (self.new.lists ≡ self.old.lists) }
    {
        if matches!(ask, Ask::Asked(_)) {
            self.calls += 1;
        }
        self.refusals = counted(self.refusals, &answer);
        self.done.push_reserved(Entry { ask, answer });
    }

    // Refuses a fork, and keeps a copy of its start in the transcript.
    #[tactic(auto, using(crate::proofs::Counts::owed_le))]
    fn refuse(&mut self, alloc: Global, start: F, keep: &[Handle]) -> ForkRefused<F>
        ensures back { Refuses self.old.done.items start keep.now self.new.done.items result }
        ensures counts { CountsForkRefusal self.old.refusals self.new.refusals result }
        ensures rest { (self.new.children ≡ self.old.children) × (self.new.live ≡ self.old.live) × (self.new.name ≡ self.old.name) × (self.new.lists ≡ self.old.lists) }
    {
        let Ok(told) = start.fork(alloc) else {
            return ForkRefused::Memory(start);
        };
        let Ok(keep) = Items::from_slice(alloc, keep) else {
            return ForkRefused::Memory(start);
        };
        if self.done.reserve(2 * self.children.len() + 1).is_err() {
            return ForkRefused::Memory(start);
        }
        let ask = Ask::Fork { start: told, keep };
        self.push(ask, Answer::Refused(Refusal::TooMany));
        ForkRefused::Refused(Refusal::TooMany, start)
    }

    // The port of the fork of that number, with room for the fork and for all that follows it.
    #[tactic(auto, using(crate::proofs::Counts::owed_le))]
    fn prepare(&mut self, alloc: Global, number: u32) -> Result<Self, Memory>
        requires many { vec_len self.old.children < 4294967295 }
        ensures child { IfOk result (λ r. (r.live ≡ true) × (r.done.items ≡ []) × (r.children.items ≡ []) × (r.name ≡ self.old.name ++ number ∷ []) × (r.lists ≡ self.old.lists) × (r.refusals ≡ 0)) }
        ensures room { OnOk result (vec_len self.new.done + (sum_by owed self.new.children.items + 3) ≤ vec_capacity self.new.done) }
        ensures place { OnOk result (vec_len self.new.children < vec_capacity self.new.children) }
        ensures rest { (self.new.done.items ≡ self.old.done.items) × (self.new.children.items ≡ self.old.children.items) × (self.new.live ≡ self.old.live) × (self.new.name ≡ self.old.name) × (self.new.lists ≡ self.old.lists) × (self.new.refusals ≡ self.old.refusals) }
    {
        let name = self.name.child(alloc, number)?;
        let lists = self.lists.copy()?;
        self.done.reserve(2 * self.children.len() + 3)?;
        self.children.reserve(1)?;
        Ok(ListPort::new(alloc, name, lists))
    }

    // Appends a fork.
    #[tactic(auto, using(crate::proofs::Counts::covers_more))]
    fn push_fork(&mut self, start: F, keep: Items<Handle>, number: u32)
        requires room { vec_len self.old.done + (sum_by owed self.old.children.items + 3) ≤ vec_capacity self.old.done }
        requires child { vec_len self.old.children < vec_capacity self.old.children }
        ensures done { self.new.done.items ≡ self.old.done.items ++ record { ask = Fork start keep; answer = Forked number } ∷ [] }
        ensures children { self.new.children.items ≡ self.old.children.items ++ Made ∷ [] }
        ensures rest { (self.new.live ≡ self.old.live) × (self.new.name ≡ self.old.name) × (self.new.lists ≡ self.old.lists) × (self.new.refusals ≡ self.old.refusals) }
    {
        self.done.push_reserved(Entry {
            ask: Ask::Fork { start, keep },
            answer: Answer::Forked(number),
        });
        self.children.push_reserved(Phase::Made);
    }

    // Appends what became of a forked shell.
    #[tactic(auto, using(crate::proofs::Counts::covers_more))]
    fn note(&mut self, child: u32, phase: Phase, ask: Ask<F>, answer: Answer)
        requires child { (0 < child) × (child ≤ vec_len self.old.children) }
        requires owed { owed phase + 1 ≤ owed (slice_index_or self.old.children.items (child - 1) Unrun) }
        requires ask { is_call ask ≡ false }
        requires answer { is_refusal answer ≡ 0 }
        ensures done { self.new.done.items ≡ self.old.done.items ++ record { ask = ask; answer = answer } ∷ [] }
        ensures children { self.new.children.items ≡ slice_set self.old.children.items (child - 1) phase }
        ensures rest { (self.new.live ≡ self.old.live) × (self.new.name ≡ self.old.name) × (self.new.lists ≡ self.old.lists) × (self.new.refusals ≡ self.old.refusals) }
    {
        let at = child as usize - 1;
        self.children[at] = phase;
        self.done.push_reserved(Entry { ask, answer });
    }
}

// The count of refusals after that answer.
fn counted(refusals: u64, answer: &Answer) -> u64
    ensures counts { CountsRefusal refusals result answer.now }
    ensures total { min (refusals + is_refusal answer.now) (2 ^ 64 - 1) ≤ result }
{
    match answer {
        Answer::Refused(_) => refusals.saturating_add(1),
        _ => refusals,
    }
}

impl<F: Snapshot + Send> Port<F> for ListPort<F> {
    ghost use Rattle.std.specs.Prelude.{ℕ, ◌≡◌, ◌≤◌, ◌+◌, true, IfOk, IfErr, OnOk, OnErr, length};
    ghost use Rattle.kernel_ask.specs.Causes.{CountsRefusal, CountsForkRefusal};
    ghost use Rattle.kernel_ask.specs.Listed.{next_answer};
    ghost use Rattle.kernel_ask.specs.ListSeen.{seen_of, IsFull};
    ghost use Rattle.kernel_ask.specs.Seen.{acted, forked, child_of, marked, waited_for, ended, IsIn, NoneMade, GivesBack, SaysTooMany};
    ghost use Rattle.kernel_ask.specs.declared.ask.Phase.TheVariants.{Made, Begun};

    ghost sees = { seen_of };

    ghost refusals = { λ p. p.refusals };

    ghost covers = { λ p. p.covers };

    #[tactic(auto, using(crate::proofs::Counts::owed_le))]
    fn act(&mut self, alloc: Global, call: Call) -> Result<Answer, Memory>
        requires live { self.old.live ≡ true }
        ensures ok { IfOk result (λ a. seen_of self.new ≡ acted (seen_of self.old) call a) }
        ensures err { OnErr result (seen_of self.new ≡ seen_of self.old) }
        ensures cause { IfOk result (CountsRefusal self.old.refusals self.new.refusals) }
        ensures count { OnErr result (self.new.refusals ≡ self.old.refusals) }
        ensures answer { IfOk result (λ a. a ≡ next_answer self.old.lists.items self.old.name self.old.done.items call) }
        ensures lists { self.new.lists ≡ self.old.lists }
    {
        let answer = self.next(alloc, &call)?;
        let told = answer.copy(alloc)?;
        self.done.reserve(2 * self.children.len() + 1)?;
        self.push(Ask::Asked(call), told);
        Ok(answer)
    }

    fn fork(
        &mut self,
        alloc: Global,
        start: F,
        keep: &[Handle],
    ) -> Result<(u32, Self), ForkRefused<F>>
        requires live { self.old.live ≡ true }
        requires none_made { NoneMade self.old.children.items }
        ensures number { IfOk result (λ r. r.0 ≡ length self.old.children.items + 1) }
        ensures parent { IfOk result (λ r. seen_of self.new ≡ forked (seen_of self.old) start keep.now) }
        ensures child { IfOk result (λ r. seen_of r.1 ≡ child_of (seen_of self.old) r.0) }
        ensures fresh { IfOk result (λ r. r.1.refusals ≡ 0) }
        ensures kept { IfOk result (λ r. self.new.refusals ≡ self.old.refusals) }
        ensures err { IfErr result (λ e. GivesBack (seen_of self.old) start keep.now (seen_of self.new) e) }
        ensures cause { IfErr result (CountsForkRefusal self.old.refusals self.new.refusals) }
        ensures many { IfErr result (SaysTooMany self.old.children.items) }
        ensures full { IfErr result (IsFull self.old.children.items) }
        ensures lists { self.new.lists ≡ self.old.lists }
        ensures child_lists { IfOk result (λ r. r.1.lists ≡ self.old.lists) }
    {
        let many = self.children.len();
        if many >= u32::MAX as usize {
            return Err(self.refuse(alloc, start, keep));
        }
        let number = many as u32 + 1;
        let Ok(keep) = Items::from_slice(alloc, keep) else {
            return Err(ForkRefused::Memory(start));
        };
        let Ok(child) = self.prepare(alloc, number) else {
            return Err(ForkRefused::Memory(start));
        };
        self.push_fork(start, keep, number);
        Ok((number, child))
    }

    fn mark(&mut self, child: u32, begun: bool)
        requires live { self.old.live ≡ true }
        requires last { child ≡ length self.old.children.items }
        requires made { IsIn self.old.children.items child Made }
        ensures marks { seen_of self.new ≡ marked (seen_of self.old) child begun }
        ensures count { self.new.refusals ≡ self.old.refusals }
        ensures lists { self.new.lists ≡ self.old.lists }
    {
        let (phase, answer) = if begun {
            (Phase::Begun, Answer::Begun)
        } else {
            (Phase::Unrun, Answer::NoThread)
        };
        self.note(child, phase, Ask::Begin { child }, answer);
    }

    fn waited(&mut self, child: u32, status: u8)
        requires live { self.old.live ≡ true }
        requires begun { IsIn self.old.children.items child Begun }
        ensures waits { seen_of self.new ≡ waited_for (seen_of self.old) child status }
        ensures count { self.new.refusals ≡ self.old.refusals }
        ensures lists { self.new.lists ≡ self.old.lists }
    {
        let ask = Ask::WaitShell { child };
        self.note(child, Phase::Waited, ask, Answer::ShellEnded(status));
    }

    fn end(&mut self)
        requires live { self.old.live ≡ true }
        ensures ends { seen_of self.new ≡ ended (seen_of self.old) }
        ensures count { self.new.refusals ≡ self.old.refusals }
        ensures lists { self.new.lists ≡ self.old.lists }
    {
        self.live = false;
    }
}
