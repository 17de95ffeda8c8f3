// Jobs through each spawner, and ends in each album.
ghost use Rattle.std.specs.Prelude.{◌≡◌, ◌*◌, IfOk, IfSome};

use crate::{
    Album, CallerSpawner, FewSpawner, Kept, ListAlbum, NoAlbum, ShellEnd, ShellStop, Spawner,
    ThreadSpawner,
};
use ksh_base::{Memory, ShellName};
use std::alloc::Global;
use std::sync::Arc;
use std::sync::atomic::{AtomicBool, Ordering};
use std::test::Fail;
use std::thread;
use std::thread::Promise;
use std::time::{Clock, Duration};

// The answer is twice the number, or none where the job isn't run.
#[derive(Clone, Copy)]
struct TwiceOf {
    number: u32,
}

impl Promise<Option<u64>> for TwiceOf {
    ghost kept_by = { λ p r. IfSome r (λ v. v ≡ 2 * p.number) };
}

// Whether the job was started, and its answer.
fn twice<P: Spawner>(
    alloc: Global,
    spawner: &mut P,
    number: u32,
) -> Result<(bool, Option<u64>), Memory>
    ensures { IfOk result (λ r. IfSome r.1 (λ v. v ≡ 2 * number)) }
{
    spawner.room(alloc)?;
    let work = move |go: bool| -> Option<u64> {
        if go {
            Some(2 * u64::from(number))
        } else {
            None
        }
    };
    match spawner.start(TwiceOf { number }, work) {
        Ok(job) => Ok((true, job.join())),
        Err(answer) => Ok((false, answer)),
    }
}

#[test]
fn a_job_is_run_and_answers(rt: HostRuntime) -> Result<(), Fail> {
    let alloc = rt.alloc();
    assert!(rt; twice(alloc, &mut CallerSpawner::new(rt), 21)? == (true, Some(42)));
    assert!(rt; twice(alloc, &mut ThreadSpawner::new(rt), 21)? == (true, Some(42)));
    Ok(())
}

#[test]
fn the_listed_starts_are_handed_back(rt: HostRuntime) -> Result<(), Fail> {
    let alloc = rt.alloc();
    let mut refused = Vec::new(alloc);
    refused.push(1u32)?;
    refused.push(3)?;
    let mut spawner = FewSpawner::new(rt, refused);
    for (number, started) in [(5u32, true), (6, false), (7, true), (8, false), (9, true)] {
        let want = if started {
            Some(2 * u64::from(number))
        } else {
            None
        };
        assert!(rt; twice(alloc, &mut spawner, number)? == (started, want));
    }
    let mut of_child = spawner.split();
    assert!(rt; twice(alloc, &mut of_child, 1)? == (true, Some(2)));
    assert!(rt; twice(alloc, &mut of_child, 1)? == (true, Some(2)));
    Ok(())
}

// The answer is whether the other job was met.
#[derive(Clone, Copy)]
struct Meeting;

impl Promise<bool> for Meeting {
    ghost kept_by = { λ _ r. r ≡ r };
}

// Says that it is here, and waits for the other, some milliseconds at most.
fn meets(clock: &impl Clock, here: &AtomicBool, there: &AtomicBool, patience: u32) -> bool {
    here.store(true, Ordering::SeqCst);
    for _ in 0..patience {
        if there.load(Ordering::SeqCst) {
            return true;
        }
        thread::sleep(clock, Duration::from_millis(1));
    }
    there.load(Ordering::SeqCst)
}

// Starts two jobs that wait for each other, and says which met the other.
fn two_meet<P: Spawner, C: Clock + Copy + Send + 'static>(
    alloc: Global,
    spawner: &mut P,
    clock: C,
    patience: u32,
) -> Result<(bool, bool), Memory> {
    let first = Arc::new(alloc, AtomicBool::new(false))?;
    let second = Arc::new(alloc, AtomicBool::new(false))?;
    let (first_too, second_too) = (Arc::try_clone(&first)?, Arc::try_clone(&second)?);
    spawner.room(alloc)?;
    let one = spawner.start(
        Meeting,
        move |_go: bool| meets(&clock, &first, &second, patience),
    );
    spawner.room(alloc)?;
    let work = move |_go: bool| meets(&clock, &second_too, &first_too, patience);
    let other = spawner.start(Meeting, work);
    let one = match one {
        Ok(job) => job.join(),
        Err(met) => met,
    };
    let other = match other {
        Ok(job) => job.join(),
        Err(met) => met,
    };
    Ok((one, other))
}

#[test]
fn two_threads_run_at_once_and_two_callers_do_not(rt: HostRuntime) -> Result<(), Fail> {
    let alloc = rt.alloc();
    assert!(rt; two_meet(alloc, &mut ThreadSpawner::new(rt), rt, 20_000)? == (true, true));
    assert!(rt; two_meet(alloc, &mut CallerSpawner::new(rt), rt, 20)? == (false, true));
    Ok(())
}

fn end<A>(alloc: Global, status: u8, album: A) -> ShellEnd<u32, A> {
    ShellEnd {
        name: ShellName::root(alloc),
        status,
        stop: ShellStop::Meant,
        port: 7,
        album,
    }
}

// An album made from another, with two ends, the first of which has an end in its own album.
fn family<A: Album<u32>>(alloc: Global, album: &A) -> Result<A, Memory> {
    let mut all = album.fresh();
    let mut inner = album.fresh();
    inner.room(1)?;
    inner.keep(end(alloc, 3, album.fresh()));
    all.room(2)?;
    all.keep(end(alloc, 1, inner));
    all.keep(end(alloc, 2, album.fresh()));
    Ok(all)
}

fn statuses(alloc: Global, ends: &[Kept<u32>]) -> Result<Vec<u8>, Memory> {
    let mut all = Vec::new(alloc);
    for end in ends {
        all.push(end.status)?;
    }
    Ok(all)
}

#[test]
fn an_album_keeps_each_end_in_order(rt: HostRuntime) -> Result<(), Fail> {
    let alloc = rt.alloc();
    let ends = family(alloc, &ListAlbum::new(alloc))?.ends();
    assert!(rt; statuses(alloc, ends.as_slice())?.as_slice() == [1, 2].as_slice());
    for (kept, want) in ends.as_slice().iter().zip([1usize, 0]) {
        assert!(rt; kept.album.len() == want && kept.port == 7 && kept.stop == ShellStop::Meant);
    }
    family(alloc, &NoAlbum)?;
    Ok(())
}
