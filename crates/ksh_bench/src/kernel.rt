// Steps of pipes in the kernel in memory, beside a deque of bytes alone.
use anyhow::Result;
use kernel_ask::{Answer, Ask, Call, Handle, Mode};
use kernel_core::Kernel;
use kernel_objects::BoxPlan;
use ksh_base::{Memory, ShellName, Text};
use std::alloc::{AllocGlobal, Global};
use std::collections::VecDeque;
use std::io::{Print, Read, Write};
use std::time::{Clock, Duration, Instant};

// Asks of the root.
#[derive(Drop)]
struct Asks {
    root: ShellName,
    write: Ask<u32>,
    read: Ask<u32>,
}

fn act(
    alloc: Global,
    kernel: &mut Kernel,
    who: &ShellName,
    ask: &Ask<u32>,
) -> Result<Option<Answer>, Memory> {
    match ask {
        Ask::Asked(_) if kernel.lives(who) => kernel.try_act(alloc, who, ask),
        _ => Ok(None),
    }
}

fn piece(alloc: Global, size: usize) -> Result<Text, Memory> {
    let mut bytes = Vec::new(alloc);
    bytes.resize(size, b'x')?;
    Ok(Text::from_vec(bytes))
}

// So many writes and reads of a pipe; how many were answered as they should be.
fn pipe_steps(alloc: Global, size: u32, many: u32) -> Result<u32> {
    let mut kernel = Kernel::new(alloc, BoxPlan::standard(alloc)?)?;
    let asks = Asks {
        root: ShellName::root(alloc),
        write: Ask::Asked(Call::Write {
            handle: Handle(4),
            bytes: piece(alloc, size as usize)?,
        }),
        read: Ask::Asked(Call::Read {
            handle: Handle(3),
            max: size,
        }),
    };
    act(alloc, &mut kernel, &asks.root, &Ask::Asked(Call::Pipe))?;
    let mut fine = 0u32;
    for _ in 0..many {
        let wrote = act(alloc, &mut kernel, &asks.root, &asks.write)?;
        let got = act(alloc, &mut kernel, &asks.root, &asks.read)?;
        if let (Some(Answer::Taken), Some(Answer::Bytes(_))) = (wrote, got) {
            fine = fine.saturating_add(1);
        }
    }
    Ok(fine)
}

fn deque_steps(alloc: Global, size: u32, many: u32) -> Result<u32> {
    let mut deque: VecDeque<u8> = VecDeque::new(alloc);
    let bytes = piece(alloc, size as usize)?;
    let mut fine = 0u32;
    for _ in 0..many {
        deque.write(bytes.bytes())?;
        let mut got = Vec::new(alloc);
        got.resize(size as usize, 0)?;
        let count = deque.read(got.as_mut_slice())?;
        if count == size as usize {
            fine = fine.saturating_add(1);
        }
    }
    Ok(fine)
}

// Makes so many files.
fn open_steps(alloc: Global, many: u32) -> Result<u32> {
    let mut kernel = Kernel::new(alloc, BoxPlan::standard(alloc)?)?;
    let root = ShellName::root(alloc);
    let mut fine = 0u32;
    for number in 0..many {
        let path = format!(in alloc; "/tmp/{number}")?;
        let call = Call::Open {
            path: Text::of(alloc, path.as_bytes())?,
            mode: Mode::New,
        };
        if let Some(Answer::Opened(handle)) = act(alloc, &mut kernel, &root, &Ask::Asked(call))? {
            act(
                alloc,
                &mut kernel,
                &root,
                &Ask::Asked(Call::Close { handle }),
            )?;
            fine = fine.saturating_add(1);
        }
    }
    Ok(fine)
}

fn seconds(time: Duration) -> f64 {
    time.as_secs_f64()
}

/// Prints the times.
pub(crate) fn run(rt: &(impl Print + AllocGlobal + Clock)) -> Result<()> {
    let alloc = rt.alloc();
    for size in [1u32, 4096] {
        let start = Instant::now(rt)?;
        let fine = pipe_steps(alloc, size, 1_000_000)?;
        let kernel = seconds(start.elapsed(rt)?);
        let start = Instant::now(rt)?;
        let alone = deque_steps(alloc, size, 1_000_000)?;
        let deque = seconds(start.elapsed(rt)?);
        let ratio = kernel / deque;
        println!(rt;
            "{fine} writes and reads of {size} bytes: kernel {kernel} s, deque {deque} s ({alone}), ratio {ratio}"
        )?;
    }
    for many in [1_000u32, 8_000, 64_000] {
        let start = Instant::now(rt)?;
        let fine = open_steps(alloc, many)?;
        let time = seconds(start.elapsed(rt)?);
        println!(rt; "{fine} files made and closed: {time} s")?;
    }
    Ok(())
}
