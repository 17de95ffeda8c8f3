//! Calls on the variables of a shell, beside a map of the standard library with the same keys.
ghost use Rattle.std.specs.Prelude.{◌≡◌, ◌<◌};

use anyhow::Result;
use ksh_base::{Items, Name, Text};
use std::alloc::{AllocGlobal, Global};
use std::collections::BTreeMap;
use std::io::Print;
use std::marker::Brand;
use std::sync::ledger::{Blank, Ledger};
use std::time::{Clock, Instant};
use tree_steps::Steps;
use var_store::VarStore;
use var_types::Path;

/// How many calls are timed. An unset is followed by a put, which makes the row again.
const CALLS: u32 = 1_000;

/// How far the next row is from the last one that was called.
const STRIDE: usize = 7_919;

#[derive(Clone, Copy)]
enum Call {
    Get,
    Put,
    Append,
    Unset,
}

impl Call {
    fn name(self) -> &'static str {
        match self {
            Call::Get => "get",
            Call::Put => "put",
            Call::Append => "append",
            Call::Unset => "unset and put",
        }
    }
}

#[derive(Drop)]
struct Rows<L: Ledger> {
    store: VarStore<u8>,
    steps: Steps<L>,
    map: BTreeMap<Path, Text>,
    paths: Vec<Path>,
}

fn path(alloc: Global, number: u32) -> Result<Path> {
    let name = format!(in alloc; "name{number}")?;
    Ok(Path {
        scope: 0,
        name: Name::read(alloc, name.as_bytes())?,
        steps: Items::new(alloc),
    })
}

/// So many rows, made in their order.
fn made<L: Ledger>(alloc: Global, blank: Blank, many: u32) -> Result<Rows<L>>
    requires name { blank.name ≡ L.name }
    requires parts { blank.parts ≡ L.parts }
    requires some { 0 < L.parts }
{
    let mut steps = Steps::<L>::open(blank);
    let mut store = VarStore::new(alloc)?;
    let mut map = BTreeMap::new(alloc);
    let mut paths = Vec::new(alloc);
    for number in 0..many {
        let path = path(alloc, number.saturating_add(1_000_000))?;
        store.put(&path, b"1", &mut steps)?;
        map.insert(path.copy(alloc)?, Text::of(alloc, b"1")?)?;
        paths.push(path)?;
    }
    Ok(Rows {
        store,
        steps,
        map,
        paths,
    })
}

fn on_store<L: Ledger>(rows: &mut Rows<L>, call: Call, at: usize) -> bool {
    let Some(path) = rows.paths.get(at) else {
        return false;
    };
    match call {
        Call::Get => rows.store.get(path).is_some(),
        Call::Put => rows.store.put(path, b"2", &mut rows.steps).is_ok(),
        Call::Append => rows.store.append(path, b"3", &mut rows.steps).is_ok(),
        Call::Unset => {
            rows.store.unset(path, &mut rows.steps).is_ok()
                && rows.store.put(path, b"4", &mut rows.steps).is_ok()
        }
    }
}

fn put_into_map(alloc: Global, map: &mut BTreeMap<Path, Text>, path: &Path) -> Result<bool> {
    let text = Text::of(alloc, b"2")?;
    match map.get_mut(path) {
        Some(held) => {
            *held = text;
            Ok(true)
        }
        None => Ok(false),
    }
}

fn append_in_map(map: &mut BTreeMap<Path, Text>, path: &Path) -> Result<bool> {
    match map.get_mut(path) {
        Some(held) => {
            held.push(b'3')?;
            Ok(true)
        }
        None => Ok(false),
    }
}

fn on_map<L: Ledger>(alloc: Global, rows: &mut Rows<L>, call: Call, at: usize) -> Result<bool> {
    let Some(path) = rows.paths.get(at) else {
        return Ok(false);
    };
    match call {
        Call::Get => Ok(rows.map.get(path).is_some()),
        Call::Put => put_into_map(alloc, &mut rows.map, path),
        Call::Append => append_in_map(&mut rows.map, path),
        Call::Unset => {
            let there = rows.map.remove(path).is_some();
            rows.map.insert(path.copy(alloc)?, Text::of(alloc, b"4")?)?;
            Ok(there)
        }
    }
}

/// The place of the row that is called after the one at a place.
fn after(at: usize, many: usize) -> usize {
    if many == 0 {
        return 0;
    }
    at.saturating_add(STRIDE) % many
}

/// How many of the calls were answered.
fn all_on_store<L: Ledger>(rows: &mut Rows<L>, call: Call) -> u32 {
    let mut fine = 0u32;
    let mut at = 0;
    for _ in 0..CALLS {
        if on_store(rows, call, at) {
            fine = fine.saturating_add(1);
        }
        at = after(at, rows.paths.len());
    }
    fine
}

/// How many of the calls were answered.
fn all_on_map<L: Ledger>(alloc: Global, rows: &mut Rows<L>, call: Call) -> Result<u32> {
    let mut fine = 0u32;
    let mut at = 0;
    for _ in 0..CALLS {
        if on_map(alloc, rows, call, at)? {
            fine = fine.saturating_add(1);
        }
        at = after(at, rows.paths.len());
    }
    Ok(fine)
}

/// Prints the microseconds of one call.
fn report<L: Ledger>(rt: &(impl Print + AllocGlobal + Clock), blank: Blank, many: u32) -> Result<()>
    requires name { blank.name ≡ L.name }
    requires parts { blank.parts ≡ L.parts }
    requires some { 0 < L.parts }
{
    let alloc = rt.alloc();
    let mut rows = made::<L>(alloc, blank, many)?;
    for call in [Call::Get, Call::Put, Call::Append, Call::Unset] {
        let name = call.name();
        let start = Instant::now(rt)?;
        let fine = all_on_store(&mut rows, call);
        let store = start.elapsed(rt)?.as_secs_f64() * 1_000.0;
        let start = Instant::now(rt)?;
        let alone = all_on_map(alloc, &mut rows, call)?;
        let map = start.elapsed(rt)?.as_secs_f64() * 1_000.0;
        println!(rt; "{many} rows, {name}: store {store} us ({fine}), map {map} us ({alone})")?;
    }
    Ok(())
}

/// Prints the microseconds of one call on so many rows.
fn report_at(rt: &(impl Print + AllocGlobal + Clock), many: u32) -> Result<()> {
    report::<Brand>(rt, Blank::new(1), many)
}

/// Prints the times.
pub(crate) fn run(rt: &(impl Print + AllocGlobal + Clock)) -> Result<()> {
    for many in [10u32, 100, 1_000, 10_000, 100_000] {
        report_at(rt, many)?;
    }
    Ok(())
}
