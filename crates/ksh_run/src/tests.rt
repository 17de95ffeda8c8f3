// Runs over the world of lists.
use crate::{Checked, Ended, Why, check_script, run_shell};
use kernel_ask::{Answer, Ask, Call, Entry, ListPort, ListWorld, Refusal};
use ksh_base::{BytesSource, Memory, Place, ShellName, Text, UsageFault};
use ksh_lexer::{SyntaxFault, SyntaxKind};
use shell_state::Start;
use shell_thread::{FewSpawner, NoAlbum, ShellEnd, ShellStop};
use std::alloc::Global;
use std::test::Fail;
use std::thread::Threads;

type Run = Ended<ListPort<Start>, NoAlbum>;

// What a run told: how it ended, and what the root wrote, each Write ended by `|`.
#[derive(Drop)]
struct Account {
    why: Why,
    status: u8,
    stop: ShellStop,
    out: Text,
    errors: Text,
    asks: usize,
}

// A run of words over a source of these bytes, whose root gets these answers, and whose first start is refused or not.
fn run<R: Threads + AllocGlobal + Copy + Send + 'static>(
    rt: R,
    words: &[&[u8]],
    fails: Vec<u64>,
    answers: Vec<Answer>,
    refused: Vec<u32>,
) -> Result<Run, Memory> {
    let alloc = rt.alloc();
    let mut texts = Vec::new(alloc);
    for word in words {
        texts.push(Text::of(alloc, word)?)?;
    }
    let mut lists = Vec::new(alloc);
    lists.push((ShellName::root(alloc), answers))?;
    let mut source = BytesSource::new(Text::of(alloc, b"print a\n")?, fails);
    Ok(run_shell(
        alloc,
        texts.as_slice(),
        &[],
        &mut source,
        ListWorld::new(lists),
        FewSpawner::new(rt, refused),
        NoAlbum,
    ))
}

// The bytes of the Writes on that handle, each ended by `|`.
fn written(alloc: Global, entries: &[Entry<Start>], on: u32) -> Result<Text, Memory> {
    let mut text = Text::empty(alloc);
    for entry in entries {
        if let Ask::Asked(Call::Write { handle, bytes }) = &entry.ask {
            if handle.0 == on {
                text.append(bytes.bytes())?;
                text.push(b'|')?;
            }
        }
    }
    Ok(text)
}

fn told(alloc: Global, ended: Run) -> Result<Account, Memory> {
    let Ended { status, why, root } = ended;
    let Some(root) = root else {
        return Err(Memory);
    };
    let ShellEnd { stop, port, .. } = root;
    let out = written(alloc, port.entries(), 1)?;
    let errors = written(alloc, port.entries(), 2)?;
    let asks = port.entries().len();
    Ok(Account {
        why,
        status,
        stop,
        out,
        errors,
        asks,
    })
}

// A run with no failing read, no listed answer but perhaps a refusal, and threads for all.
fn tell<R: Threads + AllocGlobal + Copy + Send + 'static>(
    rt: R,
    words: &[&[u8]],
    refusal: Option<Refusal>,
) -> Result<Account, Memory> {
    let alloc = rt.alloc();
    let mut answers = Vec::new(alloc);
    if let Some(refusal) = refusal {
        answers.push(Answer::Refused(refusal))?;
    }
    told(
        alloc,
        run(rt, words, Vec::new(alloc), answers, Vec::new(alloc))?,
    )
}

#[test]
fn scripts_are_run_or_refused(rt: HostRuntime) -> Result<(), Fail> {
    let t = tell(rt, &[b"-c", b"print hello"], None)?;
    assert!(rt; t.why == Why::Meant && t.status == 0 && t.asks == 1);
    assert!(rt; t.out.bytes() == b"hello\n|".as_slice());
    let t = tell(rt, &[b"-c", b""], None)?;
    assert!(rt; t.why == Why::Meant && t.status == 0 && t.asks == 0);
    let t = tell(rt, &[b"-c", b"print a;;"], None)?;
    assert!(rt; t.stop == ShellStop::Before && t.status == 2 && t.asks == 1);
    let line = b"kshtree: syntax fault 1 at line 1, byte 7: UnexpectedToken\n|".as_slice();
    assert!(rt; t.errors.bytes() == line);
    let t = tell(rt, &[], None)?;
    assert!(rt; t.errors.bytes() == b"kshtree: usage fault 1 at word 1\n|".as_slice());
    Ok(())
}

#[test]
fn long_output_is_written_in_pieces(rt: HostRuntime) -> Result<(), Fail> {
    let mut script = Text::of(rt.alloc(), b"print ")?;
    for _ in 0..5_000 {
        script.push(b'a')?;
    }
    let t = tell(rt, &[b"-c", script.bytes()], None)?;
    assert!(rt; t.why == Why::Meant && t.status == 0 && t.asks == 2);
    let out = t.out.bytes();
    assert!(rt;
        out.len() == 5_003 && out.get(4_095) == Some(&b'a') && out.get(4_096) == Some(&b'|')
    );
    assert!(rt; out.get(5_001) == Some(&b'\n') && out.get(5_002) == Some(&b'|'));
    Ok(())
}

#[test]
fn refused_writes_are_told_and_broken_ones_end(rt: HostRuntime) -> Result<(), Fail> {
    let t = tell(rt, &[b"-c", b"print a"], Some(Refusal::Io))?;
    assert!(rt; t.why == Why::Meant && t.status == 1 && t.asks == 2);
    assert!(rt; t.errors.bytes() == b"kshtree: line 1: print: refused\n|".as_slice());
    let t = tell(rt, &[b"-c", b"print a"], Some(Refusal::Broken))?;
    assert!(rt; t.why == Why::Meant && t.status == 141 && t.asks == 1);
    Ok(())
}

#[test]
fn budgets_sources_and_threads(rt: HostRuntime) -> Result<(), Fail> {
    let alloc = rt.alloc();
    let script = b"x=1; (x=2; print $x); print $x".as_slice();
    let t = tell(rt, &[b"--budget=7", b"-c", script], None)?;
    assert!(rt; t.why == Why::Meant && t.asks == 4 && t.out.bytes() == b"1\n|".as_slice());
    let t = tell(rt, &[b"--budget=6", b"-c", script], None)?;
    assert!(rt; t.why == Why::Spent && t.status == 123 && t.asks == 3);
    let t = tell(rt, &[b"f"], None)?;
    assert!(rt; t.out.bytes() == b"a\n|".as_slice());
    let mut fails = Vec::new(alloc);
    fails.push(1u64)?;
    let t = told(
        alloc,
        run(rt, &[b"f"], fails, Vec::new(alloc), Vec::new(alloc))?,
    )?;
    assert!(rt; t.why == Why::SourceFault && t.status == 122);
    let mut refused = Vec::new(alloc);
    refused.push(0u32)?;
    let words: [&[u8]; 2] = [b"-c", b"(print a)"];
    let t = told(
        alloc,
        run(rt, &words, Vec::new(alloc), Vec::new(alloc), refused)?,
    )?;
    assert!(rt; t.why == Why::Meant && t.status == 254 && t.out.is_empty());
    Ok(())
}

const CASE: &[u8] = b"case $x in a | b) print c;; esac\nf() { print <<E; }\n$(d)\nE\n";

fn fault(kind: SyntaxKind, line: u32, byte: u32) -> Why {
    let place = Place { line, byte };
    Why::Syntax(SyntaxFault { kind, place })
}

#[test]
fn checked_scripts_are_not_run(rt: HostRuntime) -> Result<(), Fail> {
    for script in [b"print a".as_slice(), b"", CASE] {
        let t = tell(rt, &[b"-n", b"-c", script], None)?;
        assert!(rt; t.why == Why::Meant && t.status == 0 && t.asks == 0);
        assert!(rt; t.stop == ShellStop::Before);
    }
    let t = tell(rt, &[b"--budget=1", b"-n", b"f"], None)?;
    assert!(rt; t.why == Why::Meant && t.status == 0 && t.asks == 0);
    let t = tell(rt, &[b"-n", b"-c", b"print a\nprint b;;"], None)?;
    assert!(rt; t.why == fault(SyntaxKind::UnexpectedToken, 2, 15));
    assert!(rt; t.status == 2 && t.asks == 1 && t.stop == ShellStop::Before);
    let line = b"kshtree: syntax fault 1 at line 2, byte 15: UnexpectedToken\n|".as_slice();
    assert!(rt; t.errors.bytes() == line && t.out.is_empty());
    let t = tell(rt, &[b"-n", b"-n", b"f"], None)?;
    assert!(rt; t.why == Why::Usage(UsageFault { kind: 3, word: 2 }) && t.status == 2);
    assert!(rt; t.errors.bytes() == b"kshtree: usage fault 3 at word 2\n|".as_slice());
    Ok(())
}

// What a check of the words over a source of these bytes says.
fn check(alloc: Global, words: &[&[u8]], bytes: &[u8], fails: Vec<u64>) -> Result<Checked, Memory> {
    let mut texts = Vec::new(alloc);
    for word in words {
        texts.push(Text::of(alloc, word)?)?;
    }
    let mut source = BytesSource::new(Text::of(alloc, bytes)?, fails);
    check_script(alloc, texts.as_slice(), &mut source)
}

fn is_refused(checked: &Checked, want: u8, cause: Why, line: &[u8]) -> bool {
    match checked {
        Checked::Fine => false,
        Checked::Refused { status, why, text } => {
            *status == want && *why == cause && text.bytes() == line
        }
    }
}

#[test]
fn checks_say_the_first_fault(rt: HostRuntime) -> Result<(), Fail> {
    let alloc = rt.alloc();
    for words in [[b"-n".as_slice(), b"f"], [b"--", b"f"]] {
        let c = check(alloc, &words, CASE, Vec::new(alloc))?;
        assert!(rt; matches!(c, Checked::Fine));
        let c = check(alloc, &words, b"print a\n( b", Vec::new(alloc))?;
        let why = fault(SyntaxKind::UnexpectedEnd, 2, 11);
        let line = b"kshtree: syntax fault 2 at line 2, byte 11: UnexpectedEnd\n".as_slice();
        assert!(rt; is_refused(&c, 2, why, line));
        let mut fails = Vec::new(alloc);
        fails.push(1u64)?;
        let c = check(alloc, &words, b"print a", fails)?;
        let line = b"kshtree: cannot read the script\n".as_slice();
        assert!(rt; is_refused(&c, 122, Why::SourceFault, line));
    }
    let c = check(alloc, &[b"-n", b"-n", b"f"], b"(", Vec::new(alloc))?;
    let why = Why::Usage(UsageFault { kind: 3, word: 2 });
    assert!(rt; is_refused(&c, 2, why, b"kshtree: usage fault 3 at word 2\n"));
    Ok(())
}

#[test]
fn each_cut_is_a_script_or_has_a_fault(rt: HostRuntime) -> Result<(), Fail> {
    let alloc = rt.alloc();
    for end in 0..CASE.len() {
        let cut = &CASE[..end];
        let first = check(alloc, &[b"-c", cut], b"", Vec::new(alloc))?;
        let again = check(alloc, &[b"-c", cut], b"", Vec::new(alloc))?;
        let same = match (&first, &again) {
            (Checked::Fine, Checked::Fine) => true,
            (Checked::Refused { status, why, text }, again) => {
                is_refused(again, *status, *why, text.bytes())
            }
            _ => false,
        };
        assert!(rt; same);
    }
    Ok(())
}
