// What is heard of scripts. What is expected comes from the grammar and the places in the texts, not from the program.
use ksh_base::{Memory, Text};
use ksh_scan::{SyntaxRefused, check_text, slice};
use ksh_syntax::{Kind, Mark};
use script_notes::{Cursor, Event, Note, Notes, note_script};
use std::alloc::Global;
use std::test::Fail;
use tree_parts::Moment;

// An event: a token in brackets, braces round bodies.
fn tell(out: &mut Text, text: &[u8], event: Event) -> Result<(), Memory> {
    match event {
        Event::Token(sign) => {
            out.push(b'[')?;
            out.append(slice(text, sign.from, sign.to))?;
            out.push(b']')
        }
        Event::Mark(_, _) => Ok(()),
        Event::BodyBegins => out.push(b'{'),
        Event::BodyEnds => out.push(b'}'),
    }
}

// What is heard of the notes.
fn heard(alloc: Global, text: &[u8], notes: &Notes) -> Result<Text, Memory> {
    let mut cursor = Cursor::new(alloc)?;
    let mut out = Text::empty(alloc);
    for _ in 0..u64::MAX {
        let Some(event) = cursor.next(notes)? else {
            return Ok(out);
        };
        tell(&mut out, text, event)?;
    }
    Ok(out)
}

#[test]
fn bodies_are_heard_behind_their_words(rt: HostRuntime) -> Result<(), Fail> {
    let alloc = rt.alloc();
    let rows: [(&[u8], &[u8]); 8] = [
        (b"", b"[]"),
        (b"a b;c", b"[a][b][;][c][]"),
        (
            b"cat <<A <<B\none\nA\ntwo\nB\nprint",
            b"[cat][<<][A]{[one][\n]}[<<][B]{[two][\n]}[\n][print][]",
        ),
        (
            b"cat <<E\n$(cat <<F\nin\nF\n)\nE\n",
            b"[cat][<<][E]{[$(][cat][<<][F]{[in][\n]}[\n][)][\n]}[\n][]",
        ),
        (
            b"if a; then cat <<E; fi\nb\nE\n",
            b"[if][a][;][then][cat][<<][E]{[b][\n]}[;][fi][\n][]",
        ),
        (
            b"cat <<E <<F\n$(cat <<G\ng\nG\n)\nE\nf\nF\n",
            b"[cat][<<][E]{[$(][cat][<<][G]{[g][\n]}[\n][)][\n]}[<<][F]{[f][\n]}[\n][]",
        ),
        (
            b"cat <<'E' >f\n$a\nE\n",
            b"[cat][<<][]['E'][]{[$a][\n]}[>][f][\n][]",
        ),
        (
            b"cat <<E; cat <<F\nE\nF\n",
            b"[cat][<<][E]{}[;][cat][<<][F]{}[\n][]",
        ),
    ];
    for (text, expected) in rows {
        let notes = note_script(alloc, text)?;
        let told = heard(alloc, text, &notes)?;
        assert!(rt; told.bytes() == expected);
    }
    Ok(())
}

#[test]
fn marks_stand_between_tokens(rt: HostRuntime) -> Result<(), Fail> {
    let alloc = rt.alloc();
    let rows: [(&[u8], Moment); 3] = [
        (
            b"a",
            Moment {
                to: 0,
                from: 0,
                line: 1,
            },
        ),
        (
            b"\n\n b",
            Moment {
                to: 2,
                from: 3,
                line: 3,
            },
        ),
        (
            b"cat <<E\nbody\nE\nprint",
            Moment {
                to: 0,
                from: 0,
                line: 1,
            },
        ),
    ];
    for (text, expected) in rows {
        let notes = note_script(alloc, text)?;
        let named = Note::Mark(Mark::CommandName, expected);
        assert!(rt; notes.of(0).contains(&named));
    }
    let notes = note_script(alloc, b"cat <<E\nbody\nE\nprint")?;
    let behind = Moment {
        to: 13,
        from: 15,
        line: 4,
    };
    assert!(rt; notes.of(0).contains(&Note::Mark(Mark::CommandName, behind)));
    Ok(())
}

#[test]
fn a_text_without_notes_has_the_same_fault(rt: HostRuntime) -> Result<(), Fail> {
    let alloc = rt.alloc();
    let texts: [&[u8]; 4] = [b"if", b"cat <<E\n", b"a\n((1+))", b"a 'b"];
    for text in texts {
        assert!(rt; note_script(alloc, text).err() == check_text(alloc, text).err());
    }
    Ok(())
}

// So many here-documents on one line, each with a body of one line.
fn documents(alloc: Global, count: usize) -> Result<Text, Memory> {
    let mut text = Text::of(alloc, b"cat")?;
    for _ in 0..count {
        text.append(b" <<E")?;
    }
    text.append(b"\n")?;
    for _ in 0..count {
        text.append(b"b\nE\n")?;
    }
    Ok(text)
}

#[test]
fn many_bodies_are_noted_and_heard(rt: HostRuntime) -> Result<(), Fail> {
    let alloc = rt.alloc();
    let text = documents(alloc, 20_000)?;
    let notes = note_script(alloc, text.bytes())?;
    let mut cursor = Cursor::new(alloc)?;
    let mut bodies = 0u64;
    let mut line = 0;
    for _ in 0..u64::MAX {
        match cursor.next(&notes)? {
            None => break,
            Some(Event::BodyBegins) => bodies = bodies.saturating_add(1),
            Some(Event::Token(sign)) if sign.kind == Kind::End => line = sign.line,
            Some(_) => {}
        }
    }
    assert!(rt; bodies == 20_000 && line == 40_002);
    Ok(())
}
