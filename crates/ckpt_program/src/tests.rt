use crate::check_rows::{ACCEPTED, SCAN, SYNTAX};
use crate::plain_rows::{NUMBERS, ORDER, Row, TRAPS, WHOLE_PROGRAMS};
use crate::report_rows::{LISTINGS, REPORTS};
use crate::rule_rows::{DIRECTIVES, NAMES, TYPES};
use crate::run_rows::{BOUNDED, BYTES, FUNCTIONS, LOOPS, READING};
use crate::top::ckpt;
use ckpt_base::{Bytes, MemShelf, MemSink, Text};
use disk_model::MemDisk;
use std::alloc::Global;
use std::process::Abort;
use std::test::Fail;

/// A command line over a shelf and a console in memory, and what it is to answer.
#[derive(Drop)]
struct Case<'a> {
    words: &'a [&'a str],
    source: &'a [u8],
    input: &'a [u8],
    /// The call of the shelf that fails, or 0.
    shelf_fails: u64,
    /// The call of the console that fails, or 0.
    console_fails: u64,
    status: u8,
    text: &'a [u8],
}

const PLAIN: [&str; 3] = ["plain", "source", "input"];

const CHECK: [&str; 2] = ["check", "source"];

const REPORT: [&str; 2] = ["report", "source"];

const COMPILE: [&str; 2] = ["compile", "source"];

const HI: &[u8] = b"int main(void){ putchar(72); putchar(105); return 0; }";

fn case_of<'a>(words: &'a [&'a str], source: &'a [u8], status: u8, text: &'a [u8]) -> Case<'a> {
    Case {
        words,
        source,
        input: b"",
        shelf_fails: 0,
        console_fails: 0,
        status,
        text,
    }
}

fn file(rt: &impl Abort, alloc: Global, name: &str, content: &[u8]) -> Result<(Text, Bytes), Fail> {
    let mut bytes = Bytes::with_room(alloc, content.len())?;
    assert!(rt; bytes.spare() >= content.len());
    bytes.append(content);
    Ok((Text::of(alloc, name)?, bytes))
}

fn holds(rt: &impl Abort, alloc: Global, case: &Case<'_>) -> Result<(), Fail> {
    let mut words = Vec::new(alloc);
    for word in case.words {
        words.push(Text::of(alloc, word)?)?;
    }
    let mut files = Vec::new(alloc);
    files.push(file(rt, alloc, "source", case.source)?)?;
    files.push(file(rt, alloc, "input", case.input)?)?;
    let mut shelf = MemShelf::new(files, vec![in alloc; case.shelf_fails]?);
    let mut disk = MemDisk::new(alloc, 0, 0, 0, Vec::new(alloc))?;
    let mut console = MemSink::new(alloc, 100_000, vec![in alloc; case.console_fails]?)?;
    let status = ckpt(alloc, &words, &mut shelf, &mut disk, &mut console);
    let status_is_right = status == case.status;
    assert!(rt; status_is_right, "status {status}");
    let text_is_right = console.bytes() == case.text;
    assert!(rt; text_is_right, "the text of status {status}");
    Ok(())
}

fn all_hold<'a>(
    rt: &impl Abort,
    alloc: Global,
    words: &'a [&'a str],
    rows: &'a [Row<'a>],
) -> Result<(), Fail> {
    for (source, status, text) in rows {
        holds(rt, alloc, &case_of(words, source, *status, text))?;
    }
    Ok(())
}

#[test]
fn plain_evaluates_whole_programs(rt: HostRuntime) -> Result<(), Fail> {
    let alloc = rt.alloc();
    all_hold(&rt, alloc, &PLAIN, &WHOLE_PROGRAMS)?;
    all_hold(&rt, alloc, &PLAIN, &LOOPS)?;
    all_hold(&rt, alloc, &PLAIN, &FUNCTIONS)
}

#[test]
fn plain_traps_and_keeps_the_order(rt: HostRuntime) -> Result<(), Fail> {
    let alloc = rt.alloc();
    all_hold(&rt, alloc, &PLAIN, &TRAPS)?;
    all_hold(&rt, alloc, &PLAIN, &ORDER)
}

#[test]
fn plain_writes_numbers_and_bytes(rt: HostRuntime) -> Result<(), Fail> {
    let alloc = rt.alloc();
    all_hold(&rt, alloc, &PLAIN, &NUMBERS)?;
    all_hold(&rt, alloc, &PLAIN, &BYTES)?;
    for (source, input, text) in READING {
        let case = Case {
            input,
            ..case_of(&PLAIN, source, 0, text)
        };
        holds(&rt, alloc, &case)?;
    }
    Ok(())
}

#[test]
fn a_bound_stops_before_the_next_step(rt: HostRuntime) -> Result<(), Fail> {
    let alloc = rt.alloc();
    for (source, until, status, text) in BOUNDED {
        let words = ["plain", "source", "input", "--until", until];
        holds(&rt, alloc, &case_of(&words, source, status, text))?;
    }
    Ok(())
}

#[test]
fn check_accepts_and_refuses(rt: HostRuntime) -> Result<(), Fail> {
    let alloc = rt.alloc();
    all_hold(&rt, alloc, &CHECK, &ACCEPTED)?;
    all_hold(&rt, alloc, &CHECK, &SCAN)?;
    all_hold(&rt, alloc, &CHECK, &SYNTAX)?;
    all_hold(&rt, alloc, &CHECK, &NAMES)?;
    all_hold(&rt, alloc, &CHECK, &TYPES)?;
    all_hold(&rt, alloc, &CHECK, &DIRECTIVES)
}

#[test]
fn report_names_the_excluded_cells(rt: HostRuntime) -> Result<(), Fail> {
    let alloc = rt.alloc();
    all_hold(&rt, alloc, &REPORT, &REPORTS)
}

#[test]
fn compile_lists_the_code(rt: HostRuntime) -> Result<(), Fail> {
    let alloc = rt.alloc();
    all_hold(&rt, alloc, &COMPILE, &LISTINGS)
}

/// A text with a part of it so many times in its middle.
fn around(
    alloc: Global,
    before: &[u8],
    part: &[u8],
    count: u32,
    after: &[u8],
) -> Result<Vec<u8>, Fail> {
    let mut text = Vec::from_slice(alloc, before)?;
    for _ in 0..count {
        text.extend_from_slice(part)?;
    }
    text.extend_from_slice(after)?;
    Ok(text)
}

/// A part that stands so many times in a text, at most so often and once more: both are checked.
#[derive(Drop)]
struct Limit<'a> {
    before: &'a [u8],
    part: &'a [u8],
    most: u32,
    after: &'a [u8],
    accepted: &'a [u8],
    refused: &'a [u8],
}

fn limits(rt: &impl Abort, alloc: Global, limit: &Limit<'_>) -> Result<(), Fail> {
    let most = around(alloc, limit.before, limit.part, limit.most, limit.after)?;
    holds(rt, alloc, &case_of(&CHECK, &most, 0, limit.accepted))?;
    let more = around(
        alloc,
        limit.before,
        limit.part,
        limit.most.saturating_add(1),
        limit.after,
    )?;
    holds(rt, alloc, &case_of(&CHECK, &more, 2, limit.refused))
}

#[test]
fn nodes_and_directives_have_limits(rt: HostRuntime) -> Result<(), Fail> {
    let alloc = rt.alloc();
    let nodes = Limit {
        before: b"int main(void){ ",
        part: b"putchar(65);",
        most: 2048,
        after: b" }",
        accepted: b"accepted cells 0 nodes 2048 excludes 0\n",
        refused: b"refused: 2049 nodes\n",
    };
    limits(&rt, alloc, &nodes)?;
    let excludes = Limit {
        before: b"int main(void){ ",
        part: b"EXCLUDE_HERE;",
        most: 64,
        after: b" }",
        accepted: b"accepted cells 0 nodes 64 excludes 64\n",
        refused: b"refused: 65 excludes\n",
    };
    limits(&rt, alloc, &excludes)
}

#[test]
fn locals_and_depth_have_limits(rt: HostRuntime) -> Result<(), Fail> {
    let alloc = rt.alloc();
    let locals = Limit {
        before: b"int main(void){ return 0; } long f(long n){ long r; ",
        part: b"{ long r; }",
        most: 62,
        after: b" }",
        accepted: b"accepted cells 0 nodes 1 excludes 0\n",
        refused: b"refused: too many locals in f\n",
    };
    limits(&rt, alloc, &locals)?;
    let sums = Limit {
        before: b"int main(void){ return 1",
        part: b"+1",
        most: 99,
        after: b"; }",
        accepted: b"accepted cells 0 nodes 1 excludes 0\n",
        refused: b"refused: syntax in line 1\n",
    };
    limits(&rt, alloc, &sums)
}

const USAGE: &[u8] =
    b"usage: ckpt plain|check|compile|report|run|restart|images|coalesce|clear|drill|generate|why\n";

#[test]
fn other_words_are_usage(rt: HostRuntime) -> Result<(), Fail> {
    let alloc = rt.alloc();
    let table: [&[&str]; 12] = [
        &[],
        &[""],
        &["check"],
        &["compile", "--source"],
        &["report", "source", "input"],
        &["check", "source", "input"],
        &["plain", "source"],
        &["plain", "source", "input", "more"],
        &["plain", "source", "--input"],
        &["plain", "source", "input", "--until"],
        &["plain", "source", "input", "--until", "01"],
        &[
            "plain",
            "source",
            "input",
            "--until",
            "18446744073709551616",
        ],
    ];
    for words in table {
        holds(&rt, alloc, &case_of(words, HI, 1, USAGE))?;
    }
    let words = [
        "plain",
        "source",
        "input",
        "--until",
        "18446744073709551615",
    ];
    holds(&rt, alloc, &case_of(&words, HI, 0, b"Hi\nend 0 steps 3\n"))
}

#[test]
fn each_call_of_the_outside_may_fail(rt: HostRuntime) -> Result<(), Fail> {
    let alloc = rt.alloc();
    let text = b"Hi\nend 0 steps 3\n";
    let missing = b"shelf fault\n";
    holds(
        &rt,
        alloc,
        &case_of(&["plain", "nothing", "input"], HI, 6, missing),
    )?;
    holds(
        &rt,
        alloc,
        &case_of(&["plain", "source", "nothing"], HI, 6, missing),
    )?;
    for command in ["check", "compile", "report"] {
        let words = [command, "nothing"];
        holds(&rt, alloc, &case_of(&words, HI, 6, missing))?;
    }
    // The source is opened and read twice, the second time to its end; then the input is opened and read to its end.
    for call in 1..7 {
        let case = Case {
            shelf_fails: call,
            ..case_of(&PLAIN, HI, 6, missing)
        };
        if call < 6 {
            holds(&rt, alloc, &case)?;
        } else {
            holds(
                &rt,
                alloc,
                &Case {
                    status: 0,
                    text,
                    ..case
                },
            )?;
        }
    }
    let unheard = Case {
        console_fails: 1,
        ..case_of(&PLAIN, HI, 7, b"")
    };
    holds(&rt, alloc, &unheard)?;
    let refused = Case {
        source: b"",
        status: 2,
        ..unheard
    };
    holds(&rt, alloc, &refused)
}

#[test]
fn files_past_their_limits_are_too_large(rt: HostRuntime) -> Result<(), Fail> {
    let alloc = rt.alloc();
    let long = vec![in alloc; b' '; 262_145]?;
    holds(
        &rt,
        alloc,
        &case_of(&PLAIN, &long, 11, b"too large: source\n"),
    )?;
    holds(
        &rt,
        alloc,
        &case_of(&CHECK, &long, 11, b"too large: source\n"),
    )?;
    holds(
        &rt,
        alloc,
        &case_of(&CHECK, &long[1..], 2, b"refused: no main\n"),
    )?;
    let input = vec![in alloc; b' '; 16_777_217]?;
    let case = Case {
        input: &input,
        ..case_of(&PLAIN, HI, 11, b"too large: input\n")
    };
    holds(&rt, alloc, &case)
}
