//! Plans, and the pages that show them.
use crate::tasks::{CutWriter, Refusal};
use cc_io::Device;
use cc_play::PlayFault;
use cc_show::show::show;
use cc_show::{Form, ShowFault, tell_shown};
use std::alloc::Global;
use std::process::Abort;

/// The outcome of an input.
#[derive(Drop)]
struct Outcome {
    status: u8,
    output: Vec<u8>,
    errors: Vec<u8>,
}

fn shown(alloc: Global, input: &str) -> Outcome {
    let mut output = Vec::new(alloc);
    let mut errors = Vec::new(alloc);
    let mut sink = Device::new(&mut output);
    let outcome = show(
        alloc,
        Form::Page,
        &mut Device::new(input.as_bytes()),
        &mut sink,
    );
    let status = tell_shown(&mut Device::new(&mut errors), outcome);
    Outcome {
        status,
        output,
        errors,
    }
}

/// The part of a page after this mark, up to the end of its element.
fn part<'a>(page: &'a str, mark: &str) -> &'a str {
    match page.split_once(mark) {
        Some((_, behind)) => behind.split_once("</script>").map_or("", |parts| parts.0),
        None => "",
    }
}

/// A plan in which one item is passed on.
const FIRST: &str =
    r#"{"capacity":2,"bound":2,"life":10,"senders":[[7]],"receivers":[1],"schedule":[["s1",100],["r1",100]]}"#;

/// Its configuration and calls, and its events: the steps of a lone send and of a lone take, in the order of
/// docs/ARCHITECTURE.md.
const RUN: &str = " 1 2 2 10 1 1 1\n s 7\n 1\n \
    0 7 0 1 0 2 0 8 0 8 0 9 0 3 0 10 0 11 0 11 0 5 0 5 0 5 0 15 0 16 0 16 0 17 0 17 0 5 0 18 0 6 0 6 0 6 0 12 0 13 0 10 0 4 0 14 \
    1 7 1 1 1 2 1 9 1 3 1 10 1 5 1 5 1 19 1 20 1 20 1 6 1 6 1 21 1 12 1 12 1 12 1 13 1 10 1 4 1 14 1 14 1 14\n";

const REPORT: &str = "E 0 s1 send 7 -> accepted 0\nD 0 r1 take -> got 0 s1 1 7\naudit clean\n";

/// A plan of version 2 in which an item of two words is passed on to two groups.
const SECOND: &str =
    r#"{"version":2,"groups":2,"capacity":2,"bound":2,"life":10,"senders":[[[7,8]]],"receivers":[1,1],"schedule":[["s1",100],["r1",100],["r2",100]]}"#;

/// Its report, which names the group of each take.
const OF_GROUPS: &str =
    "E 0 s1 send 7 8 -> accepted 0\nD 1 0 r1 take -> got 0 s1 1 7 8\nD 2 0 r2 take -> got 0 s1 1 7 8\naudit clean\n";

/// A page as a text.
fn page_of(outcome: &Outcome) -> &str {
    str::from_utf8(&outcome.output).unwrap_or("")
}

/// The content of a part of a page.
fn has_part<R: Abort>(rt: &R, page: &str, mark: &str, text: &str) {
    assert_eq!(rt; part(page, mark), text);
}

/// A page from its first line to its last.
fn is_whole<R: Abort>(rt: &R, page: &str) {
    assert!(rt; page.starts_with("<!DOCTYPE html>") && page.ends_with("</html>\n"));
}

#[test]
fn a_page_has_the_run_and_the_report(rt: HostRuntime) {
    let outcome = shown(rt.alloc(), FIRST);
    let page = page_of(&outcome);
    is_whole(&rt, page);
    has_part(&rt, page, "id=\"run\">", RUN);
    has_part(&rt, page, "id=\"report\">", REPORT);
    assert!(rt; outcome.status == 0 && outcome.errors.is_empty());
}

#[test]
fn a_page_names_the_groups(rt: HostRuntime) {
    let outcome = shown(rt.alloc(), SECOND);
    has_part(&rt, page_of(&outcome), "id=\"report\">", OF_GROUPS);
}

/// This has to hold if a write fails after this number of bytes.
fn holds<R: Abort>(rt: &R, takes: usize, is: bool) {
    assert!(rt; is, "{takes}");
}

/// After this number of bytes of a page a write fails: this is reported, exactly these bytes are written, and nothing
/// after the failure.
fn write_fails<R: Abort>(rt: &R, alloc: Global, page: &str, takes: usize) {
    let mut sink = CutWriter::new(alloc, takes, usize::MAX, Refusal::Error);
    let outcome = show(
        alloc,
        Form::Page,
        &mut Device::new(FIRST.as_bytes()),
        &mut sink,
    );
    let is_told = matches!(outcome, Err(ShowFault::Play(PlayFault::Write)));
    holds(rt, takes, is_told);
    holds(rt, takes, sink.has_front(page, takes));
    holds(rt, takes, sink.has_failed_once());
}

/// A write fails before the first of these words of a page.
fn write_fails_before<R: Abort>(rt: &R, alloc: Global, page: &str, words: &str) {
    match page.split_once(words) {
        Some((front, _)) => write_fails(rt, alloc, page, front.len()),
        None => holds(rt, 0, false),
    }
}

/// A write fails after every two thousandth byte of a page, and within its run and its report.
#[test]
fn writes_of_a_page_fail(rt: HostRuntime) {
    let whole = shown(rt.alloc(), FIRST);
    let page = page_of(&whole);
    assert!(rt; page.len() > 30_000);
    for part in 0..page.len() / 2000 {
        write_fails(&rt, rt.alloc(), page, part * 2000);
    }
    write_fails_before(&rt, rt.alloc(), page, " 7 1 1 1 2 1 9");
    write_fails_before(&rt, rt.alloc(), page, "r1 take -> got 0 s1 1 7\naudit");
}

/// The title of an input, its status, what is reported, and the input.
const ROWS: [(&str, u8, &str, &str); 3] = [
    (
        "20000 events: three, and a pass that waits",
        0,
        "",
        r#"{"capacity":2,"bound":2,"life":10,"senders":[[7],[9]],"receivers":[0],"schedule":[["s1",3],["s2",19997]]}"#,
    ),
    (
        "one more",
        5,
        "ccq: more than 20000 events\n",
        r#"{"capacity":2,"bound":2,"life":10,"senders":[[7],[9]],"receivers":[0],"schedule":[["s1",3],["s2",19998]]}"#,
    ),
    ("no plan", 2, "ccq: plan refused: P1\n", ""),
];

/// This has to hold of a row of the list.
fn is_so<R: Abort>(rt: &R, is: bool, what: &str) {
    assert!(rt; is, "{what}");
}

/// A row of the list: a page if the status is 0, and else none.
fn is_shown<R: Abort>(rt: &R, alloc: Global, what: &str, status: u8, told: &str, input: &str) {
    let outcome = shown(alloc, input);
    is_so(rt, outcome.status == status, what);
    is_so(rt, outcome.errors.as_slice() == told.as_bytes(), what);
    is_so(rt, outcome.output.is_empty() == (status != 0), what);
}

#[test]
fn pages_have_a_limit(rt: HostRuntime) {
    for (what, status, told, input) in ROWS {
        is_shown(&rt, rt.alloc(), what, status, told, input);
    }
}
