use crate::{Command, WordsRefusal, read_words};
use std::alloc::Global;
use std::process::Abort;
use std::test::Fail;

// Words, and the command that they are, if they are one.
type Row<'a> = (&'a [&'a str], Option<Command<'a>>);

// Reads the words of each row.
fn compare<R: Alloc<A = Global> + Abort>(rt: &R, rows: &[Row<'_>]) -> Result<(), Fail> {
    for (words, wanted) in rows {
        let mut all = Vec::new(rt.alloc());
        for word in *words {
            all.push(String::from_str(rt.alloc(), word)?)?;
        }
        let read = read_words(rt.alloc(), all.as_slice());
        match wanted {
            Some(command) => assert_eq!(rt; read, Ok(*command), "{words:?}"),
            None => assert_eq!(rt; read, Err(WordsRefusal::Usage), "{words:?}"),
        }
    }
    Ok(())
}

// `pipe` with a limit, on the log L.
fn pipe(limit: u32) -> Option<Command<'static>> {
    Some(Command::Pipe { limit, log: "L" })
}

// `serve` of so many links and workers at the address A, on the log L.
fn serve(links: u32, workers: u32, limit: u32) -> Option<Command<'static>> {
    Some(Command::Serve {
        links,
        workers,
        limit,
        address: "A",
        log: "L",
    })
}

// `bench` of two links and one worker.
fn bench(count: u32, seed: u64, keep: Option<&'static str>) -> Option<Command<'static>> {
    Some(Command::Bench {
        links: 2,
        workers: 1,
        count,
        seed,
        keep,
    })
}

#[test]
fn pipe_has_a_limit_and_a_log(rt: HostRuntime) -> Result<(), Fail> {
    let rows: [Row<'_>; 24] = [
        (&["pipe", "L"], pipe(1_000_000)),
        (&["pipe", "--limit", "5", "L"], pipe(5)),
        (&["pipe", "L", "--limit=5"], pipe(5)),
        (&["pipe", "--limit", "+5", "L"], pipe(5)),
        (&["pipe", "--limit", "005", "L"], pipe(5)),
        (&["pipe", "--limit", "1", "L"], pipe(1)),
        (&["pipe", "--limit", "1000000", "L"], pipe(1_000_000)),
        (&["pipe", "--limit", "0", "L"], None),
        (&["pipe", "--limit", "1000001", "L"], None),
        (&["pipe", "--limit", "-5", "L"], None),
        (&["pipe", "--limit", "five", "L"], None),
        (&["pipe", "--limit=", "L"], None),
        (&["pipe", "--limit", "5", "--limit", "5", "L"], None),
        (&["pipe", "L", "--limit"], None),
        (&["pipe", "--limit", "5"], None),
        (&["pipe", "--links", "1", "L"], None),
        (&["pipe", "-l", "5", "L"], None),
        (&["pipe"], None),
        (&["pipe", "L", "M"], None),
        (&["pipe", "--help"], None),
        (&["pipe", "-h"], None),
        (&["pipe", "--version", "L"], None),
        (
            &["pipe", "--", "--limit"],
            Some(Command::Pipe {
                limit: 1_000_000,
                log: "--limit",
            }),
        ),
        (
            &["pipe", ""],
            Some(Command::Pipe {
                limit: 1_000_000,
                log: "",
            }),
        ),
    ];
    compare(&rt, rows.as_slice())
}

#[test]
fn serve_has_links_and_workers(rt: HostRuntime) -> Result<(), Fail> {
    let rows: [Row<'_>; 12] = [
        (
            &["serve", "--links", "2", "--workers", "1", "A", "L"],
            serve(2, 1, 1_000_000),
        ),
        (
            &["serve", "A", "--workers=4", "L", "--limit=7", "--links=16"],
            serve(16, 4, 7),
        ),
        (&["serve", "--links", "0", "--workers", "1", "A", "L"], None),
        (
            &["serve", "--links", "17", "--workers", "1", "A", "L"],
            None,
        ),
        (&["serve", "--links", "2", "--workers", "0", "A", "L"], None),
        (&["serve", "--links", "2", "--workers", "5", "A", "L"], None),
        (
            &[
                "serve",
                "--links",
                "2",
                "--workers",
                "1",
                "--limit",
                "0",
                "A",
                "L",
            ],
            None,
        ),
        (&["serve", "--workers", "1", "A", "L"], None),
        (&["serve", "--links", "2", "A", "L"], None),
        (&["serve", "--links", "2", "--workers", "1", "A"], None),
        (
            &["serve", "--links", "2", "--workers", "1", "A", "L", "M"],
            None,
        ),
        (
            &[
                "serve",
                "--links",
                "2",
                "--links",
                "2",
                "--workers",
                "1",
                "A",
                "L",
            ],
            None,
        ),
    ];
    compare(&rt, rows.as_slice())
}

#[test]
fn bench_has_a_count_and_a_seed(rt: HostRuntime) -> Result<(), Fail> {
    let rows: [Row<'_>; 12] = [
        (
            &["bench", "--links=2", "--workers=1", "--count=0", "--seed=0"],
            bench(0, 0, None),
        ),
        (
            &[
                "bench",
                "--links=2",
                "--workers=1",
                "--count=1000000",
                "--seed=18446744073709551615",
            ],
            bench(1_000_000, u64::MAX, None),
        ),
        (
            &[
                "bench",
                "--keep",
                "K",
                "--links=2",
                "--workers=1",
                "--count=-0",
                "--seed=+007",
            ],
            bench(0, 7, Some("K")),
        ),
        (
            &[
                "bench",
                "--links=2",
                "--workers=1",
                "--count=1000001",
                "--seed=0",
            ],
            None,
        ),
        (
            &[
                "bench",
                "--links=2",
                "--workers=1",
                "--count=-1",
                "--seed=0",
            ],
            None,
        ),
        (
            &[
                "bench",
                "--links=2",
                "--workers=1",
                "--count=1",
                "--seed=18446744073709551616",
            ],
            None,
        ),
        (
            &[
                "bench",
                "--links=2",
                "--workers=1",
                "--count=1",
                "--seed=-1",
            ],
            None,
        ),
        (&["bench", "--links=2", "--workers=1", "--count=1"], None),
        (&["bench", "--links=2", "--workers=1", "--seed=1"], None),
        (
            &[
                "bench",
                "--links=2",
                "--workers=1",
                "--count=1",
                "--seed=1",
                "--keep",
            ],
            None,
        ),
        (
            &[
                "bench",
                "--links=2",
                "--workers=1",
                "--count=1",
                "--seed=1",
                "K",
            ],
            None,
        ),
        (
            &[
                "bench",
                "--links=2",
                "--workers=1",
                "--count=1",
                "--seed=1",
                "--limit=5",
            ],
            None,
        ),
    ];
    compare(&rt, rows.as_slice())
}

#[test]
fn check_and_log_have_a_name(rt: HostRuntime) -> Result<(), Fail> {
    let rows: [Row<'_>; 7] = [
        (&["check", "N"], Some(Command::Check { name: "N" })),
        (&["check"], None),
        (&["check", "N", "M"], None),
        (&["log", "N"], Some(Command::Log { name: "N" })),
        (&["log", "-"], Some(Command::Log { name: "-" })),
        (&["log", "--limit", "5", "N"], None),
        (&["log"], None),
    ];
    compare(&rt, rows.as_slice())
}

#[test]
fn other_first_words_are_no_command(rt: HostRuntime) -> Result<(), Fail> {
    let rows: [Row<'_>; 7] = [
        (&[], None),
        (&[""], None),
        (&["--help"], None),
        (&["help"], None),
        (&["Pipe", "L"], None),
        (&["pip", "L"], None),
        (&["--limit", "5", "pipe", "L"], None),
    ];
    compare(&rt, rows.as_slice())
}
