//! Words without a reading, and reads and writes that fail.
use crate::tests::run::{Device, File, SOUND, Told, has_written, run, run_whole};
use cal_top::QueryRecord;
use cal_value::NoMemory;
use std::alloc::Global;
use std::test::Fail;

const ONE: &str =
    r#"{"defaultSchema":"S","schemas":[{"name":"S","tables":[{"name":"T","factory":"cal.MemTableFactory","operand":{"columns":["A:int"],"rows":[[1]]}}]}]}"#;

const TWO: &str =
    r#"{"defaultSchema":"S","schemas":[{"name":"S","tables":[{"name":"T","factory":"cal.MemTableFactory","operand":{"columns":["A:int"],"rows":[[1],[2]]}}]}]}"#;

const IN_FILES: &str =
    r#"{"defaultSchema":"S","schemas":[{"name":"S","tables":[{"name":"C","factory":"org.apache.calcite.adapter.csv.CsvTableFactory","operand":{"file":"c"}},{"name":"D","factory":"org.apache.calcite.adapter.csv.CsvTableFactory","operand":{"file":"d"}}]}]}"#;

const WITHOUT_READING: &[&[&str]] = &[
    &[],
    &["m"],
    &["m", "SELECT A FROM T", "x"],
    &["m", "SELECT A FROM T", "--budget", "0"],
    &["m", "SELECT A FROM T", "--budget", "x"],
    &["m", "SELECT A FROM T", "--budget", "5", "--budget", "6"],
    &["m", "SELECT A FROM T", "--budget"],
    &["m", "SELECT A FROM T", "--help"],
    &["m", "-x"],
];

const WITH_READING: &[&[&str]] = &[
    &["m", "SELECT A FROM T"],
    &["--", "m", "SELECT A FROM T"],
    &["--budget", "20000", "m", "SELECT A FROM T"],
];

// A run of these words over one model.
fn run_words(
    alloc: Global,
    model: &str,
    words: &[&str],
    device: Device<'_>,
) -> Result<Told, NoMemory> {
    let file = File {
        name: "m",
        bytes: model.as_bytes(),
    };
    run(alloc, words, &[file], device)
}

fn tells_usage(alloc: Global, words: &[&str]) -> Result<bool, NoMemory> {
    let told = run_words(alloc, ONE, words, SOUND)?;
    let is_told = has_written(&told, 2, "usage: calq MODEL SQL [--budget N]\n");
    Ok(is_told && told.files == 0)
}

fn tells_rows(alloc: Global, words: &[&str]) -> Result<bool, NoMemory> {
    let told = run_words(alloc, ONE, words, SOUND)?;
    Ok(has_written(&told, 0, "A\n1\n") && told.files > 0)
}

#[test]
fn words_of_a_command_line(rt: HostRuntime) -> Result<(), Fail> {
    let alloc = rt.alloc();
    for words in WITHOUT_READING {
        let is_told = tells_usage(alloc, *words)?;
        assert!(rt; is_told, "{}", words.len());
    }
    for words in WITH_READING {
        let is_told = tells_rows(alloc, *words)?;
        assert!(rt; is_told, "{}", words.len());
    }
    Ok(())
}

// A run over the model `m` and the first so many of the files `c` and `d`.
fn run_files(
    alloc: Global,
    model: &str,
    count: usize,
    device: Device<'_>,
) -> Result<Told, NoMemory> {
    let files = [
        File {
            name: "m",
            bytes: IN_FILES.as_bytes(),
        },
        File {
            name: "c",
            bytes: b"A:int\n1\n",
        },
        File {
            name: "d",
            bytes: b"B:int\n2\n",
        },
    ];
    run(
        alloc,
        &[model, "SELECT A, B FROM C LEFT JOIN D ON A = B"],
        &files[..1 + count.min(2)],
        device,
    )
}

// The read that fails, the status, the text, and how many files were read.
const READS: &[(u64, u8, &str, usize)] = &[
    (1, 5, "read fault\n", 0),
    (2, 5, "read fault\n", 0),
    (3, 5, "read fault\n", 1),
    (4, 5, "read fault\n", 1),
    (5, 5, "read fault\n", 2),
    (6, 5, "read fault\n", 2),
    (7, 0, "A, B\n1, NULL\n", 3),
];

fn ends_at_read(
    alloc: Global,
    number: u64,
    status: u8,
    text: &str,
    read: usize,
) -> Result<bool, NoMemory> {
    let device = Device {
        failing_reads: &[number],
        failing_writes: &[],
        most: 7,
    };
    let told = run_files(alloc, "m", 2, device)?;
    Ok(has_written(&told, status, text) && told.files == read)
}

#[test]
fn each_read_fails_once(rt: HostRuntime) -> Result<(), Fail> {
    let alloc = rt.alloc();
    for (number, status, text, read) in READS {
        let is_right = ends_at_read(alloc, *number, *status, *text, *read)?;
        assert!(rt; is_right, "{number}");
    }
    Ok(())
}

#[test]
fn files_that_are_not_there(rt: HostRuntime) -> Result<(), Fail> {
    let alloc = rt.alloc();
    let no_model = run_files(alloc, "n", 2, SOUND)?;
    assert!(rt; has_written(&no_model, 5, "read fault\n"));
    let no_table = run_files(alloc, "m", 1, SOUND)?;
    assert!(rt; has_written(&no_table, 5, "read fault\n"));
    Ok(())
}

const JOIN: &str = "SELECT X.A FROM T JOIN T AS X ON T.A < X.A";

const EXPLAIN: &str = "EXPLAIN PLAN FOR SELECT A FROM T";

// The statement, how many bytes a write takes, the write that fails, the status, what was being told, and the text.
const WRITES: &[(&str, u64, u64, u8, u8, &str)] = &[
    ("SELECT A FROM T", 100, 1, 6, 0, ""),
    ("SELECT A FROM T", 100, 2, 0, 0, "A\n1\n2\n"),
    (JOIN, 1, 1, 6, 0, ""),
    (JOIN, 1, 2, 6, 0, "A"),
    (JOIN, 1, 3, 6, 0, "A\n"),
    (JOIN, 1, 4, 6, 0, "A\n2"),
    (JOIN, 1, 5, 0, 0, "A\n2\n"),
    (EXPLAIN, 30, 2, 6, 0, "ToEnumerable rows=2 cost=8\n  M"),
    ("SELECT B FROM T", 8, 2, 6, 1, "refused "),
    (
        "SELECT B FROM T",
        8,
        5,
        1,
        1,
        "refused UnknownColumn name B\n",
    ),
];

fn run_write(alloc: Global, sql: &str, most: u64, number: u64) -> Result<Told, NoMemory> {
    let device = Device {
        failing_reads: &[],
        failing_writes: &[number],
        most,
    };
    run_words(alloc, TWO, &["m", sql], device)
}

#[test]
fn each_write_fails_once(rt: HostRuntime) -> Result<(), Fail> {
    let alloc = rt.alloc();
    for (sql, most, number, status, of, text) in WRITES {
        let told = run_write(alloc, *sql, *most, *number)?;
        let is_told = *status != 6 || told.sink_fault == Some(*of);
        let is_right = has_written(&told, *status, *text) && is_told;
        assert!(rt; is_right, "{sql} {most} {number}");
    }
    Ok(())
}

// Whether the one file of the record is the model.
fn keeps_model(record: &QueryRecord, model: &str) -> bool {
    match record.files.as_slice() {
        [file] => file.name.as_str() == "m" && file.bytes.as_slice() == model.as_bytes(),
        _ => false,
    }
}

// How many rows the first table has.
fn row_count(record: &QueryRecord) -> Option<usize> {
    match &record.db {
        Some(db) => db.tables.get(0).map(|rows| rows.len()),
        None => None,
    }
}

#[test]
fn the_record_keeps_files_and_tables(rt: HostRuntime) -> Result<(), Fail> {
    let file = File {
        name: "m",
        bytes: TWO.as_bytes(),
    };
    let words = ["m", "SELECT A FROM T WHERE A > 1"];
    let ran = run_whole(rt.alloc(), words.as_slice(), &[file], SOUND)?;
    let is_kept = keeps_model(&ran.record, TWO) && row_count(&ran.record) == Some(2);
    drop(ran);
    assert!(rt; is_kept);
    Ok(())
}
