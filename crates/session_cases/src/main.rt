//! A tool that runs commands over files in memory. A case is a line `@@ WORDS` and, on the lines below it, the script `s.R`;
//! beside it lie the tables of `files_of`. For each case of the file cases.txt it prints the case, the number of the status,
//! and what the command wrote. A case whose words don't tell its batches runs once more at each of some sizes, and a line is
//! added where it then writes anything else.
#![tactic(auto)]

ghost use Rattle.std.specs.Prelude.{◌≡◌};
ghost use Rattle.std.specs.List.{list_any};
ghost use Rattle.outside_io.specs.Memory.{are_distinct as distinct, is_named as named};

use outside_io::{MemFiles, MemSink};
use scalar_value::{Mem, NoMemory, Seq, Text};
use script_session::{RunRecord, Status, run_single};
use std::alloc::Global;
use std::process::ExitCode;
use std::thread::Threads;
use std::{fs, io};

fn main(rt: HostRuntime) -> io::Result<ExitCode> {
    let cases = fs::read_to_string(&rt, "cases.txt")?;
    for case in cases.as_str().split("@@ ") {
        if !case.is_empty() {
            match transcript_of(&rt, rt.alloc(), case) {
                Ok(transcript) => print!(rt; "@@ {case}{}", transcript.as_str())?,
                Err(NoMemory) => return Ok(ExitCode::from(7)),
            }
        }
    }
    Ok(ExitCode::SUCCESS)
}

/// The most rows in a batch with which each case runs once more.
const SIZES: [&str; 3] = ["1", "2", "65536"];

// The status of a case, and what its command wrote; and a line where batches of another size changed it.
fn transcript_of<R: Threads + Sync>(rt: &R, alloc: Global, case: &str) -> Mem<Text> {
    let (words, script) = case.split_once('\n').unwrap_or((case, ""));
    let script = script.strip_suffix('\n').unwrap_or(script);
    let mut text = answer_of(rt, alloc, words, script, None)?;
    if !tells_batches(words) && depends_on_batches(rt, alloc, words, script, &text)? {
        text.push_str("it depends on the batches\n")?;
    }
    Ok(text)
}

// Whether the words say how many rows a batch has, or ask for the history, in which batches show.
fn tells_batches(words: &str) -> bool {
    words.contains("--batch") || words.contains("--report")
}

// Whether a case gives anything else at one of the sizes.
fn depends_on_batches<R: Threads + Sync>(
    rt: &R,
    alloc: Global,
    words: &str,
    script: &str,
    wanted: &Text,
) -> Mem<bool> {
    for size in SIZES {
        if answer_of(rt, alloc, words, script, Some(size))? != *wanted {
            return Ok(true);
        }
    }
    Ok(false)
}

// The status of these words over this script, and what the command wrote.
fn answer_of<R: Threads + Sync>(
    rt: &R,
    alloc: Global,
    words: &str,
    script: &str,
    size: Option<&str>,
) -> Mem<Text> {
    let mut files = files_of(alloc, script)?;
    let words = words_of(alloc, words, size)?;
    let mut out = MemSink::new(alloc, 1 << 16, 1 << 16, Seq::new(alloc))?;
    let mut err = MemSink::new(alloc, 1 << 12, 1 << 12, Seq::new(alloc))?;
    let mut journal = RunRecord {
        runs: Seq::new(alloc),
    };
    let status = run_single(
        rt,
        alloc,
        &words,
        &mut files,
        &mut out,
        &mut err,
        &mut journal,
    );
    let mut text = Text::of(alloc, status_line(status))?;
    push_bytes(&mut text, out.bytes())?;
    push_bytes(&mut text, err.bytes())?;
    Ok(text)
}

fn push_bytes(text: &mut Text, bytes: &[u8]) -> Mem<()> {
    match std::str::from_utf8(bytes) {
        Ok(written) => text.push_str(written),
        Err(_) => text.push_str("no text\n"),
    }
}

// The words of a line, behind those for batches of this size.
fn words_of(alloc: Global, line: &str, size: Option<&str>) -> Mem<Vec<String>> {
    let mut words = Vec::new(alloc);
    if let Some(size) = size {
        words.push(String::from_str(alloc, "--batch")?)?;
        words.push(String::from_str(alloc, size)?)?;
    }
    for word in line.split(' ') {
        if !word.is_empty() {
            words.push(String::from_str(alloc, word)?)?;
        }
    }
    Ok(words)
}

fn file_of(alloc: Global, name: &str, text: &str) -> Mem<(Text, Seq<u8>)> {
    Ok((
        Text::of(alloc, name)?,
        Seq::of_slice(alloc, text.as_bytes())?,
    ))
}

/// The files beside the script: their names and texts.
const TABLES: [(&str, &str); 16] = [
    (
        "t.csv",
        "id:int,g:chr,x:int\n1,a,10\n2,b,NA\n3,a,30\n4,NA,5\n",
    ),
    (
        "crlf.csv",
        "id:int,g:chr,x:int\r\n1,a,10\r\n2,b,NA\r\n3,a,30\r\n4,NA,5\r\n",
    ),
    (
        "unended.csv",
        "id:int,g:chr,x:int\n1,a,10\n2,b,NA\n3,a,30\n4,NA,5",
    ),
    (
        "marked.csv",
        "\u{feff}id:int,g:chr,x:int\n1,a,10\n2,b,NA\n3,a,30\n4,NA,5\n",
    ),
    ("n.csv", "id:int,x:int\n1,10\n2,NA\n3,30\n4,5\n"),
    (
        "d.csv",
        "k:chr,when:date,amount:dec,ok:lgl\n\"a,b\",2024-02-29,1.50,TRUE\n,NA,,FALSE\n",
    ),
    ("v.csv", "x:int\n7\n8\n9\n"),
    ("o.csv", "x:int\n5\n"),
    ("half.csv", "id:int,x:int\n1,1.5\n"),
    ("ragged.csv", "id:int,x:int\n1\n"),
    ("twice.csv", "a:int,a:chr\n"),
    (
        "orders.csv",
        "id:int,cust:int,day:date,amount:dec\n1,1,2024-01-29,12.50\n2,2,2024-01-31,7.25\n3,3,2024-02-01,NA\n4,1,2024-02-02,120.00\n5,4,2024-02-29,0.75\n6,2,2024-03-01,31.10\n",
    ),
    (
        "customers.csv",
        "cust:int,region:chr,since:date\n1,north,2019-05-14\n2,south,2021-11-30\n3,NA,2023-02-28\n4,north,2024-01-02\n",
    ),
    (
        "deliveries.csv",
        "delivery_id:int,depot:int,parcels:int,delay_minutes:int\n10231,4,12,0\n10232,4,7,45\n10233,2,31,NA\n10234,7,18,31\n10235,2,3,30\n10236,7,22,-5\n10237,4,9,120\n10238,1,15,NA\n10239,1,27,64\n",
    ),
    ("empty.csv", ""),
    ("header.csv", "x:int,g:chr\n"),
];

// The script and the tables, each under its name.
fn files_of(alloc: Global, script: &str) -> Mem<MemFiles> {
    let mut files = Seq::new(alloc);
    files.push(file_of(alloc, "s.R", script)?)?;
    for (name, text) in TABLES {
        files.push(file_of(alloc, name, text)?)?;
    }
    if !are_distinct(files.as_slice()) {
        return Err(NoMemory);
    }
    MemFiles::new(alloc, files, Seq::new(alloc))
}

fn is_named(name: &Text, files: &[(Text, Seq<u8>)]) -> bool
    ensures { result ≡ list_any (named name.now) files.now }
{
    files.iter().any(|file| file.0 == *name)
}

// Whether no two files have one name.
fn are_distinct(files: &[(Text, Seq<u8>)]) -> bool
    ensures { result ≡ distinct files.now }
{
    for (place, file) in files.iter().enumerate() {
        if is_named(&file.0, &files[place + 1..]) {
            return false;
        }
    }
    true
}

// The first line of what a case gives.
fn status_line(status: Status) -> &'static str {
    match status {
        Status::Done => "status 0\n",
        Status::Usage => "status 2\n",
        Status::Script => "status 3\n",
        Status::Table => "status 4\n",
        Status::Read => "status 5\n",
        Status::Write => "status 6\n",
        Status::Memory => "status 7\n",
    }
}
