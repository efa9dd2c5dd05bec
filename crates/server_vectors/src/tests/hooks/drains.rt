// Drains over a gate and a spawner in memory.
use super::programs::texts_of;
use crate::tests::lines::{column, number};
use account_hooks::{Drained, HookJob, MadeRun, MemoryGate, MemorySpawner, Ran, drain};
use std::alloc::Global;
use std::fmt::Debug;
use std::test::Fail;

/// Each row: the jobs, each with its number first; how often the program may be run for each; how many drains there
/// are; how the runs end, `-` where one fails; and which takings out find the store failing. Then what is told: the
/// answers, the arguments of each run, and the number of the first job that is left.
const ROWS: &str =
    "1 create user CORP 1000 alice|3|1|1 - 0||Empty |1 create user CORP 1000 alice,1 create user CORP \
    1000 alice,1 create user CORP 1000 alice,|None
1 create user CORP 1000 alice|2|1|1 - 0||Held(1) |1 create user CORP 1000 alice,1 create user CORP 1000 alice,|Some(1)
1 create user CORP 1000 alice|3|1|0|1|StoreFault(1) |1 create user CORP 1000 alice,|Some(1)
|3|1|1||Empty ||None
1,2|3|1|0 0||Empty |1,2,|None
1,2|3|1|||Empty |1,2,|None
1,2|3|1|0 - - -||Held(2) |1,2,2,2,|Some(2)
1,2|3|2|0 - - -||Held(2) Empty |1,2,2,2,2,|None
1,2|1|2|0 4 4||Held(2) Held(2) |1,2,2,|Some(2)
3,5,6|3|1|2 0 2 2 0 0||Empty |3,3,5,5,5,6,|None
3,5,6|2|3|0 0|2 3|StoreFault(1) StoreFault(2) Empty |3,5,5,5,6,|None
1|1|1|256||Held(1) |1,|Some(1)
1|100|1|||Empty |1,|None";

fn job_of(alloc: Global, words: &str) -> Result<HookJob, Fail> {
    let (first, _) = words.split_once(' ').unwrap_or((words, ""));
    Ok(HookJob {
        number: number(first) as u64,
        arguments: texts_of(alloc, words, ' ')?,
    })
}

fn jobs_of(alloc: Global, words: &str) -> Result<Vec<HookJob>, Fail> {
    let mut jobs = Vec::new(alloc);
    for word in words.split_terminator(',') {
        jobs.push(job_of(alloc, word)?)?;
    }
    Ok(jobs)
}

/// The ends of runs in words, of which `-` is one that failed.
pub fn ends_of(alloc: Global, words: &str) -> Result<Vec<Ran>, Fail> {
    let mut ends = Vec::new(alloc);
    for word in words.split_whitespace() {
        ends.push(match word {
            "-" => Ran::Failed,
            code => Ran::Exited(number(code)),
        })?;
    }
    Ok(ends)
}

fn numbers_of(alloc: Global, words: &str) -> Result<Vec<u64>, Fail> {
    let mut numbers = Vec::new(alloc);
    for word in words.split_whitespace() {
        numbers.push(number(word) as u64)?;
    }
    Ok(numbers)
}

fn push<T: Debug>(told: &mut String, value: &T, end: char) -> Result<(), Fail> {
    write!(told, "{value:?}")?;
    told.push(end)?;
    Ok(())
}

fn push_texts(told: &mut String, texts: &[String]) -> Result<(), Fail> {
    let mut is_first = true;
    for text in texts {
        if !is_first {
            told.push(' ')?;
        }
        told.push_str(text.as_str())?;
        is_first = false;
    }
    told.push(',')?;
    Ok(())
}

fn made(spawner: &MemorySpawner) -> &[MadeRun] {
    match spawner.made() {
        Some(made) => made,
        None => &[],
    }
}

/// The arguments of each run, and its program where that isn't the one that is to be run.
pub fn push_runs(told: &mut String, spawner: &MemorySpawner) -> Result<(), Fail> {
    for run in made(spawner) {
        if run.program.as_str() != PROGRAM {
            told.push_str(run.program.as_str())?;
        }
        push_texts(told, run.arguments.as_slice())?;
    }
    told.push('|')?;
    Ok(())
}

const PROGRAM: &str = "/bin/add-user";

// Drains so often, and tells what came of it.
fn drains(
    spawner: &mut MemorySpawner,
    gate: &mut MemoryGate,
    tries: u32,
    count: u32,
    told: &mut String,
) -> Result<(), Fail> {
    for _i in 0..count {
        let answer: Drained = drain(spawner, gate, PROGRAM, tries.max(1));
        push(told, &answer, ' ')?;
    }
    told.push('|')?;
    push_runs(told, spawner)?;
    write!(told, "{:?}", gate.first_number())?;
    Ok(())
}

fn gate_of(alloc: Global, jobs: &str, failing: &str) -> Result<MemoryGate, Fail> {
    let failing = numbers_of(alloc, failing)?;
    let jobs = jobs_of(alloc, jobs)?;
    Ok(MemoryGate::new(alloc, jobs, failing))
}

fn told_of(alloc: Global, row: &str) -> Result<String, Fail> {
    let (jobs, rest) = column(row);
    let (tries, rest) = column(rest);
    let (count, rest) = column(rest);
    let (ends, rest) = column(rest);
    let (failing, _) = column(rest);
    let mut told = String::new(alloc);
    let mut spawner = MemorySpawner::new(alloc, ends_of(alloc, ends)?);
    let mut gate = gate_of(alloc, jobs, failing)?;
    drains(
        &mut spawner,
        &mut gate,
        number(tries),
        number(count),
        &mut told,
    )?;
    drop(gate);
    drop(spawner);
    Ok(told)
}

// What a row says is told.
fn wanted_of(row: &str) -> &str {
    let mut wanted = row;
    for _i in 0..5 {
        let (_, rest) = column(wanted);
        wanted = rest;
    }
    wanted
}

#[test]
fn drains_over_memory(rt: HostRuntime) -> Result<(), Fail> {
    for row in ROWS.lines() {
        assert_eq!(rt; told_of(rt.alloc(), row)?.as_str(), wanted_of(row), "{row}");
    }
    Ok(())
}

// The numbers from 1, each with a comma.
fn numbered(alloc: Global, count: u32) -> Result<String, Fail> {
    let mut text = String::new(alloc);
    for number in 1..=count {
        write!(text, "{number},")?;
    }
    Ok(text)
}

// A drain's answer, how many runs were made so far, and the number of the first job that is left.
fn counted(spawner: &mut MemorySpawner, gate: &mut MemoryGate) -> (Drained, usize, Option<u64>) {
    let answer = drain(spawner, gate, PROGRAM, 3);
    (answer, made(spawner).len(), gate.first_number())
}

#[test]
fn a_hundred_jobs_of_which_the_seventh_fails(rt: HostRuntime) -> Result<(), Fail> {
    let mut spawner = MemorySpawner::new(rt.alloc(), ends_of(rt.alloc(), "0 0 0 0 0 0 1 - 2")?);
    let mut gate = gate_of(rt.alloc(), numbered(rt.alloc(), 100)?.as_str(), "")?;
    assert_eq!(rt;
        counted(&mut spawner, &mut gate),
        (Drained::Held(7), 9, Some(7))
    );
    assert_eq!(rt;
        counted(&mut spawner, &mut gate),
        (Drained::Empty, 103, None)
    );
    Ok(())
}
