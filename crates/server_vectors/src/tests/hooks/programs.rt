// Programs of the system, each run to its end.
use crate::tests::lines::column;
use account_hooks::Spawner;
use host_world::HostSpawner;
use std::alloc::Global;
use std::test::Fail;

/// Each row: a program and its arguments, and what comes of it. An end has its code, and a signal none; an argument
/// comes as it is, with no shell between; there is nothing to read.
const ROWS: &str = "true|Exited(0)
false|Exited(1)
sh,-c,test \"$1\" = 'a b  * $HOME' && test -z \"$2\" && test $# = 2,sh,a b  * $HOME,,|Exited(0)
sh,-c,read line|Exited(1)
sh,-c,kill -9 $$|Failed
/bin|Failed
no-such-program,1,create,user,CORP,1000,alice|Failed
sh,-c,exit 3,add,1|Exited(3)";

/// The texts between signs.
pub fn texts_of(alloc: Global, words: &str, sign: char) -> Result<Vec<String>, Fail> {
    let mut texts = Vec::new(alloc);
    for word in words.split_terminator(sign) {
        texts.push(String::from_str(alloc, word)?)?;
    }
    Ok(texts)
}

fn told(rt: &HostRuntime, spawner: &mut HostSpawner, words: &str) -> Result<String, Fail> {
    let (program, rest) = words.split_once(',').unwrap_or((words, ""));
    let arguments = texts_of(rt.alloc(), rest, ',')?;
    let ran = spawner.run(program, arguments.as_slice());
    drop(arguments);
    Ok(format!(in rt.alloc(); "{ran:?}")?)
}

/// What is kept of the last run that failed.
fn kept(alloc: Global, spawner: HostSpawner) -> Result<String, Fail> {
    match spawner.into_trouble() {
        Some(run) => Ok(format!(in alloc; "{run}")?),
        None => Ok(String::new(alloc)),
    }
}

#[test]
fn programs_are_run_to_their_ends(rt: HostRuntime) -> Result<(), Fail> {
    let mut spawner = HostSpawner::new(&rt);
    for row in ROWS.lines() {
        let (words, wanted) = column(row);
        assert_eq!(rt; told(&rt, &mut spawner, words)?.as_str(), wanted, "{row}");
    }
    assert_eq!(rt;
        kept(rt.alloc(), spawner)?.as_str(),
        "sh -c exit 3 add 1: exit status: 3"
    );
    Ok(())
}
