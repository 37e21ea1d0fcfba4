//! Argument lists, each with the command or the fault that the grammar gives it.

use crate::command::{Command, Target};
use crate::reading::read_words;
use crate::usage::WordsFault;
use crate::words::Words;
use std::alloc::{AllocError, Global};
use std::process::Abort;
use std::test::Fail;

mod moments;

/// The words of a line with one space between each two.
fn words_of(alloc: Global, line: &str) -> Result<Words, Fail> {
    let mut words = Words::new(alloc);
    for word in line.split(' ') {
        if words.len() >= 100 {
            break;
        }
        words.push(word)?;
    }
    Ok(words)
}

/// The name of a command or a fault, and then its parts in their order.
fn shown(alloc: Global, read: &Result<Command, WordsFault>) -> Result<String, AllocError> {
    match read {
        Ok(command) => shown_command(alloc, command),
        Err(WordsFault::Usage(usage)) => {
            let (why, word) = (usage.why, usage.word);
            format!(in alloc; "{why:?} {word}")
        }
        Err(WordsFault::Memory) => String::from_str(alloc, "Memory"),
    }
}

fn shown_command(alloc: Global, command: &Command) -> Result<String, AllocError> {
    match command {
        Command::Replicate {
            db,
            replica,
            rounds,
            keep,
            at_rest,
        } => {
            let (db, replica) = (db.as_str(), replica.as_str());
            format!(in alloc; "Replicate {db} {replica} {rounds} {keep} {at_rest}")
        }
        Command::Restore {
            output,
            replica,
            target,
            if_db_not_exists,
            if_replica_exists,
        } => {
            let (output, replica) = (output.as_str(), replica.as_str());
            let target = shown_target(alloc, target)?;
            let target = target.as_str();
            format!(in alloc;
                "Restore {output} {replica} {target} {if_db_not_exists} {if_replica_exists}"
            )
        }
        Command::Ltx { replica } => {
            let replica = replica.as_str();
            format!(in alloc; "Ltx {replica}")
        }
        Command::Demo { seed, rounds } => format!(in alloc; "Demo {seed} {rounds}"),
    }
}

fn shown_target(alloc: Global, target: &Target) -> Result<String, AllocError> {
    match target {
        Target::Newest => String::from_str(alloc, "newest"),
        Target::At(txid) => {
            let number = txid.number();
            format!(in alloc; "txid {number}")
        }
        Target::Moment(moment) => format!(in alloc; "moment {moment}"),
    }
}

fn check(rt: &impl Abort, alloc: Global, table: &[(&str, &str)]) -> Result<(), Fail> {
    for (line, expected) in table {
        let words = words_of(alloc, line)?;
        let shown = shown(alloc, &read_words(alloc, &words))?;
        assert_eq!(rt; shown.as_str(), *expected, "{line}");
    }
    Ok(())
}

#[test]
fn no_words(rt: HostRuntime) -> Result<(), Fail> {
    let words = Words::new(rt.alloc());
    let shown = shown(rt.alloc(), &read_words(rt.alloc(), &words))?;
    assert_eq!(rt; shown.as_str(), "NoCommand 0");
    assert!(rt; words.is_empty());
    Ok(())
}

#[test]
fn words_are_kept_in_order(rt: HostRuntime) -> Result<(), Fail> {
    let words = words_of(rt.alloc(), "ltx r")?;
    assert_eq!(rt; words.len(), 2);
    assert_eq!(rt; words.get(1).ok_or("a word")?, "r");
    assert!(rt; words.get(2).is_none());
    Ok(())
}

const COMMANDS: [(&str, &str); 44] = [
    ("", "UnknownCommand 0"),
    ("restor", "UnknownCommand 0"),
    ("Restore", "UnknownCommand 0"),
    ("-h", "UnknownCommand 0"),
    ("replicate d r", "Replicate d r 1 86400000 false"),
    ("restore -o x r", "Restore x r newest false false"),
    ("ltx r", "Ltx r"),
    ("demo", "Demo 1 10"),
    ("replicate", "MissingWord 1"),
    ("replicate d", "MissingWord 2"),
    ("replicate d r x", "ExtraWord 3"),
    ("replicate d r x y", "ExtraWord 3"),
    ("restore -o x", "MissingWord 3"),
    ("restore -o x r y", "ExtraWord 4"),
    ("ltx", "MissingWord 1"),
    ("ltx a b", "ExtraWord 2"),
    ("demo x", "ExtraWord 1"),
    ("replicate  r", "BadPath 1"),
    ("replicate d ", "BadPath 2"),
    ("replicate  ", "BadPath 1"),
    ("replicate s3://b r", "Replicate s3://b r 1 86400000 false"),
    ("replicate d file://r", "Replicate d r 1 86400000 false"),
    (
        "replicate d file:///a/r",
        "Replicate d /a/r 1 86400000 false",
    ),
    ("replicate d file://", "BadPath 2"),
    ("replicate d s3://b", "RemoteStore 2"),
    ("replicate d File://r", "RemoteStore 2"),
    ("replicate d ://", "RemoteStore 2"),
    ("replicate d a:/b", "Replicate d a:/b 1 86400000 false"),
    (
        "replicate d file:/r",
        "Replicate d file:/r 1 86400000 false",
    ),
    (
        "replicate d file://s3://b",
        "Replicate d s3://b 1 86400000 false",
    ),
    ("ltx s3://b", "RemoteStore 1"),
    ("ltx ", "BadPath 1"),
    ("ltx file://", "BadPath 1"),
    ("restore r", "NeedsOutput 2"),
    ("restore", "MissingWord 1"),
    ("restore s3://b", "RemoteStore 1"),
    (
        "restore -txid 1 -timestamp 1970-01-01T00:00:00Z r",
        "NeedsOutput 6",
    ),
    (
        "restore -o x -txid 1 -timestamp 1970-01-01T00:00:00Z r",
        "BothGiven 8",
    ),
    (
        "restore -o x -timestamp=1970-01-01T00:00:00Z -txid=1 r",
        "BothGiven 6",
    ),
    (
        "restore -o x -txid 1 -timestamp 1970-01-01T00:00:00Z",
        "MissingWord 7",
    ),
    ("restore -o x -txid=5 s3://b", "RemoteStore 4"),
    ("replicate - -", "Replicate - - 1 86400000 false"),
    ("replicate d -x", "Replicate d -x 1 86400000 false"),
    (
        "replicate d -at-rest",
        "Replicate d -at-rest 1 86400000 false",
    ),
];

#[test]
fn commands_and_their_plain_words(rt: HostRuntime) -> Result<(), Fail> {
    check(&rt, rt.alloc(), &COMMANDS)
}

const FLAGS: [(&str, &str); 53] = [
    ("restore -txid=5 --o x r", "Restore x r txid 5 false false"),
    ("restore -o", "NeedsValue 2"),
    ("restore -o x -- -r", "Restore x -r newest false false"),
    ("restore --o=x r", "Restore x r newest false false"),
    ("restore -o=x r", "Restore x r newest false false"),
    ("restore -o=a=b r", "Restore a=b r newest false false"),
    ("restore -o -txid r", "Restore -txid r newest false false"),
    ("restore -o -- r", "Restore -- r newest false false"),
    ("restore -o x -o y r", "Restore y r newest false false"),
    ("restore -o x -o= r", "BadPath 3"),
    ("restore -o  -o x r", "BadPath 2"),
    ("restore -o= -o x r", "BadPath 1"),
    ("restore -o= r", "BadPath 1"),
    ("restore -o a/b r", "Restore a/b r newest false false"),
    ("restore -o /b r", "Restore /b r newest false false"),
    ("restore -o a/ r", "BadPath 2"),
    ("restore -o / r", "BadPath 2"),
    ("restore -o . r", "BadPath 2"),
    ("restore -o .. r", "BadPath 2"),
    ("restore -o a/. r", "BadPath 2"),
    ("restore -o=a/.. r", "BadPath 1"),
    ("restore -o ... r", "Restore ... r newest false false"),
    ("restore -o ./... r", "Restore ./... r newest false false"),
    (
        "restore -o x -if-db-not-exists r",
        "Restore x r newest true false",
    ),
    (
        "restore -o x --if-replica-exists r",
        "Restore x r newest false true",
    ),
    (
        "restore -if-db-not-exists=1 -if-replica-exists=0 -o x r",
        "Restore x r newest true false",
    ),
    (
        "restore -if-db-not-exists -if-db-not-exists=f -o x r",
        "Restore x r newest false false",
    ),
    ("restore --- -o x r", "BadSyntax 1"),
    ("restore ---o x r", "BadSyntax 1"),
    ("restore -=x r", "BadSyntax 1"),
    ("restore --=x r", "BadSyntax 1"),
    ("restore -O x r", "UnknownFlag 1"),
    ("restore -h", "UnknownFlag 1"),
    ("restore -help", "UnknownFlag 1"),
    ("restore -o x -seed 1 r", "UnknownFlag 3"),
    ("restore -o x -rounds=1 r", "UnknownFlag 3"),
    ("ltx -o x r", "UnknownFlag 1"),
    ("ltx -- r", "Ltx r"),
    ("ltx --", "MissingWord 2"),
    ("ltx -- --", "Ltx --"),
    ("ltx -- -- r", "ExtraWord 3"),
    ("restore -o x - r", "ExtraWord 4"),
    ("restore -o x  r", "ExtraWord 4"),
    ("restore - -o x", "ExtraWord 2"),
    ("restore -o x -txid", "NeedsValue 4"),
    ("restore -txid", "NeedsValue 2"),
    ("restore -timestamp", "NeedsValue 2"),
    ("replicate -at-rest true d r", "ExtraWord 4"),
    ("replicate -at-rest d r", "Replicate d r 1 86400000 true"),
    (
        "replicate --at-rest=True d r",
        "Replicate d r 1 86400000 true",
    ),
    ("replicate -at-rest=yes d r", "BadTruth 1"),
    ("replicate -at-rest= d r", "BadTruth 1"),
    (
        "replicate -rounds 3 -retention 5ms --at-rest d r",
        "Replicate d r 3 5 true",
    ),
];

#[test]
fn flags_in_each_form(rt: HostRuntime) -> Result<(), Fail> {
    check(&rt, rt.alloc(), &FLAGS)
}

const NUMBERS: [(&str, &str); 52] = [
    ("replicate -rounds 1 d r", "Replicate d r 1 86400000 false"),
    ("replicate -rounds 0 d r", "BadNumber 2"),
    (
        "replicate -rounds=1000000 d r",
        "Replicate d r 1000000 86400000 false",
    ),
    ("replicate -rounds=1000001 d r", "BadNumber 1"),
    (
        "replicate -rounds 0000007 d r",
        "Replicate d r 7 86400000 false",
    ),
    ("replicate -rounds 00000007 d r", "BadNumber 2"),
    ("replicate -rounds +1 d r", "BadNumber 2"),
    ("replicate -rounds -1 d r", "BadNumber 2"),
    ("replicate -rounds= d r", "BadNumber 1"),
    ("replicate -rounds 1a d r", "BadNumber 2"),
    (
        "replicate -rounds 1 -rounds 9 d r",
        "Replicate d r 9 86400000 false",
    ),
    ("replicate -rounds x -rounds 9 d r", "BadNumber 2"),
    (
        "replicate -retention 24h d r",
        "Replicate d r 1 86400000 false",
    ),
    (
        "replicate -retention 2m d r",
        "Replicate d r 1 120000 false",
    ),
    (
        "replicate -retention=30s d r",
        "Replicate d r 1 30000 false",
    ),
    ("replicate -retention=7ms d r", "Replicate d r 1 7 false"),
    ("replicate -retention 0h d r", "Replicate d r 1 0 false"),
    (
        "replicate -retention 999999999h d r",
        "Replicate d r 1 3599999996400000 false",
    ),
    ("replicate -retention 1000000000h d r", "BadDuration 2"),
    ("replicate -retention h d r", "BadDuration 2"),
    ("replicate -retention ms d r", "BadDuration 2"),
    ("replicate -retention 1 d r", "BadDuration 2"),
    ("replicate -retention 1d d r", "BadDuration 2"),
    ("replicate -retention 1H d r", "BadDuration 2"),
    ("replicate -retention +1h d r", "BadDuration 2"),
    ("replicate -retention 1.5h d r", "BadDuration 2"),
    ("replicate -retention 1h1m d r", "BadDuration 2"),
    ("replicate -retention 1sm d r", "BadDuration 2"),
    ("replicate -retention= d r", "BadDuration 1"),
    ("demo -seed 0", "Demo 0 10"),
    (
        "demo -seed 18446744073709551615",
        "Demo 18446744073709551615 10",
    ),
    ("demo -seed 18446744073709551616", "BadNumber 2"),
    ("demo -seed 00000000000000000007", "Demo 7 10"),
    ("demo -seed 000000000000000000007", "BadNumber 2"),
    ("demo -seed +1", "BadNumber 2"),
    ("demo -rounds 1000 -seed=5", "Demo 5 1000"),
    ("demo -rounds=1001", "BadNumber 1"),
    ("demo -rounds 0001", "Demo 1 1"),
    ("demo -rounds 00001", "BadNumber 2"),
    ("demo -rounds 0", "BadNumber 2"),
    ("demo -retention 1h", "UnknownFlag 1"),
    ("restore -o x -txid 0 r", "BadTxid 4"),
    (
        "restore -o x -txid ff r",
        "Restore x r txid 255 false false",
    ),
    (
        "restore -o x -txid=FF r",
        "Restore x r txid 255 false false",
    ),
    (
        "restore -o x -txid 0000000000000001 r",
        "Restore x r txid 1 false false",
    ),
    ("restore -o x -txid 00000000000000001 r", "BadTxid 4"),
    (
        "restore -o x -txid ffffffffffffffff r",
        "Restore x r txid 18446744073709551615 false false",
    ),
    ("restore -o x -txid 10000000000000000 r", "BadTxid 4"),
    ("restore -o x -txid g r", "BadTxid 4"),
    ("restore -o x -txid +1 r", "BadTxid 4"),
    ("restore -o x -txid 0x1 r", "BadTxid 4"),
    ("restore -o x -txid= r", "BadTxid 3"),
];

#[test]
fn numbers_and_durations(rt: HostRuntime) -> Result<(), Fail> {
    check(&rt, rt.alloc(), &NUMBERS)
}
