//! The flags.

ghost use Rattle.std.specs.Prelude.{◌≡◌};
ghost use Rattle.ls_words.specs.Flag.{flag_of, replicate_flag, restore_flag, demo_flag};

use crate::verb::Verb;

/// A flag that is true or false, and needs no value.
#[derive(Clone, Copy, Debug, PartialEq, Eq)]
pub enum TruthFlag {
    AtRest,
    IfDbNotExists,
    IfReplicaExists,
}

/// A flag that takes a value. `-rounds` of `demo` has a range of its own.
#[derive(Clone, Copy, Debug, PartialEq, Eq)]
pub enum ValuedFlag {
    Rounds,
    Retention,
    Output,
    Txid,
    Timestamp,
    Seed,
    DemoRounds,
}

/// A flag of a command.
#[derive(Clone, Copy, Debug, PartialEq, Eq)]
pub enum Flag {
    Truth(TruthFlag),
    Valued(ValuedFlag),
}

fn replicate_flag(name: &str) -> Option<Flag>
    ensures { result ≡ replicate_flag name.now }
{
    if name == "rounds" {
        return Some(Flag::Valued(ValuedFlag::Rounds));
    }
    if name == "retention" {
        return Some(Flag::Valued(ValuedFlag::Retention));
    }
    if name == "at-rest" {
        return Some(Flag::Truth(TruthFlag::AtRest));
    }
    None
}

fn restore_flag(name: &str) -> Option<Flag>
    ensures { result ≡ restore_flag name.now }
{
    if name == "o" {
        return Some(Flag::Valued(ValuedFlag::Output));
    }
    if name == "txid" {
        return Some(Flag::Valued(ValuedFlag::Txid));
    }
    if name == "timestamp" {
        return Some(Flag::Valued(ValuedFlag::Timestamp));
    }
    if name == "if-db-not-exists" {
        return Some(Flag::Truth(TruthFlag::IfDbNotExists));
    }
    if name == "if-replica-exists" {
        return Some(Flag::Truth(TruthFlag::IfReplicaExists));
    }
    None
}

fn demo_flag(name: &str) -> Option<Flag>
    ensures { result ≡ demo_flag name.now }
{
    if name == "seed" {
        return Some(Flag::Valued(ValuedFlag::Seed));
    }
    if name == "rounds" {
        return Some(Flag::Valued(ValuedFlag::DemoRounds));
    }
    None
}

/// The command's flag of this name. `None` exactly where the command has none.
#[tactic(auto, unfolding(crate::specs::Flag::flag_of))]
pub fn flag_of(verb: Verb, name: &str) -> Option<Flag>
    ensures { result ≡ flag_of verb name.now }
{
    match verb {
        Verb::Replicate => replicate_flag(name),
        Verb::Restore => restore_flag(name),
        Verb::Ltx => None,
        Verb::Demo => demo_flag(name),
    }
}
