//! Carrying out a command.

ghost use Rattle.std.specs.Prelude.{◌≡◌, ◌<◌, None, OnOk, IfErr};
ghost use Rattle.ls_answers.specs.declared.outcome.Why.TheVariants.{Done};
ghost use Rattle.ls_answers.specs.Outcome.{status_of};
ghost use Rattle.ls_answers.specs.Refusal.{refusal_text, said_text};
ghost use Rattle.ls_answers.specs.Saying.{HasTaken};
ghost use Rattle.ls_words.specs.Command.{command_of};
ghost use Rattle.litestream_core.specs.Asked.{AreAttached};
ghost use Rattle.litestream_core.specs.Carries.{Carries};
ghost use Rattle.litestream_core.specs.Command.{Explains, why_of};
ghost use Rattle.litestream_core.specs.Preparing.{why_of_fault};
ghost use Rattle.litestream_core.specs.RequestView.{as_request};
ghost use Rattle.litestream_core.specs.Scene.{scene_of, FaultsStay};

use crate::law::laws;
use crate::line::restored_line;
use crate::listing::listed_in;
use crate::prepare::prepare;
use crate::replication::replication_in;
use crate::request::{Request, request_in};
use crash_disk::{Disk, Out};
use live_gate::Live;
use ls_answers::{Outcome, Why, say};
use ls_base::Steps;
use ls_words::{Words, WordsFault, read_words};
use ltx_command::list_replica;
use replicate_command::{refused_at_once, replicate};
use restore_apply::RestoreFault;
use std::alloc::Global;
use std::marker::Brand;
use std::sync::ledger::{Blank, Ledger};

fn refusal(fault: RestoreFault) -> Why
    ensures { result ≡ why_of_fault fault }
{
    match fault {
        RestoreFault::Damaged(name, damage) => Why::Damaged(name, damage),
        RestoreFault::PageMissing(name, number) => Why::PageMissing(name, number),
        RestoreFault::Store(_) => Why::StoreFault,
        RestoreFault::Target(_) => Why::TargetFault,
        RestoreFault::Memory => Why::Memory,
    }
}

/// Restores what the request asks for, and prints the line. The blank is for the count of pages that are read, which
/// nobody looks at here.
fn restore<L: Ledger, S: Disk, T: Disk, O: Out>(
    alloc: Global,
    request: &Request<'_>,
    store: &mut S,
    target: &mut T,
    out: &mut O,
    blank: Blank,
) -> Result<(), Why>
    requires name { blank.name ≡ L.name }
    requires parts { blank.parts ≡ L.parts }
    requires some_parts { 0 < blank.parts }
    ensures explained { Explains (as_request request.now) (scene_of S.Disk T.Disk O.Out
        (as_request request.now) store.old store.new target.old target.new out.old out.new) (why_of result) }
    ensures not_done { IfErr result (λ why. why ≡ Done → ⊥) }
    ensures attached { OnOk result (AreAttached (as_request request.now) (S.folder store.new) (T.folder target.new)) }
    ensures store_unchanged { S.content store.new request.now.replica.now
        ≡ S.content store.old request.now.replica.now }
    ensures later { FaultsStay (scene_of S.Disk T.Disk O.Out
        (as_request request.now) store.old store.new target.old target.new out.old out.new) }
{
    let ready = prepare(alloc, request, store, target)?;
    let plan = ready.plan.as_slice();
    let mut steps = Steps::<L>::new(blank);
    let applied = restore_apply::restore(alloc, store, target, request.output, plan, &mut steps);
    let restored = match applied {
        Ok(restored) => restored,
        Err(fault) => return Err(refusal(fault)),
    };
    let line = restored_line(ready.txid, restored.pages);
    let Ok(()) = out.put(line.as_slice()) else {
        return Err(Why::SinkFault);
    };
    Ok(())
}

fn cause_of(ended: Result<(), Why>) -> Why
    ensures { result ≡ why_of ended }
{
    match ended {
        Ok(()) => Why::Done,
        Err(why) => why,
    }
}

/// Carries the command out, and answers how it ended.
fn carry_out<L: Live, S: Disk, T: Disk, O: Out>(
    alloc: Global,
    words: &Words,
    now: u64,
    live: &mut L,
    store: &mut S,
    target: &mut T,
    out: &mut O,
) -> Why
    ensures { Carries (record { live = L.Live; store = S.Disk; target = T.Disk; out = O.Out })
        (record { live = live.old; store = store.old; target = target.old; out = out.old })
        (record { live = live.new; store = store.new; target = target.new; out = out.new }) result
        now (command_of words.now) }
{
    laws();
    refused_at_once::<L, S, O>();
    let command = match read_words(alloc, words) {
        Ok(command) => command,
        Err(WordsFault::Usage(usage)) => return Why::Usage(usage),
        Err(WordsFault::Memory) => return Why::Memory,
    };
    if let Some(request) = request_in(&command) {
        let blank = Blank::new(1);
        return cause_of(restore::<Brand, S, T, O>(alloc, &request, store, target, out, blank));
    }
    if let Some(replica) = listed_in(&command) {
        return list_replica(alloc, replica, store, out);
    }
    if let Some(request) = replication_in(&command) {
        return replicate(alloc, &request, now, live, store, out);
    }
    Why::NotBuilt
}

/// Carries out the command that the words are, answers how it ended, and says to `err` why it was refused.
///
/// `replicate` stores in the replica's folder what changed in the database since the newest file there, in so many
/// rounds, and prints a line to `out` for each. Each round also merges the files that are due, and drops those older
/// than the words retain, as far as no transaction is lost that is to stay; with `-at-rest` it empties a log of 1000
/// frames or more into the database file. `live` is attached to the database and `store` to the replica's folder. All
/// files get the one moment `now`, in ms since 1970-01-01T00:00:00Z, or that of the newest file where it is later.
///
/// `restore` writes the database as of a transaction from the replica's files: as of the one that the words
/// name, or the newest, or the last that was retained at or before a moment. It takes the chain of files that
/// reaches furthest at each step, and writes what they make under the output's name with `.litestream-tmp`
/// behind it. It brings that file to the disk, gives it the output's name and brings the names to the disk, so
/// that under the output's name stands the whole database or nothing. Then it prints
/// `restored <T in 16 digits> pages <N>` to `out`. `store` is attached to the replica's folder and `target` to
/// the output's.
///
/// `ltx` prints the listing of the replica's files to `out`. `store` is attached to the replica's folder, and no
/// file is changed.
///
/// `demo` isn't built yet, and is refused as such. A refusal puts one line to `err`, with what was refused and where; a
/// fault of `err` changes no answer.
pub fn litestream<L: Live, S: Disk, T: Disk, O: Out>(
    alloc: Global,
    words: &Words,
    now: u64,
    live: &mut L,
    store: &mut S,
    target: &mut T,
    out: &mut O,
    err: &mut O,
) -> Outcome
    ensures status { result.status ≡ status_of result.why }
    // What the answer means, when it comes, what is promised of it, and what stays, by the command.
    ensures carried_out { Carries (record { live = L.Live; store = S.Disk; target = T.Disk; out = O.Out })
        (record { live = live.old; store = store.old; target = target.old; out = out.old })
        (record { live = live.new; store = store.new; target = target.new; out = out.new }) result.why
        now (command_of words.now) }
    // What is said: a refusal's line and nothing else.
    ensures said { HasTaken (O.text err.old) (O.text err.new) (O.fault_count err.old) (O.fault_count err.new)
        (said_text words.now result.why) }
    ensures silent { refusal_text words.now result.why ≡ None → err.new ≡ err.old }
{
    let why = carry_out(alloc, words, now, live, store, target, out);
    say(err, words, &why);
    Outcome::of(why)
}
