//! What is said of an answer.

ghost use Rattle.std.specs.Prelude.{◌≡◌, ◌++◌, codes, None, OnOk, OnErr};
ghost use Rattle.crash_disk.specs.Output.{gains_text, GainsFront};
ghost use Rattle.ls_base.specs.Fault.{HasCause};
ghost use Rattle.ls_answers.specs.declared.outcome.Why.TheVariants.{Usage as of_usage};
ghost use Rattle.ls_answers.specs.Refusal.{refusal_text, said_text};
ghost use Rattle.ls_answers.specs.Saying.{HasTaken};

use crate::outcome::Why;
use crate::reason::{REASON_BYTES, Reason, reason_of};
use crate::usage::{blamed_word, usage_head};
use arrayvec::ArrayVec;
use crash_disk::{Out, OutFault};
use ls_words::{Usage, Words};

/// Room for a line around the longest text, in bytes.
const LINE_BYTES: usize = REASON_BYTES + 13;

/// The text on a line of its own.
fn line_of(reason: &Reason) -> ArrayVec<u8, LINE_BYTES>
    ensures { result.items ≡ codes "litestream: " ++ reason.now.items ++ codes "\n" }
{
    let mut line = ArrayVec::new();
    line.try_extend_from_slice(b"litestream: ").unwrap();
    line.try_extend_from_slice(reason.as_slice()).unwrap();
    line.try_extend_from_slice(b"\n").unwrap();
    line
}

/// Puts the line of a bad word: its head, the word as it was given, and the end of the line.
fn put_usage<O: Out>(err: &mut O, words: &Words, usage: Usage) -> Result<(), OutFault>
    ensures ok { OnOk result (O.text err.new ≡ gains_text (O.text err.old) (said_text words.now (of_usage usage))) }
    ensures err { OnErr result (GainsFront (O.text err.old) (O.text err.new) (said_text words.now (of_usage usage))) }
    ensures cause { HasCause (O.fault_count err.old) (O.fault_count err.new) result }
{
    err.put(usage_head(usage.why).as_slice())?;
    err.put(blamed_word(words, usage.word).as_bytes())?;
    err.put(b"\n")?;
    Ok(())
}

/// Puts what is said of the answer.
fn put_line<O: Out>(err: &mut O, words: &Words, why: &Why) -> Result<(), OutFault>
    ensures ok { OnOk result (O.text err.new ≡ gains_text (O.text err.old) (said_text words.now why.now)) }
    ensures err { OnErr result (GainsFront (O.text err.old) (O.text err.new) (said_text words.now why.now)) }
    ensures cause { HasCause (O.fault_count err.old) (O.fault_count err.new) result }
    ensures silent { refusal_text words.now why.now ≡ None → err.new ≡ err.old }
{
    if let Why::Usage(usage) = why {
        return put_usage(err, words, *usage);
    }
    let Some(reason) = reason_of(why) else {
        return Ok(());
    };
    err.put(line_of(&reason).as_slice())?;
    Ok(())
}

/// Says why the command was refused: the refusal's text on a line of its own. Where nothing was refused nothing is
/// put. A fault of the output changes nothing but what stands there. Takes no memory.
pub fn say<O: Out>(err: &mut O, words: &Words, why: &Why)
    ensures said { HasTaken (O.text err.old) (O.text err.new) (O.fault_count err.old) (O.fault_count err.new)
        (said_text words.now why.now) }
    ensures silent { refusal_text words.now why.now ≡ None → err.new ≡ err.old }
{
    // A fault of this output has nowhere to go.
    let _ = put_line(err, words, why);
}
