//! The first word.

ghost use Rattle.std.specs.Prelude.{◌≡◌};
ghost use Rattle.ls_words.specs.Verb.{verb_of, plain_words};

/// Which command the words are of.
#[derive(Clone, Copy, Debug, PartialEq, Eq)]
pub enum Verb {
    Replicate,
    Restore,
    Ltx,
    Demo,
}

/// The command that the first word names. `None` exactly where it names none.
pub fn verb_of(word: &str) -> Option<Verb>
    ensures { result ≡ verb_of word.now }
{
    if word == "replicate" {
        return Some(Verb::Replicate);
    }
    if word == "restore" {
        return Some(Verb::Restore);
    }
    if word == "ltx" {
        return Some(Verb::Ltx);
    }
    if word == "demo" {
        return Some(Verb::Demo);
    }
    None
}

/// How many plain words the command takes.
pub fn plain_words(verb: Verb) -> u32
    ensures { result ≡ plain_words verb }
{
    match verb {
        Verb::Replicate => 2,
        Verb::Restore => 1,
        Verb::Ltx => 1,
        Verb::Demo => 0,
    }
}
