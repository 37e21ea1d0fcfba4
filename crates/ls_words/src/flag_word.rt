//! One word as a flag.

ghost use Rattle.std.specs.Prelude.{◌≡◌, option_map};
ghost use Rattle.ls_words.specs.FlagWord.{is_flag, is_end, without_dash, is_bad_syntax, cut_at_equals, named_of};
ghost use Rattle.ls_words.specs.FlagWordView.{as_named};

/// A flag's name as it is written, and the value behind its `=`, where it has one.
#[derive(Clone, Copy, Debug)]
pub struct Named<'w> {
    pub name: &'w str,
    pub value: Option<&'w str>,
}

/// Whether the word is read as a flag or as `--`: it has 2 bytes or more, the first of them `-`.
pub fn is_flag(word: &str) -> bool
    ensures { result ≡ is_flag word.now }
{
    word.len() >= 2 && word.starts_with('-')
}

/// Whether the word is `--`, which ends the flags.
pub fn is_end(word: &str) -> bool
    ensures { result ≡ is_end word.now }
{
    word == "--"
}

/// The word without a dash at its front.
fn without_dash(word: &str) -> &str
    ensures { result.now ≡ without_dash word.now }
{
    word.strip_prefix('-').unwrap_or(word)
}

/// Whether what stands behind a flag's dashes is nothing, or begins with a dash or `=`.
fn is_bad_syntax(body: &str) -> bool
    ensures { result ≡ is_bad_syntax body.now }
{
    body.is_empty() || body.starts_with('-') || body.starts_with('=')
}

fn cut_at_equals(text: &str) -> Named<'_>
    ensures { as_named result ≡ cut_at_equals text.now }
{
    let Some((name, value)) = text.split_once('=') else {
        return Named {
            name: text,
            value: None,
        };
    };
    Named {
        name,
        value: Some(value),
    }
}

/// The name and the value of a flag's word. `None` exactly where behind its dashes it has nothing, or a
/// dash, or `=`.
#[tactic(auto, unfolding(crate::specs::FlagWord::named_of))]
pub fn named_of(word: &str) -> Option<Named<'_>>
    ensures { option_map as_named result ≡ named_of word.now }
{
    let body = without_dash(without_dash(word));
    if is_bad_syntax(body) {
        return None;
    }
    Some(cut_at_equals(body))
}
