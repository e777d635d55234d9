//! The options of a command: each a name that begins with `--`, and its value.

ghost use Rattle.std.specs.Prelude.{◌≡◌, ◌≤◌, MatchOption, IfSome, Some, None};
ghost use Rattle.command_words.specs.Options as spec;

use crate::numbers::number;
use ckpt_base::Text;

/// The name of an option.
#[derive(Clone, Copy, Debug)]
pub enum Name {
    /// The most steps that a run may take.
    Until,
    /// How many steps lie between two images at least.
    Every,
    /// The most records of an image file.
    Max,
    /// How many instructions lie before each call of the writer of images.
    Pace,
    /// The byte that memory holds which no image lists.
    Fill,
    /// Where the lives of a drill are stopped.
    Stops,
}

impl Name {
    /// The word that names the option.
    fn word(self) -> &'static [u8]
        ensures answer { result.now ≡ spec.word_of self }
    {
        match self {
            Name::Until => b"--until",
            Name::Every => b"--every",
            Name::Max => b"--max",
            Name::Pace => b"--pace",
            Name::Fill => b"--fill",
            Name::Stops => b"--stops",
        }
    }
}

/// Whether a word begins with `--`.
pub fn is_option(word: &Text) -> bool
    ensures answer { result ≡ spec.is_option word.now }
{
    matches!(word.as_bytes(), [b'-', b'-', ..])
}

/// Whether the words are options of these names, each at most once, and each with a value.
pub fn are_options(words: &[Text], names: &[Name]) -> bool
    ensures answer { result ≡ spec.are_options names.now words.now }
{
    let mut rest = words;
    'options: while let [name, _, behind @ ..] = rest {
        match name_in(name, names) {
            Some(name) if value_of(behind, name).is_none() => rest = behind,
            _ => return false,
        }
    }
    rest.is_empty()
}

/// Which of these names a word is.
fn name_in(word: &Text, names: &[Name]) -> Option<Name>
    ensures answer { result ≡ spec.name_in names.now word.now }
{
    'names: for name in names {
        if name.word() == word.as_bytes() {
            return Some(*name);
        }
    }
    None
}

/// The value of the option of that name, where it is given.
pub fn value_of(words: &[Text], name: Name) -> Option<&Text>
    ensures answer { MatchOption result (spec.value_of name words.now ≡ None) (λ value. spec.value_of name words.now ≡ Some value.now) }
{
    let mut rest = words;
    'options: while let [given, value, behind @ ..] = rest {
        if given.as_bytes() == name.word() {
            return Some(value);
        }
        rest = behind;
    }
    None
}

/// The number that the option of that name gives, or the default where it is not given; none where its value is no number.
pub fn number_or(words: &[Text], name: Name, default: u64) -> Option<u64>
    ensures answer { result ≡ spec.number_or name default words.now }
{
    match value_of(words, name) {
        None => Some(default),
        Some(value) => number(value.as_bytes()),
    }
}

/// The same, where it is within the range.
pub fn number_within(words: &[Text], name: Name, default: u64, least: u64, most: u64) -> Option<u64>
    ensures answer { result ≡ spec.number_within name default least most words.now }
    ensures within { IfSome result (λ n. (least ≤ n) × (n ≤ most)) }
{
    let number = number_or(words, name, default)?;
    if least <= number && number <= most {
        Some(number)
    } else {
        None
    }
}
