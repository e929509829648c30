//! What the words of a task give its options.
ghost use Rattle.std.specs.Prelude.{◌≡◌, IfOk};
ghost use Rattle.std.specs.List.{find, list_any};
ghost use Rattle.std.specs.Option.{option_copied, option_map};
ghost use Rattle.osm_tasks.specs.Given.{degrees_by, degrees_given, gives, mode_said, number_by, number_said, resolution_said, text_said, truth_by, truth_said, value_given};

use crate::naming::{OptionName, Values};
use crate::reading::{Mode, read_degrees, read_mode, read_number, read_resolution, read_truth};
use osm_entity::{Kind, NoMemory, Resolution, Text};
use osm_words::OptionWord;
use std::alloc::Global;

impl OptionName {
    /// Whether a word gives this option.
    pub(crate) fn is_given_by(self, word: &OptionWord) -> bool
        ensures { result ≡ gives self word.now }
    {
        if word.name.as_slice().is_empty() {
            self.goes_unnamed()
        } else {
            word.name.as_slice() == self.name()
        }
    }

    /// Whether one of the words gives this option.
    pub(crate) fn is_among(self, words: &[OptionWord]) -> bool
        ensures { result ≡ list_any (gives self) words.now }
    {
        words.iter().any(|word| self.is_given_by(word))
    }

    /// The first word that gives this option.
    pub(crate) fn first_in(self, words: &[OptionWord]) -> Option<&OptionWord>
        ensures { option_copied result ≡ find (gives self) words.now }
    {
        words.iter().find(|word| self.is_given_by(word))
    }

    /// The value of the first word that gives it.
    fn value_in(self, words: &[OptionWord]) -> Option<&[u8]>
        ensures { option_map (λ v. v.now) result ≡ value_given self words.now }
    {
        match self.first_in(words) {
            Some(word) => Some(word.value.as_slice()),
            None => None,
        }
    }
}

fn number_by(values: Values, given: Option<&[u8]>) -> u32
    ensures { result ≡ number_by values (option_map (λ v. v.now) given.entry) }
{
    match (values, given) {
        (
            Values::Number {
                least,
                most,
                default,
            },
            Some(text),
        ) => read_number(least, most, text).unwrap_or(default),
        (Values::Number { default, .. }, None) => default,
        _ => 0,
    }
}

fn truth_by(values: Values, given: Option<&[u8]>) -> bool
    ensures { result ≡ truth_by values (option_map (λ v. v.now) given.entry) }
{
    match (values, given) {
        (Values::Truth { default }, Some(text)) => read_truth(text).unwrap_or(default),
        (Values::Truth { default }, None) => default,
        _ => false,
    }
}

fn degrees_by(values: Values, given: Option<&[u8]>) -> i64
    ensures { result ≡ degrees_by values (option_map (λ v. v.now) given.entry) }
{
    match (values, given) {
        (Values::Degrees { default }, Some(text)) => read_degrees(text).unwrap_or(default),
        (Values::Degrees { default }, None) => default,
        _ => 0,
    }
}

/// The number that words give an option, or its default.
pub(crate) fn number(option: OptionName, words: &[OptionWord]) -> u32
    ensures { result ≡ number_said option words.now }
{
    number_by(option.values(), option.value_in(words))
}

/// The truth that words give an option, or its default.
pub(crate) fn truth(option: OptionName, words: &[OptionWord]) -> bool
    ensures { result ≡ truth_said option words.now }
{
    truth_by(option.values(), option.value_in(words))
}

/// The nanodegrees that words give an option, or its default.
pub(crate) fn degrees(option: OptionName, words: &[OptionWord]) -> i64
    ensures { result ≡ degrees_given option words.now }
{
    degrees_by(option.values(), option.value_in(words))
}

/// The text that words give an option.
pub(crate) fn text(
    alloc: Global,
    option: OptionName,
    words: &[OptionWord],
) -> Result<Text, NoMemory>
    ensures { IfOk result (λ text. text ≡ text_said option words.now) }
{
    match option.first_in(words) {
        Some(word) => word.value.copy(alloc),
        None => Ok(Text::new(alloc)),
    }
}

/// How words have a merge resolve.
pub(crate) fn resolution(words: &[OptionWord]) -> Resolution
    ensures { result ≡ resolution_said words.now }
{
    match OptionName::ConflictResolutionMethod.value_in(words) {
        Some(text) => read_resolution(text).unwrap_or(Resolution::Version),
        None => Resolution::Version,
    }
}

/// What words have a tag filter do.
pub(crate) fn mode_of(words: &[OptionWord]) -> Mode
    ensures { result ≡ mode_said words.now }
{
    let unsaid = Mode {
        accept: true,
        kind: Kind::Node,
    };
    match OptionName::Mode.value_in(words) {
        Some(text) => read_mode(text).unwrap_or(unsaid),
        None => unsaid,
    }
}
