//! The words of the command line, as texts.
ghost use Rattle.std.specs.Prelude.{◌≡◌, ◌++◌, ◌∷◌, [], IfNone, IfOk, IfSome, OnOk, OnErr, vec_len};
ghost use Rattle.osm_cli.specs.ExitCode.{words_to_run};

use osm_entity::{Sequence, Text, TextError};
use std::alloc::Global;
use std::env::FillError;
use std::rt::Env;

// The room for a word, to begin with.
const ROOM: usize = 1024;

/// The words after the program's name. `BadText` where one of them isn't UTF-8.
pub fn read_words<R: Env + AllocGlobal>(rt: &R) -> Result<Sequence<Text>, TextError> {
    let mut words = Sequence::new(rt.alloc());
    let mut room = zeros(rt.alloc(), ROOM)?;
    for place in 1..usize::MAX {
        match read_word(rt, place, &mut room)? {
            Some(word) => push_word(&mut words, word)?,
            None => break,
        }
    }
    Ok(words)
}

/// The words behind a first `-s`, which asks for a run on one thread. `None` where no such word is
/// first.
pub fn words_alone(words: &[Text]) -> Option<&[Text]>
    ensures some { IfSome result (λ rest. words_to_run words.now ≡ rest.now) }
    ensures none { IfNone result (words_to_run words.now ≡ words.now) }
{
    match words {
        [first, rest @ ..] => {
            if first.as_slice() == b"-s".as_slice() {
                Some(rest)
            } else {
                None
            }
        }
        [] => None,
    }
}

// The word at this place, where 0 has the program's name. `None` after the last.
fn read_word<R: Env + AllocGlobal>(
    rt: &R,
    place: usize,
    room: &mut Vec<u8>,
) -> Result<Option<Text>, TextError> {
    for _turn in 0..usize::BITS {
        match rt.arg(place, room.as_mut_slice()) {
            Ok(length) => return Ok(Some(Text::from_bytes(rt.alloc(), &room[..length])?)),
            Err(FillError::NotPresent) => return Ok(None),
            Err(FillError::TooLong) => {
                *room = zeros(rt.alloc(), room.len().saturating_mul(2))?;
            }
        }
    }
    Err(TextError::Memory)
}

fn push_word(words: &mut Sequence<Text>, word: Text) -> Result<(), TextError>
    ensures ok { OnOk result (words.new ≡ words.old ++ word ∷ []) }
    ensures err { OnErr result (words.new ≡ words.old) }
{
    match words.push(word) {
        Ok(()) => Ok(()),
        Err(_) => Err(TextError::Memory),
    }
}

fn zeros(alloc: Global, length: usize) -> Result<Vec<u8>, TextError>
    ensures { IfOk result (λ v. vec_len v ≡ length) }
{
    let mut bytes = Vec::new(alloc);
    match bytes.resize(length, 0) {
        Ok(()) => Ok(bytes),
        Err(_) => Err(TextError::Memory),
    }
}
