//! Copies the tests of a tag filter out of the task that has them.
ghost use Rattle.std.specs.Prelude.{◌≡◌, IfOk};

use osm_entity::{NoMemory, TagTest, TagTests, Text, Texts};
use std::alloc::Global;

/// Equal tests.
pub fn copy_tests(alloc: Global, tests: &[TagTest]) -> Result<TagTests, NoMemory>
    ensures { IfOk result (λ copy. copy ≡ tests.now) }
{
    let mut copy = TagTests::with_room(alloc, tests.len())?;
    for test in tests {
        copy.push(copy_test(alloc, test)?)?;
    }
    Ok(copy)
}

fn copy_test(alloc: Global, test: &TagTest) -> Result<TagTest, NoMemory>
    ensures { IfOk result (λ copy. copy ≡ test.now) }
{
    let key = test.key.copy(alloc)?;
    let values = match &test.values {
        Some(values) => Some(copy_texts(alloc, values.as_slice())?),
        None => None,
    };
    Ok(TagTest { key, values })
}

fn copy_texts(alloc: Global, texts: &[Text]) -> Result<Texts, NoMemory>
    ensures { IfOk result (λ copy. copy ≡ texts.now) }
{
    let mut copy = Texts::with_room(alloc, texts.len())?;
    for text in texts {
        copy.push(text.copy(alloc)?)?;
    }
    Ok(copy)
}
