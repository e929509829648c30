//! Makes the kind of a task from its words, which are known to be good.
ghost use Rattle.std.specs.Prelude.{◌≡◌, ◌==◌, IfOk};
ghost use Rattle.std.specs.List.{slice_split};
ghost use Rattle.osm_entity.specs.Ascii.{comma};
ghost use Rattle.osm_tasks.specs.Given.{is_tag_test, test_of, tests_said, text_said, values_in};
ghost use Rattle.osm_tasks.specs.KindSaid.{area_said, kind_said};
ghost use Rattle.osm_tasks.specs.declared.naming.OptionName.TheVariants.{File};
ghost use Rattle.osm_tasks.specs.declared.naming.TaskName.TheVariants.{BoundingBox, ReadMade, TagFilter, WritePbf};

use crate::given::{degrees, mode_of, number, resolution, text, truth};
use crate::kind::TaskKind;
use crate::naming::{OptionName, TaskName};
use crate::pipes::is_pipe;
use osm_entity::{AreaOptions, Flow, NoMemory, TagTest, TagTests, Text, Texts};
use osm_text::first_part;
use osm_words::OptionWord;
use std::alloc::Global;

/// The kind of a task with these words.
pub(crate) fn kind_of(
    alloc: Global,
    name: TaskName,
    words: &[OptionWord],
) -> Result<TaskKind, NoMemory>
    ensures { IfOk result (λ kind. kind ≡ kind_said name words.now) }
{
    let capacity = number(OptionName::BufferCapacity, words);
    let outputs = number(OptionName::OutputCount, words);
    let resolution = resolution(words);
    let file = text(alloc, OptionName::File, words)?;
    Ok(match name {
        TaskName::ReadPbf => TaskKind::ReadPbf { file },
        TaskName::ReadOpl => TaskKind::ReadOpl { file },
        TaskName::ReadOplChange => TaskKind::ReadOplChange { file },
        TaskName::ReadEmpty => TaskKind::ReadEmpty,
        TaskName::ReadMade => made_kind(words),
        TaskName::WritePbf => pbf_kind(file, words),
        TaskName::WriteOpl => TaskKind::WriteOpl { file },
        TaskName::WriteOplChange => TaskKind::WriteOplChange { file },
        TaskName::WriteNull => TaskKind::WriteNull,
        TaskName::WriteSummary => TaskKind::WriteSummary { file },
        TaskName::Merge => TaskKind::Merge { resolution },
        TaskName::MergeChange => TaskKind::MergeChange { resolution },
        TaskName::AppendChange => TaskKind::AppendChange,
        TaskName::ApplyChange => TaskKind::ApplyChange,
        TaskName::SimplifyChange => TaskKind::SimplifyChange,
        TaskName::Tee => TaskKind::Tee {
            flow: Flow::Entities,
            outputs,
        },
        TaskName::TeeChange => TaskKind::Tee {
            flow: Flow::Changes,
            outputs,
        },
        TaskName::Buffer => TaskKind::Buffer {
            flow: Flow::Entities,
            capacity,
        },
        TaskName::BufferChange => TaskKind::Buffer {
            flow: Flow::Changes,
            capacity,
        },
        TaskName::Spool => TaskKind::Spool {
            flow: Flow::Entities,
        },
        TaskName::SpoolChange => TaskKind::Spool {
            flow: Flow::Changes,
        },
        TaskName::BoundingBox => box_kind(words),
        TaskName::BoundingPolygon => TaskKind::BoundingPolygon {
            file,
            options: area(words),
        },
        TaskName::TagFilter => filter_kind(alloc, words)?,
        TaskName::UsedNode => TaskKind::UsedNode,
        TaskName::UsedWay => TaskKind::UsedWay,
        TaskName::Sort => TaskKind::Sort,
        TaskName::SortChange => TaskKind::SortChange,
    })
}

fn made_kind(words: &[OptionWord]) -> TaskKind
    ensures { result ≡ kind_said ReadMade words.now }
{
    TaskKind::ReadMade {
        count: number(OptionName::Count, words),
        seed: number(OptionName::Seed, words),
    }
}

fn pbf_kind(file: Text, words: &[OptionWord]) -> TaskKind
    requires { file ≡ text_said File words.now }
    ensures { result ≡ kind_said WritePbf words.now }
{
    TaskKind::WritePbf {
        file,
        batchlimit: number(OptionName::Batchlimit, words),
        usedense: truth(OptionName::Usedense, words),
        omitmetadata: truth(OptionName::Omitmetadata, words),
        granularity: number(OptionName::Granularity, words),
    }
}

fn area(words: &[OptionWord]) -> AreaOptions
    ensures { result ≡ area_said words.now }
{
    AreaOptions {
        complete_ways: truth(OptionName::CompleteWays, words),
        cascading_relations: truth(OptionName::CascadingRelations, words),
        clip: truth(OptionName::ClipIncompleteEntities, words),
    }
}

fn box_kind(words: &[OptionWord]) -> TaskKind
    ensures { result ≡ kind_said BoundingBox words.now }
{
    TaskKind::BoundingBox {
        left: degrees(OptionName::Left, words),
        right: degrees(OptionName::Right, words),
        top: degrees(OptionName::Top, words),
        bottom: degrees(OptionName::Bottom, words),
        options: area(words),
    }
}

fn filter_kind(alloc: Global, words: &[OptionWord]) -> Result<TaskKind, NoMemory>
    ensures { IfOk result (λ kind. kind ≡ kind_said TagFilter words.now) }
{
    let mode = mode_of(words);
    let tests = tests_in(alloc, words)?;
    Ok(TaskKind::TagFilter {
        accept: mode.accept,
        kind: mode.kind,
        tests,
    })
}

// Whether a word of a tag filter is a test.
fn is_tag_test(word: &OptionWord) -> bool
    ensures { result ≡ is_tag_test word.now }
{
    !(word.name.as_slice().is_empty() || is_pipe(word))
}

// The tests that words give a tag filter.
fn tests_in(alloc: Global, words: &[OptionWord]) -> Result<TagTests, NoMemory>
    ensures { IfOk result (λ tests. tests ≡ tests_said words.now) }
{
    let mut tests = TagTests::new(alloc);
    for word in words {
        if !is_tag_test(word) {
            continue;
        }
        let test = test_of(alloc, word)?;
        tests.push(test)?;
    }
    Ok(tests)
}

fn test_of(alloc: Global, word: &OptionWord) -> Result<TagTest, NoMemory>
    ensures { IfOk result (λ test. test ≡ test_of word.now) }
{
    let key = word.name.copy(alloc)?;
    let values = values_of(alloc, &word.value)?;
    Ok(TagTest { key, values })
}

fn values_of(alloc: Global, value: &Text) -> Result<Option<Texts>, NoMemory>
    ensures { IfOk result (λ values. values ≡ values_in value.now) }
{
    if value.as_slice() == b"*".as_slice() {
        return Ok(None);
    }
    let values = parts_of(alloc, value)?;
    Ok(Some(values))
}

// The parts of a text between its commas.
fn parts_of(alloc: Global, value: &Text) -> Result<Texts, NoMemory>
    ensures { IfOk result (λ parts. parts ≡ slice_split (λ b. b == comma) value.now) }
{
    let mut parts = Texts::new(alloc);
    let mut rest = value.as_slice();
    while let Some((part, more)) = first_part(rest, b',') {
        let part = Text::from_utf8(alloc, part)?;
        parts.push(part)?;
        rest = more;
    }
    let last = Text::from_utf8(alloc, rest)?;
    parts.push(last)?;
    Ok(parts)
}
