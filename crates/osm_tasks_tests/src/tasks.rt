//! Each task by its words: its kind by default and with each option. No clause says that the calls
//! answer where memory is there.
use osm_entity::{Sequence, Text};
use osm_tasks::resolve;
use osm_words::split;
use std::process::Abort;

/// How many rows there are.
const COUNT: u32 = 50;

/// A row for each task and its options, of two lines: the words of the task, with a blank between them, and its kind.
const ROWS: &str = "\
--read-pbf a
ReadPbf { file: \"a\" }
--rb file=
ReadPbf { file: \"\" }
--read-opl file=a=b
ReadOpl { file: \"a=b\" }
--read-opl-change a
ReadOplChange { file: \"a\" }
--read-empty outPipe.0=x
ReadEmpty
--rem
ReadEmpty
--read-made 0
ReadMade { count: 0, seed: 0 }
--read-made seed=4294967295 count=010000000
ReadMade { count: 10000000, seed: 4294967295 }
--write-pbf a
WritePbf { file: \"a\", batchlimit: 8000, usedense: true, omitmetadata: false, granularity: 100 }
--wb file=a batchlimit=1 usedense=No omitmetadata=TRUE compress=none granularity=1000000
WritePbf { file: \"a\", batchlimit: 1, usedense: false, omitmetadata: true, granularity: 1000000 }
--wb a batchlimit=32000 usedense=yEs omitmetadata=false granularity=1
WritePbf { file: \"a\", batchlimit: 32000, usedense: true, omitmetadata: false, granularity: 1 }
--write-opl a inPipe.0=x
WriteOpl { file: \"a\" }
--write-opl-change a
WriteOplChange { file: \"a\" }
--write-null
WriteNull
--wn
WriteNull
--write-summary a
WriteSummary { file: \"a\" }
--merge
Merge { resolution: Version }
--m conflictResolutionMethod=timestamp
Merge { resolution: Timestamp }
--merge inPipe.1=x conflictResolutionMethod=version
Merge { resolution: Version }
--merge-change conflictResolutionMethod=lastSource
MergeChange { resolution: LastSource }
--mc
MergeChange { resolution: Version }
--append-change
AppendChange
--apc
AppendChange
--apply-change
ApplyChange
--ac
ApplyChange
--simplify-change
SimplifyChange
--simc
SimplifyChange
--tee
Tee { flow: Entities, outputs: 2 }
--t outPipe.15=x outputCount=16
Tee { flow: Entities, outputs: 16 }
--tee-change 1
Tee { flow: Changes, outputs: 1 }
--tc
Tee { flow: Changes, outputs: 2 }
--buffer
Buffer { flow: Entities, capacity: 100 }
--b bufferCapacity=65536
Buffer { flow: Entities, capacity: 65536 }
--buffer-change 007
Buffer { flow: Changes, capacity: 7 }
--bc 1
Buffer { flow: Changes, capacity: 1 }
--spool
Spool { flow: Entities }
--spool-change
Spool { flow: Changes }
--bounding-box
BoundingBox { left: -180000000000, right: 180000000000, top: 90000000000, bottom: -90000000000, options: \
    AreaOptions { complete_ways: false, cascading_relations: false, clip: false } }
--bb left=-1e3 right=1000 top=.5 bottom=0.5 completeWays=yes cascadingRelations=yes clipIncompleteEntities=yes
BoundingBox { left: -1000000000000, right: 1000000000000, top: 500000000, bottom: 500000000, options: \
    AreaOptions { complete_ways: true, cascading_relations: true, clip: true } }
--bounding-polygon a
BoundingPolygon { file: \"a\", options: AreaOptions { complete_ways: false, cascading_relations: false, clip: \
    false } }
--bp completeWays=true file=a
BoundingPolygon { file: \"a\", options: AreaOptions { complete_ways: true, cascading_relations: false, clip: \
    false } }
--tag-filter accept-ways highway=* a=b,,c d=
TagFilter { accept: true, kind: Way, tests: Sequence { items: [TagTest { key: \"highway\", values: None }, \
    TagTest { key: \"a\", values: Some(Sequence { items: [\"b\", \"\", \"c\"] }) }, TagTest { key: \"d\", \
    values: Some(Sequence { items: [\"\"] }) }] } }
--tf inPipe.0=x reject-nodes
TagFilter { accept: false, kind: Node, tests: Sequence { items: [] } }
--tf reject-relations
TagFilter { accept: false, kind: Relation, tests: Sequence { items: [] } }
--used-node idTrackerType=Dynamic
UsedNode
--un idTrackerType=IdList
UsedNode
--used-way idTrackerType=BitSet
UsedWay
--uw
UsedWay
--sort type=TypeThenId
Sort
--sort-change
SortChange
";

/// The text before the first newline; the rest is what is behind it.
fn next_line<'a>(rest: &mut &'a str) -> &'a str {
    match rest.split_once('\n') {
        Some((first, more)) => {
            *rest = more;
            first
        }
        None => rest,
    }
}

fn words_of<R: Abort + AllocGlobal>(rt: &R, line: &str) -> Sequence<Text> {
    let mut words = Sequence::new(rt.alloc());
    for word in line.as_bytes().split(|byte| *byte == b' ') {
        let word = Text::from_bytes(rt.alloc(), word).expect(rt, "a word");
        words.push(word).expect(rt, "words");
    }
    words
}

/// The kind of the last task of these words.
fn kind_text<R: Abort + AllocGlobal>(rt: &R, line: &str) -> String {
    let words = words_of(rt, line);
    let list = split(rt.alloc(), words.as_slice()).expect(rt, "tasks");
    let tasks = resolve(rt.alloc(), &list).expect(rt, "the catalogue");
    let mut text = String::new(rt.alloc());
    for task in tasks.as_slice() {
        let kind = &task.kind;
        text = format!(in rt.alloc(); "{kind:?}").expect(rt, "a text");
    }
    text
}

#[test]
fn each_task_has_its_kind(rt: HostRuntime) {
    let mut rest = ROWS;
    for _row in 0..COUNT {
        let words = next_line(&mut rest);
        let kind = next_line(&mut rest);
        let said = kind_text(&rt, words);
        assert_eq!(rt; said.as_str(), kind);
    }
}
