//! One machine behind another: what read-made makes is summed up, message by message.
use crate::machines::{Driven, cut, judge, machine_of, row_of};
use osm_entity::Want;
use std::process::Abort;

/// How many rows there are.
const COUNT: u32 = 5;

/// A row for each summary, of two lines. The first is that of the machine that makes. The second has what the machine
/// of the summary leaves: its verdict, and behind columns that have nothing its file.
const ROWS: &[u8] = b"\
nothing|--read-made 0|
|Clean|||||nodes 0/ways 0/relations 0/tags 0/refs 0/members 0/weight 0/|
ten|--read-made 10 seed=4294967295|
|Clean|||||nodes 9/ways 1/relations 0/tags 0/refs 4/members 0/weight 1408/|
a million|--read-made 1000000|
|Clean|||||nodes 890000/ways 100000/relations 10000/tags 50000/refs 400000/members 20000/weight 143980000/|
a million by one|--read-made 1000000 seed=1|
|Clean|||||nodes 890000/ways 100000/relations 10000/tags 50000/refs 400000/members 20000/weight 143980000/|
a million by the greatest seed|--read-made count=1000000 seed=4294967295|
|Clean|||||nodes 890000/ways 100000/relations 10000/tags 50000/refs 400000/members 20000/weight 143980000/|
";

/// The second line of the machine that makes.
const ENDS: &[u8] = b"|Clean|";

/// The first line of the machine that sums up.
const SUMS: &[u8] = b"a summary|--write-summary b|";

/// More messages than any machine here gives.
const ENOUGH: u32 = 2_000_000;

/// Hands on what the one gives to the other, up to its end.
fn hand_on<R: Abort + AllocGlobal>(rt: &R, from: &mut Driven, to: &mut Driven) {
    for _message in 0..ENOUGH {
        let Want::Give(output) = from.want() else {
            break;
        };
        let message = from.hand(output).expect(rt, "a message");
        match to.want() {
            Want::Take(input) => to.accept(input, message).expect(rt, "a message"),
            _ => panic!(rt; "it ended before its input"),
        }
    }
}

fn check<R: Abort + AllocGlobal>(rt: &R, first: &[u8], second: &[u8]) {
    let makes = row_of(first, ENDS);
    let sums = row_of(SUMS, second);
    let mut from = machine_of(rt, &makes);
    let mut to = machine_of(rt, &sums);
    hand_on(rt, &mut from, &mut to);
    judge(rt, &makes, from, b"".as_slice());
    judge(rt, &sums, to, b"".as_slice());
}

#[test]
fn made_items_are_summed_up_behind_their_machine(rt: HostRuntime) {
    let mut rest = ROWS;
    for _row in 0..COUNT {
        let first = cut(&mut rest, b'\n');
        check(&rt, first, cut(&mut rest, b'\n'));
    }
}
