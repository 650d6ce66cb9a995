//! The longest trees, as lines down either side.
use case_text::{Answer, Words, spaced};
use std::alloc::{AllocError, Global};
use std::process::Abort;
use std::test::Fail;

/// Calls that trim, prune and join trees, and their answers. SIDE stands for `yes` and for `no`, LONGEST for the longest line in a tree of at most 65,536 nodes,
/// with a leaf at its end, which are 32,767 rows and 32,768 leaves, and LONGER for a line of one row more.
const JOINED: &[(&str, &str)] = &[
    // The longest lines of a tree of at most 65,536 nodes, and a row more.
    (
        "trim always in LONGEST then nothing is LONGEST then nothing",
        "yes",
    ),
    (
        "prune always in LONGEST then nothing is LONGEST then nothing",
        "yes",
    ),
    ("trim always in LONGER then end 7", "too large"),
    ("prune always in LONGER then end 7", "too large"),
    // The same joined with leaves.
    (
        "either LONGEST then nothing and end 7 is LONGEST then end 7",
        "yes",
    ),
    (
        "either nothing and LONGEST then nothing is LONGEST then nothing",
        "yes",
    ),
    ("both LONGEST then end 7 and end 9", "end 9"),
    (
        "both end 9 and LONGEST then nothing is LONGEST then nothing",
        "yes",
    ),
    (
        "later LONGEST then nothing and end 0 is LONGEST then nothing",
        "yes",
    ),
    (
        "later end 0 and LONGEST then nothing is LONGEST then nothing",
        "yes",
    ),
    ("either LONGER then end 7 and nothing", "too large"),
    ("later LONGER then end 7 and end 0", "too large"),
    // One node is left of it.
    ("both LONGER then end 7 and end 3", "end 3"),
    // The same joined with each other.
    (
        "either LONGEST then nothing and LONGEST then nothing is LONGEST then nothing",
        "yes",
    ),
    // At the end of the one line stands the whole other one, which is too much.
    (
        "either LONGEST then nothing and line SIDE 32767 y - k >= 0 beside end k then end 7",
        "too large",
    ),
    (
        "both line SIDE 32767 x - k >= 0 beside nothing then end 7 and line SIDE 32767 y - k >= 0 beside end k then end 7",
        "too large",
    ),
    (
        "later line SIDE 32767 x - k >= 0 beside nothing then end 7 and line SIDE 32767 y - k >= 0 beside end k then end 7",
        "too large",
    ),
];

/// Calls that widen trees, copy them, and tell how large they are, and their answers, in the same words.
const WIDENED_AND_COPIED: &[(&str, &str)] = &[
    (
        "widen LONGEST then nothing and end 0 is LONGEST then end 0",
        "yes",
    ),
    ("widen end 40000 and LONGEST then end 0", "end 40000"),
    ("widen end 40000 and LONGEST then nothing", "given"),
    // The path of one row more has more nodes.
    ("widen LONGER then end 0 and end 0", "too large"),
    ("widen LONGER then nothing and end 0", "too large"),
    // How many nodes and leaves a tree has.
    (
        "size line SIDE 65536 x - 1 >= 0 beside nothing then end 7",
        "131073 nodes, 65537 leaves",
    ),
    // Copies, alone and in a box, are equal to their trees.
    (
        "copies line SIDE 65536 x - 1 >= 0 beside nothing then end 7",
        "yes",
    ),
];

/// Calls that move trees back over actions of a program, and their answers, in the same words.
const MOVED: &[(&str, &str)] = &[
    (
        "skip LONGEST then nothing is line SIDE 32767 x - k >= 0 beside step k + 1 then nothing",
        "yes",
    ),
    (
        "assign y = 0 + [-inf, inf] before LONGEST then nothing is line SIDE 32767 x - k >= 0 beside step k + 1 then nothing",
        "yes",
    ),
    (
        "assign x = x + 1 before LONGEST then nothing is line SIDE 32767 x - k + 1 >= 0 beside step k + 1 then nothing",
        "yes",
    ),
    (
        "test always against never before LONGEST then nothing else nothing is line SIDE 32767 x - k >= 0 beside step k + 1 then nothing",
        "yes",
    ),
    ("skip LONGER then nothing", "too large"),
    (
        "assign y = 0 + [-inf, inf] before LONGER then nothing",
        "too large",
    ),
    ("assign x = x + 1 before LONGER then nothing", "too large"),
    (
        "test always against never before LONGER then nothing else nothing",
        "too large",
    ),
];

/// Calls on lines down one side, and their answers.
const DOWN_ONE_SIDE: &[(&str, &str)] = &[
    // Down the yes sides all rows hold at 32,768, and the last has no claim behind it; none holds at 0. Down the no sides the first row holds at 32,768, none at 0.
    (
        "assign x = 32768 before line yes 32768 x - k >= 0 beside end k then nothing",
        "nothing",
    ),
    (
        "assign x = 0 before line yes 32768 x - k >= 0 beside end k then nothing",
        "step 2",
    ),
    (
        "assign x = 32768 before line no 32768 x - k >= 0 beside end k then nothing",
        "step 32769",
    ),
    (
        "assign x = 0 before line no 32768 x - k >= 0 beside end k then nothing",
        "nothing",
    ),
    // The leaf of a store, by its number for x.
    (
        "leaf at 1 of line yes 65536 x - 1 >= 0 beside nothing then end 7",
        "end 7",
    ),
    (
        "leaf at 0 of line yes 65536 x - 1 >= 0 beside nothing then end 7",
        "nothing",
    ),
    (
        "leaf at 0 of line no 65536 x - 1 >= 0 beside nothing then end 7",
        "end 7",
    ),
    (
        "leaf at 1 of line no 65536 x - 1 >= 0 beside nothing then end 7",
        "nothing",
    ),
    // The rows that lead to a leaf, by its number.
    (
        "path 0 of line yes 65536 x - 1 >= 0 beside nothing then end 7",
        "65536 times x - 1 >= 0",
    ),
    (
        "path 65536 of line no 65536 x - 1 >= 0 beside nothing then end 7",
        "65536 times -x >= 0",
    ),
    // Trees that differ from each other: each pair is compared.
    (
        "distinct line yes 65536 x - 1 >= 0 beside nothing then end 7 ; line no 65536 x - 1 >= 0 beside nothing then end 7",
        "yes",
    ),
    // A leaf is given up: how many nodes and leaves there are then, what the tree says where x is 5, 1 and 0, and the tree.
    (
        "leaf at 1 of without 0 for nodes 7 line yes 65536 x - 1 >= 0 beside nothing then end 7",
        "nodes 7",
    ),
    (
        "leaf at 0 of without 0 for nodes 7 line yes 65536 x - 1 >= 0 beside nothing then end 7",
        "nothing",
    ),
    (
        "leaf at 0 of without 65536 for nodes 7 line no 65536 x - 1 >= 0 beside nothing then end 7",
        "nodes 7",
    ),
    (
        "leaf at 1 of without 65536 for nodes 7 line no 65536 x - 1 >= 0 beside nothing then end 7",
        "nothing",
    ),
];

/// What the check of a family gives up first, which has a line at the end of a program of two steps. A store is at each leaf of the line, whose own leaves
/// stand, since the program has ended there. The rank 0 of each is less than 1.
const CHECKED: &[(&str, &str)] = &[
    (
        "first all true until exit over int x; ; ; with all atom 0 with at 0 end 0 claims at 0 line yes 32767 x - k + 32767 >= 0 beside end 0 then end 0 at 1 step 2 at 2 step 1",
        "nothing is given up",
    ),
    (
        "first all true until exit over int x; ; ; with all atom 0 with at 0 end 0 claims at 0 line no 32767 x - k + 1 >= 0 beside end 0 then end 0 at 1 step 2 at 2 step 1",
        "nothing is given up",
    ),
    // A store comes to the last leaf of all, behind the 32,767 rows.
    (
        "first all true until exit over int x; ; ; with all atom 0 with at 0 end 0 claims at 0 line yes 32767 x - k + 32767 >= 0 beside end 0 then nothing at 1 step 2 at 2 step 1",
        "gives up 0 at 2 over the first edge for a point",
    ),
    (
        "first all true until exit over int x; ; ; with all atom 0 with at 0 end 0 claims at 0 line no 32767 x - k + 1 >= 0 beside end 0 then nothing at 1 step 2 at 2 step 1",
        "gives up 0 at 2 over the first edge for a point",
    ),
    // The label before the end has such a line too, and a claim at its last leaf alone: what is looked at for it is the whole line behind the whole line.
    (
        "first all true until exit over int x; ; ; with all atom 0 with at 0 end 0 claims at 0 line yes 32767 x - k + 32767 >= 0 beside end 0 then end 0 at 2 line yes 32767 x - k + 32767 >= 0 beside nothing then step 1",
        "nothing is given up",
    ),
    (
        "first all true until exit over int x; ; ; with all atom 0 with at 0 end 0 claims at 0 line no 32767 x - k + 1 >= 0 beside end 0 then nothing at 2 line no 32767 x - k + 1 >= 0 beside nothing then step 1",
        "gives up 32767 at 2 over the first edge for a point",
    ),
];

/// Writes what the call answers, or tells why the line says no call.
fn push_answer(
    alloc: Global,
    call: &str,
    answer: &mut Answer,
) -> Result<Option<&'static str>, AllocError> {
    let line = spaced(alloc, call)?;
    let words: Vec<&str> = line.as_str().split_whitespace().collect(alloc)?;
    let mut words = Words::of(&words);
    let name = words.take();
    if !tree_cases::answers(alloc, name, &mut words, answer)?
        && !check_cases::answers(alloc, name, &mut words, answer)?
    {
        return Ok(Some("no such call"));
    }
    Ok(words.fault())
}

/// The call answers this.
fn stands(rt: &(impl Abort + AllocGlobal), call: &str, wanted: &str) -> Result<(), Fail> {
    let mut answer = Answer::new(rt.alloc())?;
    let why = push_answer(rt.alloc(), call, &mut answer)?;
    assert!(rt; why.is_none(), "{call}: {why:?}");
    assert_eq!(rt; answer.whole()?, wanted.as_bytes(), "of {call}");
    Ok(())
}

/// The call with the lines down these sides.
fn down(alloc: Global, call: &str, side: &str) -> Result<String, Fail> {
    let call = call.replace(alloc, "LONGEST", "line SIDE 32767 x - k >= 0 beside end k")?;
    let call = call
        .as_str()
        .replace(alloc, "LONGER", "line SIDE 32768 x - k >= 0 beside end k")?;
    Ok(call.as_str().replace(alloc, "SIDE", side)?)
}

/// Each of the calls has its answer.
fn all_stand(rt: &(impl Abort + AllocGlobal), calls: &[(&str, &str)]) -> Result<(), Fail> {
    for (call, wanted) in calls {
        stands(rt, call, wanted)?;
    }
    Ok(())
}

/// Each of the calls has its answer with its lines down either side.
fn all_stand_down(rt: &(impl Abort + AllocGlobal), calls: &[(&str, &str)]) -> Result<(), Fail> {
    for (call, wanted) in calls {
        stands_down(rt, call, "yes", wanted)?;
        stands_down(rt, call, "no", wanted)?;
    }
    Ok(())
}

/// The call answers this with its lines down this side.
fn stands_down(
    rt: &(impl Abort + AllocGlobal),
    call: &str,
    side: &str,
    wanted: &str,
) -> Result<(), Fail> {
    let call = down(rt.alloc(), call, side)?;
    stands(rt, call.as_str(), wanted)
}

#[test]
fn lines_that_are_joined(rt: HostRuntime) -> Result<(), Fail> {
    all_stand_down(&rt, JOINED)
}

#[test]
fn lines_that_are_widened(rt: HostRuntime) -> Result<(), Fail> {
    all_stand_down(&rt, WIDENED_AND_COPIED)
}

#[test]
fn lines_that_are_moved(rt: HostRuntime) -> Result<(), Fail> {
    all_stand_down(&rt, MOVED)
}

#[test]
fn lines_down_one_side(rt: HostRuntime) -> Result<(), Fail> {
    all_stand(&rt, DOWN_ONE_SIDE)
}

#[test]
fn lines_that_are_checked(rt: HostRuntime) -> Result<(), Fail> {
    all_stand(&rt, CHECKED)
}
