//! Tables of trees with their lines and of reports with their texts, worked out by hand.
ghost use Rattle.std.specs.Prelude.{All, IsTrue, IfOk};
ghost use Rattle.decision_tree.specs.Plans.{plan_of};
ghost use Rattle.report_text.specs.Leaves.{HasConstantRanks};
ghost use Rattle.decision_tree.specs.Extent.{ComplementsFit};
ghost use Rattle.report_text.specs.Printed.{IsLineOver};

use Leaf::*;
use Said::*;
use Side::*;
use decision_tree::{AffineRank, HeldCause, Tree, Why};
use line_text::{Claim, are_over, is_claim_over};
use linear_cons::{Affine, Row, RowKind, Rows};
use report_text::{Counts, Explain, Header, Line, Lines, Report, Stop, Top, lines, print};
use std::alloc::{AllocError, Global};
use std::process::Abort;
use std::test::Fail;
use step_meaning::Names;

/// The numbers x, y and c of the function `x * x0 + y * x1 + c`. The names of `x0` and `x1` are `x` and `y`.
type Numbers = [i128; 3];

/// A leaf of a tree.
#[derive(Clone, Copy)]
enum Leaf {
    /// A claim of so many steps.
    Steps(i128),
    /// No claim.
    Nothing,
    /// No claim, given up.
    Given,
}

/// A side of a tree's root.
#[derive(Clone, Copy)]
enum Side {
    Only(Leaf),
    /// The one leaf where the function is at least 0, and the other elsewhere.
    Split(Numbers, Leaf, Leaf),
}

/// A tree: the one side where the function is at least 0, and the other elsewhere.
type Root = (Numbers, Side, Side);

/// What a line says.
#[derive(Clone, Copy)]
enum Said {
    Exactly(i128),
    Within(Numbers),
    Ranked(Numbers, Numbers),
    Holds,
    Unknown,
}

/// A line: the functions that are at least 0, and what it says where they are.
struct Stated(&'static [Numbers], Said);

/// The exact lines of a report, the proved ones, those of what ends by a rank, and the unknown ones.
type Sections = [&'static [Stated]; 4];

/// What a report explains: the number of labels, that of families, and how often each adviser was asked.
type Explained = Option<(u32, u32, &'static [u64])>;

/// `x >= 0 ? nothing : (y >= 0 ? given up : 2)`.
const HARDLY_DEFINED: Root = ([1, 0, 0], Only(Nothing), Split([0, 1, 0], Given, Steps(2)));

/// Trees, what their defined leaves claim, and their lines.
const LISTED: &[(Root, Top, &[Stated])] = &[
    // `x - 1 >= 0 ? (x >= 0 ? 3 : 5) : 1`: the rows of 5 are met nowhere, and `x >= 0` is looser than `x - 1 >= 0`.
    (
        (
            [1, 0, -1],
            Split([1, 0, 0], Steps(3), Steps(5)),
            Only(Steps(1)),
        ),
        Top::Bound,
        &[
            Stated(&[[1, 0, -1]], Within([0, 0, 3])),
            Stated(&[[-1, 0, 0]], Within([0, 0, 1])),
        ],
    ),
    (
        HARDLY_DEFINED,
        Top::Exact,
        &[
            Stated(&[[1, 0, 0]], Unknown),
            Stated(&[[-1, 0, -1], [0, 1, 0]], Unknown),
            Stated(&[[-1, 0, -1], [0, -1, -1]], Exactly(2)),
        ],
    ),
    (
        HARDLY_DEFINED,
        Top::Bound,
        &[
            Stated(&[[1, 0, 0]], Unknown),
            Stated(&[[-1, 0, -1], [0, 1, 0]], Unknown),
            Stated(&[[-1, 0, -1], [0, -1, -1]], Within([0, 0, 2])),
        ],
    ),
    (
        HARDLY_DEFINED,
        Top::Plain,
        &[
            Stated(&[[1, 0, 0]], Unknown),
            Stated(&[[-1, 0, -1], [0, 1, 0]], Unknown),
            Stated(&[[-1, 0, -1], [0, -1, -1]], Holds),
        ],
    ),
];

/// The lines of the long tree. Each leaf between its first and its last has opposed rows.
const LISTED_OF_LONG: &[Stated] = &[
    Stated(&[[1, 0, -1]], Exactly(1)),
    Stated(&[[-1, 0, 0]], Exactly(2)),
];

/// `x * x0 + y * x1 + c`.
fn function([x, y, constant]: Numbers) -> Affine {
    let mut coef = [0; 16];
    coef[0] = x;
    coef[1] = y;
    Affine { coef, constant }
}

/// The row of a constraint that has one.
fn row(numbers: Numbers) -> Result<Row, &'static str> {
    match Row::of(function(numbers)) {
        RowKind::Row(row) => Ok(row),
        RowKind::Always => Err("a row that always holds"),
        RowKind::Never => Err("a row that never holds"),
    }
}

/// A leaf whose rank is a constant.
fn claimed(alloc: Global, steps: i128) -> Result<Tree<AffineRank>, AllocError>
    ensures fits { IfOk result (λ tree. ComplementsFit (plan_of tree)) }
    ensures constant { IfOk result (λ tree. HasConstantRanks (plan_of tree)) }
{
    let rank = AffineRank {
        value: Affine::constant(steps),
    };
    let tree = Tree::claim(alloc, &Why::End, &rank)?;
    Ok(tree)
}

fn leaf_of(alloc: Global, leaf: &Leaf) -> Result<Tree<AffineRank>, AllocError>
    ensures fits { IfOk result (λ tree. ComplementsFit (plan_of tree)) }
    ensures constant { IfOk result (λ tree. HasConstantRanks (plan_of tree)) }
{
    match *leaf {
        Steps(steps) => claimed(alloc, steps),
        Nothing => Ok(Tree::Bottom),
        Given => Ok(Tree::Top(HeldCause::given())),
    }
}

/// A node with the row of a constraint whose complement fits.
fn node(
    alloc: Global,
    numbers: Numbers,
    yes: Tree<AffineRank>,
    no: Tree<AffineRank>,
) -> Result<Tree<AffineRank>, Fail>
    requires yes_fits { ComplementsFit (plan_of yes) }
    requires yes_constant { HasConstantRanks (plan_of yes) }
    requires no_fits { ComplementsFit (plan_of no) }
    requires no_constant { HasConstantRanks (plan_of no) }
    ensures fits { IfOk result (λ tree. ComplementsFit (plan_of tree)) }
    ensures constant { IfOk result (λ tree. HasConstantRanks (plan_of tree)) }
{
    let row = row(numbers)?;
    match row.not() {
        Ok(_) => {
            let tree = Tree::branch(alloc, row, yes, no)?;
            Ok(tree)
        }
        Err(_) => Err(Fail::from("wide")),
    }
}

fn side_of(alloc: Global, side: &Side) -> Result<Tree<AffineRank>, Fail>
    ensures fits { IfOk result (λ tree. ComplementsFit (plan_of tree)) }
    ensures constant { IfOk result (λ tree. HasConstantRanks (plan_of tree)) }
{
    match side {
        Only(leaf) => {
            let tree = leaf_of(alloc, leaf)?;
            Ok(tree)
        }
        Split(numbers, yes, no) => {
            let yes = leaf_of(alloc, yes)?;
            let no = leaf_of(alloc, no)?;
            node(alloc, *numbers, yes, no)
        }
    }
}

fn tree_of(alloc: Global, root: &Root) -> Result<Tree<AffineRank>, Fail>
    ensures fits { IfOk result (λ tree. ComplementsFit (plan_of tree)) }
    ensures constant { IfOk result (λ tree. HasConstantRanks (plan_of tree)) }
{
    let (numbers, yes, no) = root;
    let yes = side_of(alloc, yes)?;
    let no = side_of(alloc, no)?;
    node(alloc, *numbers, yes, no)
}

fn claim_of(said: &Said) -> Claim {
    match *said {
        Exactly(steps) => Claim::Exactly(steps),
        Ranked(high, low) => {
            let nought = Affine::constant(0);
            Claim::Ranked([nought, nought, nought, function(high), function(low)])
        }
        Within(numbers) => Claim::Within(function(numbers)),
        Holds => Claim::Holds,
        Unknown => Claim::Unknown,
    }
}

/// True exactly where these are the rows of the constraints, in the same order.
fn are_rows(rows: &[Row], constraints: &[Numbers]) -> bool {
    if rows.len() != constraints.len() {
        return false;
    }
    for (row, numbers) in rows.iter().zip(constraints) {
        if Row::of(function(*numbers)) != RowKind::Row(*row) {
            return false;
        }
    }
    true
}

/// True exactly where the lines are these, with their rows in the same order.
fn are_stated(lines: &[Line], wanted: &[Stated]) -> bool {
    if lines.len() != wanted.len() {
        return false;
    }
    for (line, Stated(constraints, said)) in lines.iter().zip(wanted) {
        if line.claim != claim_of(said) || !are_rows(line.rows.items(), constraints) {
            return false;
        }
    }
    true
}

/// Whether these are the lines of the tree.
fn lists(
    alloc: Global,
    tree: &Tree<AffineRank>,
    top: Top,
    wanted: &[Stated],
) -> Result<bool, AllocError>
    requires fits { ComplementsFit (plan_of tree.now) }
    requires constant { HasConstantRanks (plan_of tree.now) }
{
    let found = lines(alloc, tree, top)?;
    Ok(are_stated(found.items(), wanted))
}

#[test]
fn lines_of_leaves(rt: HostRuntime) -> Result<(), Fail> {
    for (root, top, wanted) in LISTED {
        let tree = tree_of(rt.alloc(), root)?;
        assert!(rt;
            lists(rt.alloc(), &tree, *top, wanted)?,
            "{} lines with {top:?}",
            wanted.len()
        );
    }
    Ok(())
}

/// A tree that is a line of nodes: each but the last has the leaf 1 on its yes side.
fn long_line(alloc: Global, nodes: u32) -> Result<Tree<AffineRank>, Fail>
    ensures fits { IfOk result (λ tree. ComplementsFit (plan_of tree)) }
    ensures constant { IfOk result (λ tree. HasConstantRanks (plan_of tree)) }
{
    let mut tree = claimed(alloc, 2)?;
    for _ in 0..nodes {
        tree = node(alloc, [1, 0, -1], claimed(alloc, 1)?, tree)?;
    }
    Ok(tree)
}

/// The walk goes 32,767 nodes deep.
#[test]
fn lines_of_a_deep_tree(rt: HostRuntime) -> Result<(), Fail> {
    let tree = long_line(rt.alloc(), 32_767)?;
    assert!(rt; lists(rt.alloc(), &tree, Top::Exact, LISTED_OF_LONG)?);
    Ok(())
}

fn line_of(alloc: Global, Stated(constraints, said): &Stated) -> Result<Line, Fail> {
    let mut rows = Vec::new(alloc);
    for numbers in *constraints {
        let row = row(*numbers)?;
        rows.push(row)?;
    }
    Ok(Line {
        rows: Rows::of(rows),
        claim: claim_of(said),
    })
}

fn lines_of(alloc: Global, stated: &[Stated]) -> Result<Lines, Fail> {
    let mut lines = Vec::new(alloc);
    for one in stated {
        let line = line_of(alloc, one)?;
        lines.push(line)?;
    }
    Ok(Lines::of(lines))
}

/// Lines, those that claim something and those that claim nothing.
const PARTED: &[(&[Stated], &[Stated], &[Stated])] = &[
    (&[], &[], &[]),
    (
        &[
            Stated(&[], Unknown),
            Stated(&[[1, 0, 0]], Holds),
            Stated(&[[0, 1, 0]], Unknown),
            Stated(&[], Exactly(3)),
        ],
        &[Stated(&[[1, 0, 0]], Holds), Stated(&[], Exactly(3))],
        &[Stated(&[], Unknown), Stated(&[[0, 1, 0]], Unknown)],
    ),
];

#[test]
fn claims_apart(rt: HostRuntime) -> Result<(), Fail> {
    for (stated, some, none) in PARTED {
        let lines = lines_of(rt.alloc(), stated)?;
        let (claiming, nothing) = lines.parted(rt.alloc())?;
        assert!(rt;
            are_stated(claiming.items(), some),
            "claims of {} lines",
            stated.len()
        );
        assert!(rt;
            are_stated(nothing.items(), none),
            "no claims of {} lines",
            stated.len()
        );
    }
    Ok(())
}

/// Neither the rows of a line nor the lines are in the order of their bytes.
const DISORDERED: Sections = [
    &[Stated(&[], Exactly(1))],
    &[
        Stated(&[[1, 0, -1], [-1, 0, 1]], Within([0, 0, 3])),
        Stated(&[[1, 0, -2]], Within([2, 0, 1])),
        Stated(&[[0, 1, 0], [1, 1, -1]], Within([0, 0, 1])),
    ],
    &[],
    &[Stated(&[[-1, 0, -1]], Unknown)],
];

/// What is written of them below the exact lines.
const ORDERED: &str =
    "proved:\n-x + 1 >= 0 and x - 1 >= 0: within 3 steps\nx + y - 1 >= 0 and y >= 0: within 1 step\nx - 2 >= 0: within 2*x + 1 steps\nunknown:\n-x - 1 >= 0: unknown\nverdict: some inputs\n";

/// A report, the text of its exact part, and what follows that.
struct Printed {
    header: Header,
    sections: Sections,
    explained: Explained,
    exact: &'static str,
    rest: &'static str,
}

/// Reports and their texts.
const REPORTS: &[Printed] = &[
    Printed {
        header: Header::Absent,
        sections: DISORDERED,
        explained: None,
        exact: "",
        rest: ORDERED,
    },
    Printed {
        header: Header::Whole { tests: 2 },
        sections: DISORDERED,
        explained: None,
        exact: "exact, 2 tests:\nalways: exactly 1 step\n",
        rest: ORDERED,
    },
    Printed {
        header: Header::Partial {
            tests: 1,
            cause: Stop::TooManyNodes,
        },
        sections: DISORDERED,
        explained: None,
        exact: "exact, 1 tests, then too many nodes:\nalways: exactly 1 step\n",
        rest: ORDERED,
    },
    Printed {
        header: Header::Stopped {
            cause: Stop::WideNumbers,
        },
        sections: DISORDERED,
        explained: None,
        exact: "exact: wide numbers\n",
        rest: ORDERED,
    },
    Printed {
        header: Header::Stopped {
            cause: Stop::NotPlain,
        },
        sections: DISORDERED,
        explained: None,
        exact: "exact: not a plain program\n",
        rest: ORDERED,
    },
    // Nothing is unknown.
    Printed {
        header: Header::Absent,
        sections: [&[], &[Stated(&[], Holds)], &[], &[]],
        explained: None,
        exact: "",
        rest: "proved:\nalways: holds\nunknown:\nverdict: all inputs\n",
    },
    // Something ends by a rank.
    Printed {
        header: Header::Stopped {
            cause: Stop::NotPlain,
        },
        sections: [
            &[],
            &[],
            &[
                Stated(&[[1, 0, -1]], Ranked([0, 0, 1], [2, 0, 2])),
                Stated(&[[-1, 0, 0]], Ranked([0, 0, 1], [0, 0, 2])),
            ],
            &[],
        ],
        explained: None,
        exact: "exact: not a plain program\n",
        rest: "proved:\nranked:\n-x >= 0: ends, rank w*(1) + 2\nx - 1 >= 0: ends, rank w*(1) + 2*x + 2\nunknown:\nverdict: all inputs\n",
    },
    Printed {
        header: Header::Absent,
        sections: [&[], &[], &[], &[]],
        explained: Some((3, 1, &[8, 0])),
        exact: "",
        rest: "proved:\nunknown:\nexplain:\nlabels 3\nfamilies 1\nadviser 1 asked 8\nadviser 2 asked 0\nverdict: all inputs\n",
    },
];

const NAMES: &[&str] = &["x", "y"];

fn names(alloc: Global) -> Result<Names, AllocError> {
    let mut list = Vec::new(alloc);
    for name in NAMES {
        list.push(name.as_bytes().to_vec(alloc)?)?;
    }
    Ok(Names::of(list))
}

/// True only where the rows and the claim of the line mention no variable past the names.
fn is_line_over(line: &Line, names: &Names) -> bool
    ensures { IsTrue result → IsLineOver names.now line.now }
{
    if !are_over(line.rows.items(), names) {
        return false;
    }
    if !is_claim_over(&line.claim, names) {
        return false;
    }
    true
}

/// The same of the lines.
fn lines_are_over(lines: &[Line], names: &Names) -> bool
    ensures { IsTrue result → All (IsLineOver names.now) lines.now }
{
    for line in lines {
        if !is_line_over(line, names) {
            return false;
        }
    }
    true
}

/// The text of the report, where its lines are over the names `x` and `y`.
fn text_of(alloc: Global, report: &Report) -> Result<Vec<u8>, Fail> {
    let names = names(alloc)?;
    if lines_are_over(report.exact.items(), &names)
        && lines_are_over(report.proved.items(), &names)
        && lines_are_over(report.ranked.items(), &names)
        && lines_are_over(report.unknown.items(), &names)
    {
        let text = print(alloc, report, &names)?;
        return Ok(text);
    }
    Err(Fail::from("past the names"))
}

fn explain_of(alloc: Global, explained: &Explained) -> Result<Option<Explain>, AllocError> {
    let Some((labels, families, asked)) = *explained else {
        return Ok(None);
    };
    let asked = Counts::of(asked.to_vec(alloc)?);
    Ok(Some(Explain {
        labels,
        families,
        asked,
    }))
}

fn report_of(
    alloc: Global,
    header: Header,
    [exact, proved, ranked, unknown]: Sections,
    explained: &Explained,
) -> Result<Report, Fail> {
    let exact = lines_of(alloc, exact)?;
    let proved = lines_of(alloc, proved)?;
    let ranked = lines_of(alloc, ranked)?;
    let unknown = lines_of(alloc, unknown)?;
    let explain = explain_of(alloc, explained)?;
    Ok(Report {
        header,
        exact,
        proved,
        ranked,
        unknown,
        explain,
    })
}

/// The bytes of the one text, followed by the other.
fn joined(alloc: Global, front: &str, rest: &str) -> Result<Vec<u8>, AllocError> {
    let mut text = front.as_bytes().to_vec(alloc)?;
    text.extend_from_slice(rest.as_bytes())?;
    Ok(text)
}

/// The report has this text.
fn prints(rt: &(impl Abort + AllocGlobal), printed: &Printed) -> Result<(), Fail> {
    let report = report_of(
        rt.alloc(),
        printed.header,
        printed.sections,
        &printed.explained,
    )?;
    let text = text_of(rt.alloc(), &report)?;
    let wanted = joined(rt.alloc(), printed.exact, printed.rest)?;
    assert_eq!(rt;
        text.as_slice(),
        wanted.as_slice(),
        "under {:?}",
        printed.header
    );
    Ok(())
}

#[test]
fn texts_of_reports(rt: HostRuntime) -> Result<(), Fail> {
    for printed in REPORTS {
        prints(&rt, printed)?;
    }
    Ok(())
}

/// The lines `always: exactly 0 steps` and so on.
fn many_lines(alloc: Global, count: u32) -> Result<Lines, AllocError> {
    let mut lines = Vec::new(alloc);
    for steps in 0..count {
        lines.push(Line {
            rows: Rows::of(Vec::new(alloc)),
            claim: Claim::Exactly(i128::from(steps)),
        })?;
    }
    Ok(Lines::of(lines))
}

#[test]
fn text_of_many_lines(rt: HostRuntime) -> Result<(), Fail> {
    let mut report = report_of(rt.alloc(), Header::Absent, [&[], &[], &[], &[]], &None)?;
    report.proved = many_lines(rt.alloc(), 65_536)?;
    let text = text_of(rt.alloc(), &report)?;
    // Lines of 23 bytes beside their digits, of which there are 316,570, but 22 where `step` stands; and 37 bytes around them.
    assert_eq!(rt; text.len(), 65_536 * 23 - 1 + 316_570 + 37);
    Ok(())
}
