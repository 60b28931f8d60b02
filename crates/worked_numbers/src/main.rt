// Document 01's numbers to check, and the columns with three or four nodes of the source's Tables 2, 4 and 5, run and
// compared: a line for each, which ends `same` or `DIFFERS`. Three columns of Table 4 differ, as document 01 says: two have
// g + t + 2 above k0, and for the third a smaller pair is accepted too.
#![tactic(auto)]

use case_lines::slots_in_order;
use plan::{Node, Plan, Refusal, Slot, Tick, Time};
use rules::Rule;
use std::{fmt, io};

// N, C, n, k0, g, t of a plan whose node i sends in slot i.
#[derive(Clone, Copy)]
struct Shape {
    nodes: Node,
    frame: Slot,
    active: Slot,
    ticks: Tick,
    guard: Tick,
    tail: Tick,
}

impl Shape {
    fn of(nodes: u32, frame: u16, active: u16, ticks: u8, guard: u8, tail: u8) -> Self {
        Self {
            nodes: Node(nodes),
            frame: Slot(frame),
            active: Slot(active),
            ticks: Tick(ticks),
            guard: Tick(guard),
            tail: Tick(tail),
        }
    }
}

impl fmt::Display for Shape {
    fn fmt<W: fmt::Write>(&self, f: &mut fmt::Formatter<W>) -> fmt::Result {
        write!(
            f,
            "N {} C {} k0 {}",
            self.nodes.0, self.frame.0, self.ticks.0
        )?;
        write!(f, " g {} t {}", self.guard.0, self.tail.0)
    }
}

fn plan_of(shape: Shape, min: u32, max: u32) -> Plan {
    Plan {
        nodes: shape.nodes,
        frame: shape.frame,
        active: shape.active,
        ticks: shape.ticks,
        guard: shape.guard,
        tail: shape.tail,
        min: Time(min),
        max: Time(max),
        slots: slots_in_order(shape.nodes, Slot(65535)),
    }
}

// What the rules make of a plan: M, and the rule that fails, if one does.
#[derive(Clone, Copy, PartialEq, Eq)]
struct Outcome {
    gap: Slot,
    failed: Option<Rule>,
}

fn accepted(gap: u16) -> Result<Outcome, Refusal> {
    Ok(Outcome {
        gap: Slot(gap),
        failed: None,
    })
}

fn fails(gap: u16, rule: Rule) -> Result<Outcome, Refusal> {
    Ok(Outcome {
        gap: Slot(gap),
        failed: Some(rule),
    })
}

fn judged(plan: Plan) -> Result<Outcome, Refusal> {
    let verdict = rules::judge(plan)?;
    Ok(Outcome {
        gap: verdict.gap,
        failed: verdict.failed,
    })
}

// A column of a table of the source: its min, whose max is one more.
#[derive(Clone, Copy)]
struct Column {
    table: u32,
    min: u32,
    shape: Shape,
}

impl Column {
    fn of(table: u32, min: u32, shape: Shape) -> Self {
        Self { table, min, shape }
    }
}

// A plan of document 01, and what comes out.
#[derive(Clone, Copy)]
struct Case {
    min: u32,
    max: u32,
    shape: Shape,
    outcome: Result<Outcome, Refusal>,
}

impl Case {
    fn of(min: u32, max: u32, shape: Shape, outcome: Result<Outcome, Refusal>) -> Self {
        Self {
            min,
            max,
            shape,
            outcome,
        }
    }
}

fn columns() -> [Column; 20] {
    [
        Column::of(2, 39, Shape::of(3, 6, 4, 10, 2, 2)),
        Column::of(2, 59, Shape::of(3, 8, 4, 10, 2, 2)),
        Column::of(2, 79, Shape::of(3, 10, 4, 10, 2, 2)),
        Column::of(2, 29, Shape::of(4, 6, 4, 10, 2, 2)),
        Column::of(2, 49, Shape::of(4, 8, 4, 10, 2, 2)),
        Column::of(2, 69, Shape::of(4, 10, 4, 10, 2, 2)),
        Column::of(4, 19, Shape::of(3, 6, 4, 5, 2, 2)),
        Column::of(4, 39, Shape::of(3, 6, 4, 10, 2, 2)),
        Column::of(4, 59, Shape::of(3, 6, 4, 15, 2, 2)),
        Column::of(4, 79, Shape::of(3, 6, 4, 20, 2, 2)),
        Column::of(4, 14, Shape::of(4, 6, 4, 5, 2, 2)),
        Column::of(4, 29, Shape::of(4, 6, 4, 10, 2, 2)),
        Column::of(4, 44, Shape::of(4, 6, 4, 15, 2, 2)),
        Column::of(4, 79, Shape::of(4, 6, 4, 20, 2, 2)),
        Column::of(5, 39, Shape::of(3, 6, 4, 10, 2, 2)),
        Column::of(5, 19, Shape::of(3, 6, 4, 10, 3, 3)),
        Column::of(5, 13, Shape::of(3, 6, 4, 10, 4, 4)),
        Column::of(5, 29, Shape::of(4, 6, 4, 10, 2, 2)),
        Column::of(5, 14, Shape::of(4, 6, 4, 10, 3, 3)),
        Column::of(5, 9, Shape::of(4, 6, 4, 10, 4, 4)),
    ]
}

// The numbers to check.
fn cases() -> [Case; 11] {
    [
        Case::of(39, 40, Shape::of(3, 6, 4, 10, 2, 2), accepted(4)),
        Case::of(38, 39, Shape::of(3, 6, 4, 10, 2, 2), fails(4, Rule::One)),
        Case::of(29, 30, Shape::of(4, 6, 4, 10, 2, 2), accepted(3)),
        Case::of(28, 29, Shape::of(4, 6, 4, 10, 2, 2), fails(3, Rule::One)),
        Case::of(19, 20, Shape::of(3, 6, 4, 10, 3, 3), accepted(4)),
        Case::of(18, 19, Shape::of(3, 6, 4, 10, 3, 3), fails(4, Rule::One)),
        Case::of(9, 10, Shape::of(4, 6, 4, 10, 4, 4), accepted(3)),
        Case::of(59, 60, Shape::of(3, 8, 4, 10, 2, 2), accepted(6)),
        Case::of(
            999980,
            1000020,
            Shape::of(10, 1129, 10, 29, 3, 2),
            accepted(1120),
        ),
        Case::of(
            999980,
            1000020,
            Shape::of(10, 1129, 10, 29, 2, 2),
            fails(1120, Rule::One),
        ),
        Case::of(
            999980,
            1000020,
            Shape::of(10, 1129, 10, 29, 3, 1),
            fails(1120, Rule::Three),
        ),
    ]
}

// Plans beside an edge.
fn edge_cases() -> [Case; 7] {
    [
        // with g = 1 rule 1 fails, however good the clocks
        Case::of(40, 40, Shape::of(3, 6, 4, 10, 1, 2), fails(4, Rule::One)),
        Case::of(
            2000000,
            2000000,
            Shape::of(4, 6, 4, 10, 1, 7),
            fails(3, Rule::One),
        ),
        Case::of(1, 1, Shape::of(3, 3, 3, 5, 1, 2), fails(1, Rule::One)),
        // g + t + 2 is k0, and one more
        Case::of(40, 40, Shape::of(3, 6, 4, 10, 4, 4), accepted(4)),
        Case::of(
            40,
            40,
            Shape::of(3, 6, 4, 10, 4, 5),
            Err(Refusal::GuardOrTailWrong),
        ),
        Case::of(40, 40, Shape::of(3, 6, 4, 10, 5, 3), accepted(4)),
        Case::of(
            40,
            40,
            Shape::of(3, 6, 4, 10, 5, 4),
            Err(Refusal::GuardOrTailWrong),
        ),
    ]
}

fn same(rt: &impl Print, yes: bool) -> io::Result<()> {
    println!(rt; " {}", if yes { "same" } else { "DIFFERS" })
}

fn outcome_word(rt: &impl Print, outcome: Result<Outcome, Refusal>) -> io::Result<()> {
    match outcome.map(|outcome| outcome.failed) {
        Ok(None) => print!(rt; " accepted"),
        Ok(Some(rule)) => print!(rt; " rule {}", rule.number()),
        Err(refusal) => print!(rt; " {refusal}"),
    }
}

fn case_line(rt: &impl Print, case: Case) -> io::Result<()> {
    let outcome = judged(plan_of(case.shape, case.min, case.max));
    let gap = outcome.map_or(0, |outcome| outcome.gap.0);
    print!(rt; "case {} {}/{}: gap {gap}", case.shape, case.min, case.max)?;
    outcome_word(rt, outcome)?;
    same(rt, outcome == case.outcome)
}

fn judged_from(shape: Shape, min: u32) -> Result<Outcome, Refusal> {
    judged(plan_of(shape, min, min.saturating_add(1)))
}

// The smallest min below 1,000 with which the rules accept min and min + 1.
fn smallest(shape: Shape) -> Option<u32> {
    (1..1000).find(|min| judged_from(shape, *min).is_ok_and(|outcome| outcome.failed.is_none()))
}

fn column_line(rt: &impl Print, column: Column) -> io::Result<()> {
    print!(rt;
        "table {} {}: source {}",
        column.table, column.shape, column.min
    )?;
    outcome_word(rt, judged_from(column.shape, column.min))?;
    let found = smallest(column.shape);
    match found {
        Some(min) => print!(rt; ", smallest {min}")?,
        None => print!(rt; ", smallest none")?,
    }
    same(rt, found == Some(column.min))
}

fn main(rt: HostRuntime) -> io::Result<()> {
    for case in cases() {
        case_line(&rt, case)?;
    }
    for case in edge_cases() {
        case_line(&rt, case)?;
    }
    for column in columns() {
        column_line(&rt, column)?;
    }
    Ok(())
}
