// The five lines of a verdict.
#![tactic(auto)]

ghost use Rattle.std.specs.Prelude.{◌≡◌, cond, ◌+◌, ◌≤◌, length};
ghost use Rattle.rules.specs.Rules.{holds};
ghost use Rattle.text.specs.Text.{bytes, Put};
ghost use Rattle.text.specs.Written.{wrote_of, buffer_of};
ghost use Rattle.verdict_lines.specs.VerdictLines.{rule_line, outcome_line, verdict_lines, judged_text};

use lines::put_refused;
use plan::{Node, Refusal};
use rules::{Rule, Sides, Verdict};
use text::{put_ended, put_in_room, put_numbered, put_wide, put_word};

fn put_holds(out: &mut [u8], at: usize, sides: Sides) -> usize
    requires { at + 7 ≤ length out.old }
    ensures { Put 7 out.old at (cond (holds sides) (bytes " holds\n") (bytes " fails\n")) out.new result }
{
    if sides.holds() {
        return put_word(out, at, b" holds\n");
    }
    put_word(out, at, b" fails\n")
}

// (Buffer and place as in `text`.)
fn put_rule(out: &mut [u8], at: usize, rule: Rule, sides: Sides) -> usize
    requires { at + 64 ≤ length out.old }
    ensures { Put 64 out.old at (rule_line rule sides) out.new result }
{
    let first = put_numbered(out, at, b"rule ", rule.number() as u32);
    let second = put_wide(out, first, b" ", sides.left);
    let third = put_wide(out, second, b" ", sides.right);
    put_holds(out, third, sides)
}

fn put_outcome(out: &mut [u8], at: usize, failed: Option<Rule>) -> usize
    requires { at + 24 ≤ length out.old }
    ensures { Put 24 out.old at (outcome_line failed) out.new result }
{
    match failed {
        None => put_word(out, at, b"verdict in step\n"),
        Some(rule) => put_ended(out, at, b"verdict rule ", rule.number() as u32),
    }
}

fn put_verdict(out: &mut [u8], at: usize, nodes: Node, verdict: Verdict) -> usize
    requires { at + 254 ≤ length out.old }
    ensures { Put 254 out.old at (verdict_lines nodes.0 verdict) out.new result }
{
    let first = put_numbered(out, at, b"CSP 1 nodes ", nodes.0);
    let second = put_ended(out, first, b" gap ", verdict.gap.0 as u32);
    let third = put_rule(out, second, Rule::One, verdict.one);
    let fourth = put_rule(out, third, Rule::Two, verdict.two);
    let fifth = put_rule(out, fourth, Rule::Three, verdict.three);
    put_outcome(out, fifth, verdict.failed)
}

#[tactic(auto, unfolding(crate::specs::VerdictLines::judged_text))]
fn put_judged(out: &mut [u8], at: usize, nodes: Node, judged: Result<Verdict, Refusal>) -> usize
    requires { at + 254 ≤ length out.old }
    ensures { Put 254 out.old at (judged_text nodes.0 judged) out.new result }
{
    match judged {
        Ok(verdict) => put_verdict(out, at, nodes, verdict),
        Err(refusal) => put_refused(out, at, refusal.number()),
    }
}

// The five lines of a verdict, or the one of a refusal.
pub fn write_judged(
    out: &mut [u8],
    at: usize,
    nodes: Node,
    judged: Result<Verdict, Refusal>,
) -> Option<usize>
    ensures value { result ≡ wrote_of 256 out.old at (judged_text nodes.0 judged) }
    ensures out_after { out.new ≡ buffer_of 256 out.old at (judged_text nodes.0 judged) }
{
    put_in_room(out, at, 256, |out| put_judged(out, at, nodes, judged))
}
