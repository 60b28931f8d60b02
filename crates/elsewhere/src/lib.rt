// Out of step: a node is sending and some node has another slot number. The lowest sending node decides for all.
#![tactic(auto)]

ghost use Rattle.std.specs.Prelude.{◌≡◌, ◌<◌};
ghost use Rattle.run.specs.State.{node, is_sending, lowest, elsewhere, is_out_of_step, apart_tested};
ghost use Rattle.run.specs.Steps.{apart_of};

use plan::{Node, Plan, Refusal, TestedPlan};
use run::{Apart, Run};

// The lowest sending node.
fn first_sending(plan: TestedPlan, run: Run) -> Option<Node>
    ensures { result ≡ lowest plan.plan.nodes.0 (λ i. is_sending (node run i).mode) }
{
    let i = run.nodes[..plan.plan.nodes.0 as usize]
        .iter()
        .position(|node| node.mode.is_sending())?;
    Some(Node(i as u32))
}

// The lowest node in another slot than node i. (`i < N` is asked by clause: a type for a node of one plan would name the plan.)
fn first_elsewhere(plan: TestedPlan, run: Run, i: Node) -> Option<Node>
    requires { i.0 < plan.plan.nodes.0 }
    ensures { result ≡ lowest plan.plan.nodes.0 (elsewhere run i.0) }
{
    let slot = run.nodes[i.0 as usize].slot;
    let j = run.nodes[..plan.plan.nodes.0 as usize]
        .iter()
        .position(|node| node.slot != slot)?;
    Some(Node(j as u32))
}

// The out-of-step test of a plan that passed 1 to 9.
#[tactic(auto, using(run::proofs::Apartness::in_step_silent, run::proofs::Apartness::in_step_together, run::proofs::Apartness::out_lowest, run::proofs::Apartness::lowest_below))]
pub fn apart_tested(plan: TestedPlan, run: Run) -> Option<Apart>
    ensures { result ≡ apart_tested plan.plan run }
{
    let i = first_sending(plan, run)?;
    let j = first_elsewhere(plan, run, i)?;
    Some(Apart {
        sending: i,
        elsewhere: j,
    })
}

#[tactic(auto, using(run::proofs::Apartness::out_of_step_told))]
pub fn is_out_of_step(plan: TestedPlan, run: Run) -> bool
    ensures { result ≡ is_out_of_step plan.plan run }
{
    apart_tested(plan, run).is_some()
}

// The out-of-step test of any plan on any run.
#[tactic(auto, unfolding(run::specs::Steps::apart_of))]
pub fn out_of_step(plan: Plan, run: Run) -> Result<Option<Apart>, Refusal>
    ensures { result ≡ apart_of plan run }
{
    let tested = plan.tested()?;
    run.tested(tested)?;
    Ok(apart_tested(tested, run))
}
