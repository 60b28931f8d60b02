// The byte form of a run, which a caller outside keeps and lends.
#![tactic(auto)]

ghost use Rattle.std.specs.Prelude.{◌≡◌, ◌+◌, ◌*◌, ◌≤◌, length};
ghost use Rattle.std.proofs.lemmas.List.Edits.{sets};
ghost use Rattle.laws.specs.Below.{any_below};
ghost use Rattle.run_bytes.specs.RunBytes.{mode_byte, mode_in, node_bytes, last_bytes, node_in, last_in, run_in, run_bytes, node_wrong, spells_no_run};

use plan::{Slot, Tick, Time};
use plan_file::{be16, be32};
use run::{Mode, NodeState, Run, fresh};

// A form of any length put from a place on. (Bytes are slices here, long enough by clause: an array would ask for one length.)
pub fn put(bytes: &mut [u8], at: usize, form: &[u8])
    requires { at + length form.now ≤ length bytes.old }
    ensures { bytes.new ≡ sets bytes.old at form.now }
{
    bytes[at..at + form.len()].copy_from_slice(form);
}

// A mode's byte, and back. (No `From`: it would stand with the type, in a crate that knows nothing of bytes.)
fn mode_byte(mode: Mode) -> u8
    ensures { result ≡ mode_byte mode }
{
    match mode {
        Mode::Waiting => 0,
        Mode::AboutToSend => 1,
        Mode::Sending => 2,
    }
}

#[tactic(auto, unfolding(crate::specs::RunBytes::mode_in))]
fn mode_in(byte: u8) -> Mode
    ensures { result ≡ mode_in byte }
{
    match byte {
        0 => Mode::Waiting,
        1 => Mode::AboutToSend,
        _ => Mode::Sending,
    }
}

#[tactic(auto, unfolding(crate::specs::RunBytes::node_in))]
fn node_in(bytes: &[u8], at: usize) -> NodeState
    requires { at + 9 ≤ length bytes.now }
    ensures { result ≡ node_in bytes.now at }
{
    NodeState {
        clock: Tick(bytes[at]),
        slot: Slot(be16(bytes, at + 1)),
        time: Time(be32(bytes, at + 3)),
        mode: mode_in(bytes[at + 7]),
        pending: bytes[at + 8] != 0,
    }
}

#[tactic(auto, unfolding(crate::specs::RunBytes::last_in))]
fn last_in(bytes: &[u8]) -> Option<Slot>
    requires { 291 ≤ length bytes.now }
    ensures { result ≡ last_in bytes.now }
{
    if bytes[288] == 0 {
        return None;
    }
    Some(Slot(be16(bytes, 289)))
}

// (`nodes ≤ 32` is asked by clause, not by a `TestedPlan`: bytes are spelt with no plan at hand.)
// The run that bytes spell, its first places and its last message; the other places are fresh.
pub fn read_run(bytes: &[u8], nodes: usize) -> Run
    requires { (nodes ≤ 32) × (291 ≤ length bytes.now) }
    ensures { result ≡ run_in nodes bytes.now }
{
    let mut places = fresh().nodes;
    for (k, node) in places[..nodes].iter_mut().enumerate() {
        *node = node_in(bytes, 9 * k);
    }
    Run {
        nodes: places,
        last: last_in(bytes),
    }
}

fn write_node(bytes: &mut [u8], at: usize, node: NodeState)
    requires { at + 9 ≤ length bytes.old }
    ensures { bytes.new ≡ sets bytes.old at (node_bytes node) }
{
    put(bytes, at, &[node.clock.0]);
    put(bytes, at + 1, &node.slot.0.to_be_bytes());
    put(bytes, at + 3, &node.time.0.to_be_bytes());
    put(
        bytes,
        at + 7,
        &[mode_byte(node.mode), u8::from(node.pending)],
    );
}

fn write_last(bytes: &mut [u8], last: Option<Slot>)
    requires { 291 ≤ length bytes.old }
    ensures { bytes.new ≡ sets bytes.old 288 (last_bytes last) }
{
    match last {
        Some(slot) => {
            put(bytes, 288, &[1]);
            put(bytes, 289, &slot.0.to_be_bytes());
        }
        None => put(bytes, 288, &[0, 0, 0]),
    }
}

// A run put into bytes: its first places and its last message; every other byte is as it was.
pub fn write_run(bytes: &mut [u8], nodes: usize, run: Run)
    requires { (nodes ≤ 32) × (291 ≤ length bytes.old) }
    ensures { bytes.new ≡ run_bytes nodes run bytes.old }
{
    for (k, node) in run.nodes[..nodes].iter().enumerate() {
        write_node(bytes, 9 * k, *node);
    }
    write_last(bytes, run.last);
}

#[tactic(auto, unfolding(crate::specs::RunBytes::node_wrong))]
fn node_wrong(bytes: &[u8], at: usize) -> bool
    requires { at + 9 ≤ length bytes.now }
    ensures { result ≡ node_wrong bytes.now at }
{
    2 < bytes[at + 7] || 1 < bytes[at + 8]
}

// No mode or no mark stands where one of the first places should have it.
fn some_node_wrong(bytes: &[u8], nodes: usize) -> bool
    requires { 9 * nodes ≤ length bytes.now }
    ensures { result ≡ any_below nodes (λ k. node_wrong bytes.now (9 * k)) }
{
    (0..nodes).any(|k| node_wrong(bytes, 9 * k))
}

// The bytes spell no run: no mode or no mark stands where one of the first places or the last message should have it.
#[tactic(auto, unfolding(crate::specs::RunBytes::spells_no_run))]
pub fn spells_no_run(bytes: &[u8], nodes: usize) -> bool
    requires { (nodes ≤ 32) × (291 ≤ length bytes.now) }
    ensures { result ≡ spells_no_run nodes bytes.now }
{
    some_node_wrong(bytes, nodes) || 1 < bytes[288]
}
