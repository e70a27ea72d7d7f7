// Whether a trace satisfies a task, in time proportional to the nodes times the trace's length.
// The truth of every node is known on a suffix of the trace; actions are put in front of it, the last one first.
ghost use Rattle.std.specs.Prelude.{◌≡◌, ℕ, List, [], ◌∷◌, Decides};
ghost use Rattle.ltlf.specs.Meaning.{Satisfies};
ghost use Rattle.ltlf.specs.Rows.{operand_bit, truth_at_end, pending_on, truth_before, Rule, TakesNodes, Computes, row_by, end_rule, pending_rule, before_rule, truths, keeps};
ghost use Rattle.ltlf.specs.Suffix.{empty, BySuffix};
ghost use Rattle.ltlf.specs.Tasks.{task_formula};
ghost use Rattle.ltlf.specs.Truth.{satisfied};

use crate::node::Node;
use crate::task::{MAX_SIGNS, Task};

// One bit for each node, by the node's number; false past the nodes. An array of full size: rows are copied into what is searched.
pub type Row = [bool; MAX_SIGNS];

// The bit of operand `i` of node `n`. An operand stands behind its sign; any other number has no bit.
fn operand(row: &[bool], n: usize, i: u8) -> bool
    ensures { result ≡ operand_bit n row.now i }
{
    let at = usize::from(i);
    n < at && row.get(at).copied().unwrap_or(false)
}

// A node and its number stay two parameters in these rules, as the closures of `row_by` are given them.

// The truth of node `n` on the empty trace, from the truth of the nodes behind it.
fn truth_at_end(node: Node, n: usize, here: &[bool]) -> bool
    ensures { result ≡ truth_at_end (operand_bit n here.now) node }
{
    let here = |i| operand(here, n, i);
    match node {
        Node::Action(_) => false,
        Node::Not(f) => !here(f),
        Node::Next(_) => false,
        Node::WeakNext(_) => true,
        Node::Eventually(_) => false,
        Node::Always(_) => true,
        Node::And(f, g) => here(f) && here(g),
        Node::Or(f, g) => here(f) || here(g),
        Node::Implies(f, g) => !here(f) || here(g),
        Node::Until(_, _) => false,
        Node::Release(_, _) => true,
    }
}

// What node `n` keeps of a suffix whose row is `row`.
fn pending_on(node: Node, n: usize, row: &[bool], own: bool, ended: bool) -> bool
    ensures { result ≡ pending_on (operand_bit n row.now) own ended node }
{
    let there = |i| operand(row, n, i);
    match node {
        Node::Next(f) => !ended && there(f),
        Node::WeakNext(f) => ended || there(f),
        Node::Eventually(_) | Node::Always(_) | Node::Until(_, _) | Node::Release(_, _) => own,
        Node::Action(_) | Node::Not(_) => false,
        Node::And(_, _) | Node::Or(_, _) | Node::Implies(_, _) => false,
    }
}

// The truth of node `n` with `action` in front of a suffix of which it kept `pending`.
fn truth_before(node: Node, n: usize, action: u8, pending: bool, here: &[bool]) -> bool
    ensures { result ≡ truth_before (operand_bit n here.now) action pending node }
{
    let here = |i| operand(here, n, i);
    match node {
        Node::Action(a) => action == a,
        Node::Not(f) => !here(f),
        Node::Next(_) | Node::WeakNext(_) => pending,
        Node::Eventually(f) => here(f) || pending,
        Node::Always(f) => here(f) && pending,
        Node::And(f, g) => here(f) && here(g),
        Node::Or(f, g) => here(f) || here(g),
        Node::Implies(f, g) => !here(f) || here(g),
        Node::Until(f, g) => here(g) || (here(f) && pending),
        Node::Release(f, g) => here(g) && (here(f) || pending),
    }
}

// The bit of every node by `rule`, which has the node's number, the node and the row of the nodes behind it.
fn row_by<F: Fn(usize, Node, &Row) -> bool>(nodes: &[Node], rule: F) -> Row
    requires { TakesNodes (F.pre rule) }
    ensures { (r : Rule) → Computes (F.post rule) r → result ≡ row_by r nodes.now }
{
    let mut row = [false; MAX_SIGNS];
    let counted = &nodes[..nodes.len().min(MAX_SIGNS)];
    for (n, node) in counted.iter().enumerate().rev() {
        row[n] = rule(n, *node, &row);
    }
    row
}

// The truth of every node on the empty trace.
pub fn end_row(nodes: &[Node]) -> Row
    ensures value { result ≡ row_by end_rule nodes.now }
    ensures means { result ≡ truths nodes.now [] }
{
    row_by(nodes, |n, node, here| truth_at_end(node, n, here))
}

// What every node keeps of a suffix whose row is `row`, and which is empty if `ended`: the row alone does not tell.
pub fn pending_row(nodes: &[Node], row: &Row, ended: bool) -> Row
    ensures value { result ≡ row_by (pending_rule row.now ended) nodes.now }
    ensures means { (w : List ℕ) → row.now ≡ truths nodes.now w → ended ≡ empty w → result ≡ keeps nodes.now w }
{
    row_by(nodes, |n, node, _| pending_on(node, n, row, row[n], ended))
}

// The truth of every node with `action` in front of a suffix of which the nodes kept `pending`.
pub fn row_before(nodes: &[Node], action: u8, pending: &Row) -> Row
    ensures value { result ≡ row_by (before_rule action pending.now) nodes.now }
    ensures means { (w : List ℕ) → pending.now ≡ keeps nodes.now w → result ≡ truths nodes.now (action ∷ w) }
{
    row_by(
        nodes,
        |n, node, here| truth_before(node, n, action, pending[n], here),
    )
}

// Whether the trace satisfies the task.
pub fn satisfies(task: &Task, trace: &[u8]) -> bool
    ensures value { result ≡ satisfied (task_formula task.now) trace.now }
    ensures means { Decides result (Satisfies (task_formula task.now) trace.now) }
    ensures edges { BySuffix }
{
    let nodes = task.nodes();
    let mut row = end_row(nodes);
    let mut ended = true;
    for action in trace.iter().rev() {
        let pending = pending_row(nodes, &row, ended);
        row = row_before(nodes, *action, &pending);
        ended = false;
    }
    row[0]
}
