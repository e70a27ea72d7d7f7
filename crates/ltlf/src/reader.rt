// Reads a task from its prefix text.
ghost use Rattle.std.specs.Prelude.{◌≡◌, ◌-◌, ◌≤◌, [], length, vec_len};
ghost use Rattle.ltlf.specs.Nodes.{temporal};
ghost use Rattle.ltlf.specs.Prefix.{sign_node, beyond, blank, operands_of, limit, in_range, Read, TextLaw};
ghost use Rattle.ltlf.specs.Steps.{with_second, Skipped, Takes, Grows, Whole};

use crate::node::Node;
use crate::task::{MAX_SIGNS, Task};
use wire::refusal::{Cause, Refusal};

// As one byte, as actions are told; what counts places in a row has a length of its own.
const MAX_ACTIONS: u8 = 16;

const MAX_LEVELS: u8 = 16;

const MAX_TEMPORALS: u8 = 7;

// How far a reading has come: the place of the next byte, and the temporal signs so far.
#[derive(Clone, Copy)]
struct Progress {
    at: usize,
    temporals: u8,
}

// A text that is read for so many actions, and how far the reading has come. What moves it says that text and actions stay: that relates
// before and after, so no invariant can.
#[derive(Drop)]
struct Parser<'t> {
    text: &'t [u8],
    actions: u8,
    progress: Progress,
    ghost within: { progress.at ≤ length text.now },
    ghost few_temporals: { progress.temporals ≤ 7 },
}

// How many operands a sign takes.
#[derive(Clone, Copy)]
enum Operands {
    Zero,
    One,
    Two,
}

// The node of one sign or letter. Its first operand has the number `first`; the second's is set once it is known.
fn node_of(sign: char, first: u8) -> Option<Node>
    ensures { result ≡ sign_node sign first }
{
    match sign {
        '!' => Some(Node::Not(first)),
        'X' => Some(Node::Next(first)),
        'N' => Some(Node::WeakNext(first)),
        'F' => Some(Node::Eventually(first)),
        'G' => Some(Node::Always(first)),
        '&' => Some(Node::And(first, 0)),
        '|' => Some(Node::Or(first, 0)),
        '>' => Some(Node::Implies(first, 0)),
        'U' => Some(Node::Until(first, 0)),
        'R' => Some(Node::Release(first, 0)),
        'a'..='z' => Some(Node::Action(sign as u8 - b'a')),
        _ => None,
    }
}

// The same sign with its second operand.
fn with_second(node: Node, second: u8) -> Node
    ensures { result ≡ with_second node second }
{
    match node {
        Node::And(first, _) => Node::And(first, second),
        Node::Or(first, _) => Node::Or(first, second),
        Node::Implies(first, _) => Node::Implies(first, second),
        Node::Until(first, _) => Node::Until(first, second),
        Node::Release(first, _) => Node::Release(first, second),
        _ => node,
    }
}

fn operands_of(node: Node) -> Operands
    ensures { result ≡ operands_of node }
{
    match node {
        Node::Action(_) => Operands::Zero,
        Node::And(_, _) | Node::Or(_, _) | Node::Implies(_, _) => Operands::Two,
        Node::Until(_, _) | Node::Release(_, _) => Operands::Two,
        _ => Operands::One,
    }
}

// Whether the sign is one of X, N, F, G, U, R.
fn is_temporal(node: Node) -> bool
    ensures { result ≡ temporal node }
{
    matches!(
        node,
        Node::Next(_)
            | Node::WeakNext(_)
            | Node::Eventually(_)
            | Node::Always(_)
            | Node::Until(_, _)
            | Node::Release(_, _)
    )
}

// Whether it is a letter that is none of the actions.
fn is_beyond(node: Node, actions: u8) -> bool
    ensures { result ≡ beyond actions node }
{
    matches!(node, Node::Action(a) if a >= actions)
}

// Blanks and line ends are passed over.
fn is_blank(byte: u8) -> bool
    ensures { result ≡ blank byte }
{
    matches!(byte, b' ' | b'\n')
}

impl<'t> Parser<'t> {
    // The place of the first byte from the next one on that is no blank, or the length.
    fn past_blanks(&self) -> usize
        ensures { Skipped self.now.text.now self.now.progress.at result }
    {
        let blanks = self.text[self.progress.at..]
            .iter()
            .take_while(|byte| is_blank(**byte));
        self.progress.at + blanks.count()
    }

    // The first limit that a sign or letter breaks, with `levels` left to it, behind `count` others.
    fn broken_limit(&self, node: Node, levels: u8, count: usize) -> Option<Cause>
        ensures { result ≡ limit self.now.actions count self.now.progress.temporals (17 - levels) node }
    {
        if is_beyond(node, self.actions) {
            return Some(Cause::LetterOutOfRange);
        }
        if count >= MAX_SIGNS {
            return Some(Cause::TooManySigns);
        }
        if levels == 0 {
            return Some(Cause::TooDeep);
        }
        if is_temporal(node) && self.progress.temporals >= MAX_TEMPORALS {
            return Some(Cause::TooManyTemporal);
        }
        None
    }

    // Takes the next sign or letter, as number `count`, with `levels` left to it, if every limit allows it.
    fn take_sign(&mut self, levels: u8, count: usize) -> Result<Node, Refusal>
        requires { count ≤ 64 }
        ensures takes { Takes self.old.actions self.old.text.now levels count self.old.progress self.new.progress result }
        ensures same_text { self.new.text.now ≡ self.old.text.now }
        ensures same_actions { self.new.actions ≡ self.old.actions }
    {
        let at = self.past_blanks();
        let Some(byte) = self.text.get(at) else {
            return Err(Cause::Incomplete.at(at));
        };
        let Some(node) = node_of(char::from(*byte), count as u8 + 1) else {
            return Err(Cause::UnknownByte.at(at));
        };
        if let Some(cause) = self.broken_limit(node, levels, count) {
            return Err(cause.at(at));
        }
        self.progress = Progress {
            at: at + 1,
            temporals: self.progress.temporals + u8::from(is_temporal(node)),
        };
        Ok(node)
    }

    // Reads one formula, at most `levels` deep, behind the nodes that are there.
    fn formula(&mut self, levels: u8, nodes: &mut Vec<Node>) -> Result<(), Refusal>
        requires { (levels ≤ 16) × (vec_len nodes.old ≤ 64) }
        ensures grows { Grows self.old.actions self.old.text.now levels self.old.progress self.new.progress nodes.old.items nodes.new.items result }
        ensures few { vec_len nodes.new ≤ 64 }
        ensures same_text { self.new.text.now ≡ self.old.text.now }
        ensures same_actions { self.new.actions ≡ self.old.actions }
    {
        let top = nodes.len();
        let node = self.take_sign(levels, top)?;
        nodes.push(node)?;
        match operands_of(node) {
            Operands::Zero => Ok(()),
            Operands::One => self.formula(levels - 1, nodes),
            Operands::Two => {
                self.formula(levels - 1, nodes)?;
                let second = nodes.len() as u8;
                nodes[top] = with_second(node, second);
                self.formula(levels - 1, nodes)
            }
        }
    }
}

// Reads a formula into the empty list of nodes, and sees that nothing but blanks follows it.
fn read_whole(text: &[u8], actions: u8, nodes: &mut Vec<Node>) -> Result<(), Refusal>
    requires { nodes.old.items ≡ [] }
    ensures whole { Whole actions text.now nodes.new.items result }
    ensures few { vec_len nodes.new ≤ 64 }
{
    let mut parser = Parser {
        text,
        actions,
        progress: Progress {
            at: 0,
            temporals: 0,
        },
    };
    parser.formula(MAX_LEVELS, nodes)?;
    let at = parser.past_blanks();
    let Some(byte) = text.get(at) else {
        return Ok(());
    };
    match node_of(char::from(*byte), nodes.len() as u8 + 1) {
        None => Err(Cause::UnknownByte.at(at)),
        Some(_) => Err(Cause::FormulaComplete.at(at)),
    }
}

// Whether a task may have so many actions.
fn in_range(actions: u8) -> bool
    ensures { result ≡ in_range actions }
{
    (1..=MAX_ACTIONS).contains(&actions)
}

// Reads the task that `text` holds, for so many actions; after a refusal `out` is the zero task.
// The caller's own value is filled and not one answered, since the promise tells it after a refusal too.
pub fn read_task(actions: u8, text: &[u8], out: &mut Task) -> Result<(), Refusal>
    ensures reads { Read actions text.now result out.new.actions out.new.nodes.items }
    ensures law { TextLaw actions text.now }
{
    out.actions = 0;
    out.nodes.clear();
    if !in_range(actions) {
        return Err(Cause::ActionsOutOfRange.at(0));
    }
    match read_whole(text, actions, &mut out.nodes) {
        Ok(()) => {
            out.actions = actions;
            Ok(())
        }
        Err(refusal) => {
            out.nodes.clear();
            Err(refusal)
        }
    }
}
