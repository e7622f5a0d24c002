// The second check: the whole tree is built from the brackets, each node is looked at for itself, and of all that is wrong
// the earliest counts.
use crate::Move;
use crate::answers::{Flaw, Loaded, Reason, Refusal};
use crate::failure::Failure;
use crate::plain::{Piece, Plain};
use crate::reading::Guided;
use std::alloc::{AllocError, Global};

const MOST_EVENTS: usize = 16_000;

const MOST_FRAMES: usize = 1_024;

// A flaw, and how many answers of the guide came before it.
#[derive(Clone, Copy, PartialEq, Eq, PartialOrd, Ord)]
struct Found {
    event: usize,
    flaw: Flaw,
}

#[derive(Clone, Copy)]
enum Label {
    Rule(u16),
    Leaf(u8),
}

// The edge to a node from its parent: the parent's label, and the node's place among the parent's children.
#[derive(Clone, Copy)]
struct Edge {
    parent: Label,
    place: usize,
}

// A node of the tree: how many nodes were open and how many leaves told before it, how many children it has, and the events at
// which it was entered and, if ever, left.
#[derive(Clone, Copy)]
struct Node {
    label: Label,
    edge: Option<Edge>,
    above: usize,
    leaves: usize,
    children: usize,
    entered: usize,
    left: Option<usize>,
}

// The nodes that are open, the newest last, those that were left, the leaves, and the first leave for which no node was open.
// No node is held in its parent: a guide can open more than 16,000, and recursion over as many levels may exhaust the stack.
#[derive(Drop)]
struct Tree {
    open: Vec<Node>,
    closed: Vec<Node>,
    leaves: Vec<Node>,
    stray: Option<usize>,
}

impl Flaw {
    fn at(self, event: usize) -> Found {
        Found { event, flaw: self }
    }
}

// What the check says of a guide that was read.
pub(crate) fn judge(
    heap: Global,
    grammar: &Plain,
    guided: &Guided,
    text: &[u8],
    frames: usize,
) -> Result<Loaded, Failure<Refusal>> {
    let moves = guided.moves.as_slice();
    let tree = plant(heap, moves)?;
    match first_flaw(grammar, &tree, guided, text, frames.min(MOST_FRAMES)) {
        Some(found) => Err(refusal(moves, found).into()),
        None => Ok(Loaded {
            rules: tree.closed.len(),
            bytes: tree.leaves.len(),
            steps: moves.len() + 1,
        }),
    }
}

fn refusal(moves: &[Move], found: Found) -> Refusal {
    let before = moves.iter().take(found.event);
    Refusal {
        reason: Reason::Flaw(found.flaw),
        events: found.event,
        bytes: before.filter(|each| matches!(each, Move::Byte(_))).count(),
    }
}

fn plant(heap: Global, moves: &[Move]) -> Result<Tree, AllocError> {
    let mut tree = Tree {
        open: Vec::new(heap),
        closed: Vec::new(heap),
        leaves: Vec::new(heap),
        stray: None,
    };
    for (event, each) in moves.iter().enumerate() {
        match each {
            Move::Enter(rule) => {
                let node = tree.child(Label::Rule(*rule), event);
                tree.open.push(node)?
            }
            Move::Byte(byte) => {
                let leaf = tree.child(Label::Leaf(*byte), event);
                tree.leaves.push(leaf)?
            }
            Move::Leave => match tree.open.pop() {
                Some(node) => tree.closed.push(Node {
                    left: Some(event),
                    ..node
                })?,
                None => tree.stray = tree.stray.or(Some(event)),
            },
        }
    }
    Ok(tree)
}

impl Tree {
    // A new child of the newest open node.
    fn child(&mut self, label: Label, entered: usize) -> Node {
        Node {
            label,
            above: self.open.len(),
            edge: self.open.last_mut().map(|parent| parent.next_edge()),
            leaves: self.leaves.len(),
            children: 0,
            entered,
            left: None,
        }
    }
}

impl Node {
    // The edge to one more child.
    fn next_edge(&mut self) -> Edge {
        let place = self.children;
        self.children = place.saturating_add(1);
        Edge {
            parent: self.label,
            place,
        }
    }
}

fn first_flaw(
    grammar: &Plain,
    tree: &Tree,
    guided: &Guided,
    text: &[u8],
    frames: usize,
) -> Option<Found> {
    let nodes = tree
        .closed
        .iter()
        .chain(tree.open.iter())
        .chain(tree.leaves.iter());
    let entering = nodes.filter_map(|node| entering_flaw(grammar, node, text, frames).map(
        |flaw| flaw.at(node.entered),
    ));
    let leaving = tree
        .closed
        .iter()
        .filter_map(|node| leaving_flaw(grammar, node));
    let stray = tree.stray.map(|event| Flaw::WrongKind.at(event));
    let too_many = (guided.moves.len() > MOST_EVENTS).then_some(Flaw::TooManyEvents.at(
        MOST_EVENTS,
    ));
    entering
        .chain(leaving)
        .chain(stray)
        .chain(too_many)
        .chain(finish_flaw(tree, guided, text.len()))
        .min()
}

fn pieces_of(grammar: &Plain, label: Label) -> &[Piece] {
    match label {
        Label::Rule(rule) => match grammar.rule(rule) {
            Some(rule) => rule.pieces.as_slice(),
            None => &[],
        },
        Label::Leaf(_) => &[],
    }
}

// What the node is to match: the start symbol at the first node of all, else a part of the rule above it.
fn awaited(grammar: &Plain, node: &Node) -> Option<Piece> {
    match node.edge {
        Some(edge) => pieces_of(grammar, edge.parent).get(edge.place).copied(),
        None => (node.entered == 0).then_some(Piece::Symbol(grammar.start)),
    }
}

fn entering_flaw(grammar: &Plain, node: &Node, text: &[u8], frames: usize) -> Option<Flaw> {
    match (node.label, awaited(grammar, node)) {
        (Label::Rule(rule), Some(Piece::Symbol(symbol))) => match grammar.rule(rule) {
            None => Some(Flaw::NoRule),
            Some(rule) if rule.left != symbol => Some(Flaw::WrongSymbol),
            Some(_) if node.above >= frames => Some(Flaw::NoFrame),
            Some(_) => None,
        },
        (Label::Rule(_), _) | (Label::Leaf(_), None | Some(Piece::Symbol(_))) => {
            Some(Flaw::WrongKind)
        }
        (Label::Leaf(byte), Some(piece)) => {
            if !piece.admits(byte) {
                Some(Flaw::WrongByte)
            } else if text.get(node.leaves) != Some(&byte) {
                Some(Flaw::NotInText)
            } else {
                None
            }
        }
    }
}

// A node that is left must have a child for each part of its rule.
fn leaving_flaw(grammar: &Plain, node: &Node) -> Option<Found> {
    let flaw = Flaw::WrongKind.at(node.left?);
    (node.children < pieces_of(grammar, node.label).len()).then_some(flaw)
}

// What is wrong with the finish, behind the last event.
fn finish_flaw(tree: &Tree, guided: &Guided, text: usize) -> Option<Found> {
    let whole = tree.closed.iter().any(|node| node.entered == 0);
    let flaw = match guided.end {
        Err(fault) => Flaw::GuideFault(fault),
        Ok(()) if !whole => Flaw::WrongKind,
        Ok(()) if tree.leaves.len() < text => Flaw::TextOver,
        Ok(()) => return None,
    };
    Some(flaw.at(guided.moves.len()))
}
