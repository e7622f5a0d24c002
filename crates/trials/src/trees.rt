// Random trees of a grammar, as their walks.
use crate::grammars::{MANY_BYTES, ONE_BYTE};
use crate::random::Random;
use second_checker::plain::{Piece, Plain, Rule};
use second_checker::writing::MOST_PARTS;
use second_checker::{Move, narrow};
use std::alloc::{AllocError, Global};

// How far a tree may grow before only the lowest rules are used for what is still to come. Until then each rule is chosen again, up
// to so many tries, as long as it names no symbol.
#[derive(Clone, Copy)]
pub struct Budget {
    pub moves: usize,
    pub depth: usize,
    pub tries: usize,
}

// The height of what has no finite tree.
const ENDLESS: usize = usize::MAX;

// No tree is let grow past so many moves; it is then left unfinished.
const MOST_MOVES: usize = 20_000;

// What is still to be written of a tree.
#[derive(Clone, Copy)]
enum Pending {
    Match(Piece, usize),
    Close,
}

// The least height of a tree with that rule at its root, by the least heights of the symbols.
fn rule_height(rule: &Rule, heights: &[usize]) -> usize {
    let below = rule.pieces.iter().filter_map(|piece| match piece {
        Piece::Symbol(symbol) => Some(height_of(*symbol, heights)),
        Piece::Range(_, _) | Piece::Except(_, _, _) => None,
    });
    below.max().unwrap_or(0).saturating_add(1)
}

fn height_of(symbol: u16, heights: &[usize]) -> usize {
    let height = heights.get(usize::from(symbol));
    height.copied().unwrap_or(ENDLESS)
}

// Lowers the heights by each rule once, and says whether one was lowered.
fn lower(grammar: &Plain, heights: &mut Vec<usize>) -> bool {
    let mut lowered = false;
    for rule in grammar.rules.iter().flatten() {
        let height = rule_height(rule, heights.as_slice());
        if let Some(least) = heights.get_mut(usize::from(rule.left))
            && height < *least
        {
            *least = height;
            lowered = true;
        }
    }
    lowered
}

// The least height of a tree of each symbol.
fn least_heights(heap: Global, grammar: &Plain) -> Result<Vec<usize>, AllocError> {
    let mut heights = vec![in heap; ENDLESS; usize::from(grammar.symbols)]?;
    for _ in 0..grammar.symbols {
        if !lower(grammar, &mut heights) {
            break;
        }
    }
    Ok(heights)
}

// The height of the lowest tree of a rule, if it is one of the symbol and has finite trees.
fn height_for(rule: &Option<Rule>, heights: &[usize], symbol: u16) -> Option<usize> {
    let rule = rule.as_ref().filter(|rule| rule.left == symbol)?;
    let height = rule_height(rule, heights);
    (height < ENDLESS).then_some(height)
}

// The rule of the symbol with the lowest tree, the first of these.
fn lowest_rule(grammar: &Plain, heights: &[usize], symbol: u16) -> Option<u16> {
    let rules = grammar.rules.iter().enumerate();
    let fitting = rules.filter_map(|(number, rule)| {
        let height = height_for(rule, heights, symbol)?;
        Some((height, number))
    });
    let (_, number) = fitting.min()?;
    Some(narrow(number))
}

// Any rule of the symbol that has finite trees.
fn any_rule(random: &mut Random, grammar: &Plain, heights: &[usize], symbol: u16) -> Option<u16> {
    let rules = grammar.rules.iter().enumerate();
    let fitting = rules.filter(|(_, rule)| height_for(rule, heights, symbol).is_some());
    let mut chosen = None;
    for (seen, (number, _)) in fitting.enumerate() {
        if random.below(seen.saturating_add(1)) == 0 {
            chosen = Some(narrow(number));
        }
    }
    chosen
}

// A rule of the symbol, of so many tries the first that names a symbol.
fn growing_rule(
    random: &mut Random,
    grammar: &Plain,
    heights: &[usize],
    symbol: u16,
    tries: usize,
) -> Option<u16> {
    let mut chosen = None;
    for _ in 0..tries {
        chosen = any_rule(random, grammar, heights, symbol);
        let rule = grammar.rule(chosen.unwrap_or(0));
        if let Some(rule) = rule
            && rule_height(rule, heights) > 1
        {
            break;
        }
    }
    chosen
}

// A byte that the piece admits.
fn random_leaf(random: &mut Random, piece: Piece) -> u8 {
    match piece {
        Piece::Symbol(_) => random.byte(),
        Piece::Range(low, high) => {
            let byte = random.between(usize::from(low), usize::from(high));
            u8::try_from(byte).unwrap_or(high)
        }
        Piece::Except(_, _, _) => {
            let byte = random.byte();
            let mut behind = (0..4u8).map(|i| byte.wrapping_add(i));
            behind.find(|byte| piece.admits(*byte)).unwrap_or(byte)
        }
    }
}

// What is behind an enter of the rule: its parts, the first on top, and the leave.
fn await_rule(
    pending: &mut Vec<Pending>,
    rule: Option<&Rule>,
    depth: usize,
) -> Result<(), AllocError> {
    pending.push(Pending::Close)?;
    if let Some(rule) = rule {
        for piece in rule.pieces.iter().rev() {
            pending.push(Pending::Match(*piece, depth))?;
        }
    }
    Ok(())
}

// The walk of a random tree. Where the start symbol has no finite tree, it is of no tree at all.
pub(crate) fn grow(
    heap: Global,
    random: &mut Random,
    grammar: &Plain,
    budget: Budget,
) -> Result<Vec<Move>, AllocError> {
    let heights = least_heights(heap, grammar)?;
    let mut moves = Vec::new(heap);
    let mut pending = Vec::new(heap);
    pending.push(Pending::Match(Piece::Symbol(grammar.start), 1))?;
    for _ in 0..MOST_MOVES {
        let Some(next) = pending.pop() else {
            break;
        };
        match next {
            Pending::Close => moves.push(Move::Leave)?,
            Pending::Match(Piece::Symbol(symbol), depth) => {
                let lowest = moves.len() >= budget.moves || depth >= budget.depth;
                let heights = heights.as_slice();
                let rule = if lowest {
                    lowest_rule(grammar, heights, symbol)
                } else {
                    growing_rule(random, grammar, heights, symbol, budget.tries)
                };
                let rule = rule.unwrap_or(symbol);
                moves.push(Move::Enter(rule))?;
                await_rule(&mut pending, grammar.rule(rule), depth.saturating_add(1))?
            }
            Pending::Match(piece, _) => moves.push(Move::Byte(random_leaf(random, piece)))?,
        }
    }
    Ok(moves)
}

// The walk of a random tree of the counting grammar with so many rule nodes and, if they suffice, so many bytes.
pub(crate) fn grow_exactly(
    heap: Global,
    random: &mut Random,
    nodes: usize,
    bytes: usize,
) -> Result<Vec<Move>, AllocError> {
    let mut moves = Vec::new(heap);
    let mut pending = Vec::new(heap);
    let mut awaited = 1usize;
    let mut nodes_left = nodes.saturating_sub(1);
    let mut bytes_left = bytes;
    pending.push(Pending::Match(Piece::Symbol(0), 1))?;
    for _ in 0..nodes.saturating_mul(2) {
        if let Some(Pending::Match(_, _)) = pending.pop() {
            let children = children_of(random, awaited, nodes_left);
            awaited = awaited.saturating_sub(1).saturating_add(children);
            nodes_left = nodes_left.saturating_sub(children);
            if children == 0 {
                let told = enter_childless(random, &mut moves, bytes_left)?;
                bytes_left = bytes_left.saturating_sub(told);
            } else {
                moves.push(Move::Enter(narrow(children)))?;
            }
            pending.push(Pending::Close)?;
            for _ in 0..children {
                pending.push(Pending::Match(Piece::Symbol(0), 1))?;
            }
        } else {
            moves.push(Move::Leave)?;
        }
    }
    Ok(moves)
}

// How many children the next node gets: the last awaited node has to take some as long as nodes are left.
fn children_of(random: &mut Random, awaited: usize, nodes_left: usize) -> usize {
    let most = nodes_left.min(MOST_PARTS);
    if awaited == 1 {
        random.between(most.min(1), most)
    } else if random.chance(10) {
        random.between(0, most)
    } else {
        0
    }
}

// Enters a node without children and tells its bytes, as many as are left at most. Gives how many these were.
fn enter_childless(
    random: &mut Random,
    moves: &mut Vec<Move>,
    bytes_left: usize,
) -> Result<usize, AllocError> {
    let (rule, bytes) = match bytes_left {
        0 => (0, 0),
        MOST_PARTS.. => (MANY_BYTES, MOST_PARTS),
        _ => (ONE_BYTE, 1),
    };
    moves.push(Move::Enter(rule))?;
    for _ in 0..bytes {
        moves.push(Move::Byte(random.byte()))?;
    }
    Ok(bytes)
}
