// A guide written as a link table: one record a node, with links to its first child and its next sibling.
ghost use Rattle.std.specs.Prelude.{◌≡◌, ℕ, ◌+◌, ◌*◌, ◌≤◌, length};
ghost use Rattle.guide.specs.LinkTable.{link_table};
ghost use Rattle.guide.specs.LinkTableBounds.{link_table_in_range};
ghost use Rattle.guide.specs.Stack.{held};
ghost use Rattle.guide.specs.Steps.{link_table_from};

use crate::stack::{pop, push};
use crate::steps::{Phase, Step, first_phase, next_step};
use crate::{Defect, Event, Fault, Guide};

// How many nodes may be open at once.
const MOST_OPEN: usize = 256;

// A table of which `read` records were read, and the siblings of its open nodes, on a stack.
// There is no heap, so the stack is an array and a count, as its functions take them.
#[derive(Drop)]
pub struct LinkTable<'a> {
    unread: &'a [u8],
    read: usize,
    phase: Phase,
    link: u16,
    siblings: [u16; MOST_OPEN],
    depth: usize,
    ghost within: { 8 * read + length unread.now ≤ 64000 },
}

impl<'a> LinkTable<'a> {
    pub fn new(bytes: &'a [u8]) -> LinkTable<'a>
        ensures { ⟦<LinkTable<'a> as Guide>⟧.told result ≡ link_table bytes.now }
    {
        let (phase, unread) = first_phase(bytes);
        LinkTable {
            unread,
            read: 0,
            phase,
            link: 0,
            siblings: [0; MOST_OPEN],
            depth: 0,
        }
    }
}

impl<'a> Guide for LinkTable<'a> {
    ghost told = { λ s. link_table_from s.phase s.read s.unread.now s.link (held s.siblings s.depth) };

    ghost bounds = { λ s. link_table_in_range s.phase s.read s.unread.now s.link (held s.siblings s.depth) };

    fn next(&mut self) -> Result<Option<Event>, Fault> {
        let (step, rest) = next_step(self.phase, self.unread, self.link, self.read)?;
        let (event, link) = match step {
            Step::Stop => return Ok(None),
            Step::Close(finish) => {
                let Some(sibling) = pop(&self.siblings, &mut self.depth) else {
                    finish?;
                    return Ok(None);
                };
                self.link = sibling;
                return Ok(Some(Event::Leave));
            }
            Step::Open {
                value,
                child,
                sibling,
            } => {
                let full = Defect::TooManyOpen.at(8 * self.read);
                push(&mut self.siblings, &mut self.depth, sibling).or(Err(full))?;
                (Event::Enter(value), child)
            }
            Step::Tell { value, sibling } => (Event::Byte(value), sibling),
        };
        self.unread = rest;
        self.read += 1;
        self.phase = Phase::Walk;
        self.link = link;
        Ok(Some(event))
    }
}
