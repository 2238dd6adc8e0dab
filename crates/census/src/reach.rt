// The walk through the held cells. It keeps a mark and a word for every cell, and opens each reached cell once.
#![tactic(auto, using(crate::proofs::Walks::pushes, crate::proofs::Marks::walks))]

ghost use Rattle.std.specs.Prelude.{◌≡◌, ◌+◌, ◌*◌, ◌≤◌, length};
ghost use Rattle.std.specs.List.{range_with_len};
ghost use Rattle.machine.specs.Store.{parts};
ghost use Rattle.machine.specs.Census.{fields_of, slots, in_use, unreached};
ghost use Rattle.cells.specs.Sized.{Sized};
ghost use Rattle.census.specs.Room.{Room};

use arrayvec::ArrayVec;
use machine::{Record, Row};

// Arrays, for there is no heap: a mark for each cell that is reached, and a stack of the cells that are marked and not yet opened.
#[derive(Drop)]
struct Walk<'a> {
    colours: &'a [u8],
    marks: [bool; 4096],
    stack: ArrayVec<u16, 4096>,
    ghost room: { Room colours.now marks stack.items },
}

impl Walk<'_> {
    ghost use Rattle.census.specs.Walk.{Fresh, Pushed, Pushing};

    // Nothing is marked.
    fn new(colours: &[u8]) -> Walk<'_>
        requires { length colours.now ≤ 4096 }
        ensures { Fresh colours.now result }
    {
        Walk {
            colours,
            marks: [false; 4096],
            stack: ArrayVec::new(),
        }
    }

    // Marks v and puts it on the stack, if it is a cell in use that is not marked yet.
    fn push(&mut self, v: u16)
        ensures { Pushed self.old v self.new }
    {
        let i = v as usize;
        if self.colours.len() <= i || self.colours[i] == 0 || self.marks[i] {
            return;
        }
        self.marks[i] = true;
        self.stack.push(v);
    }

    // Pushes each of the numbers.
    fn push_all(&mut self, values: &[u16])
        ensures { Pushing self.old values.now self.new }
    {
        for v in values {
            self.push(*v);
        }
    }

    // Pushes the pages.
    fn push_pages(&mut self, g: u16)
        ensures { Pushing self.old (range_with_len 0 g) self.new }
    {
        for p in 0..g {
            self.push(p);
        }
    }

    // Pushes what the slots of all rows name.
    fn push_desk(&mut self, desk: &[Row])
        ensures { Pushing self.old (slots desk.now) self.new }
    {
        for row in desk {
            self.push_all(&row.slots);
        }
    }

    // Pushes what the four fields of cell c name.
    fn open_cell(&mut self, fields: &[u16], c: u16)
        requires { c * 4 + 4 ≤ length fields.now }
        ensures { Pushing self.old (fields_of fields.now c) self.new }
    {
        let first = c as usize * 4;
        self.push_all(&fields[first..first + 4]);
    }
}

// How many cells are held: each is put on the stack once, and opened once. The walk is on the stack, 12 KiB.
pub fn held_cells(rec: Record, desk: &[Row], fields: &[u16], colours: &[u8]) -> u16
    requires { Sized rec.n fields.now colours.now }
    ensures { result + in_use (unreached (parts rec desk.now fields.now colours.now)) ≡ in_use colours.now }
{
    let mut walk = Walk::new(colours);
    walk.push_pages(rec.g);
    walk.push_desk(desk);
    let mut opened: u16 = 0;
    while let Some(c) = walk.stack.pop() {
        walk.open_cell(fields, c);
        opened += 1;
    }
    opened
}
