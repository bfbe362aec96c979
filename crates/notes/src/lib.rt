// The work space of the search: lists of what is still to be looked at. Outside a walk of one side it means nothing.
#![tactic(auto)]

ghost use Rattle.std.specs.Prelude.{◌≡◌, ◌<◌, get_or};
ghost use Rattle.literal.specs.Literal.{max_table};
ghost use Rattle.notes.specs.Notes.{block_at, with_todo, with_todo_end, with_block, with_blocks_end, with_gathered, max_blocks, max_gathered};

use literal::Literal;

// A block of pairs of clauses that are to be looked at: each clause of one stretch of variables, from `first` along the links to `last`, with each clause
// of another, from `from` to `to`. Where `last` is 0: each clause that holds variable `first`, with each that holds its opposite.
#[derive(Clone, Copy)]
pub struct Block {
    pub first: u16,
    pub last: u16,
    pub from: u16,
    pub to: u16,
}

impl Block {
    // Clauses of no variable.
    const NONE: Block = Block {
        first: 0,
        last: 0,
        from: 0,
        to: 0,
    };
}

// A block is listed for each variable at the start, and by each tie, which leaves a root fewer.
const MAX_BLOCKS: usize = 2 * Literal::MAX_VARIABLES;

// Clauses are gathered from place 0 on for a tie; for a look at pairs those of the two sides of a block, from here on, so that ties leave them.
pub const NEAR: usize = Literal::MAX_LITERALS;

pub const FAR: usize = 2 * Literal::MAX_LITERALS;

const MAX_GATHERED: usize = 3 * Literal::MAX_LITERALS;

// The clauses to look at, the blocks, and the clauses that were gathered; the ends of the first two.
#[derive(Clone, Copy)]
pub struct Notes {
    pub todo: [u16; Literal::MAX_TABLE],
    pub todo_end: usize,
    pub blocks: [Block; MAX_BLOCKS],
    pub blocks_end: usize,
    pub gathered: [u16; MAX_GATHERED],
}

impl Notes {
    pub fn new() -> Notes {
        Notes {
            todo: [0; Literal::MAX_TABLE],
            todo_end: 0,
            blocks: [Block::NONE; MAX_BLOCKS],
            blocks_end: 0,
            gathered: [0; MAX_GATHERED],
        }
    }

    pub fn todo_at(&self, i: usize) -> u16
        requires { i < max_table }
        ensures { result ≡ get_or self.now.todo i 0 }
    {
        self.todo[i]
    }

    pub fn put_todo(&mut self, i: usize, g: u16)
        requires { i < max_table }
        ensures { self.new ≡ with_todo i g self.old }
    {
        self.todo[i] = g;
    }

    pub fn set_todo_end(&mut self, n: usize)
        ensures { self.new ≡ with_todo_end n self.old }
    {
        self.todo_end = n;
    }

    // The block at index i.
    pub fn block_at(&self, i: usize) -> Block
        requires { i < max_blocks }
        ensures { result ≡ block_at self.now i }
    {
        self.blocks[i]
    }

    pub fn put_block(&mut self, i: usize, block: Block)
        requires { i < max_blocks }
        ensures { self.new ≡ with_block i block self.old }
    {
        self.blocks[i] = block;
    }

    pub fn set_blocks_end(&mut self, n: usize)
        ensures { self.new ≡ with_blocks_end n self.old }
    {
        self.blocks_end = n;
    }

    // The i-th of the clauses that were gathered.
    pub fn gathered_at(&self, i: usize) -> u16
        requires { i < max_gathered }
        ensures { result ≡ get_or self.now.gathered i 0 }
    {
        self.gathered[i]
    }

    pub fn put_gathered(&mut self, i: usize, g: u16)
        requires { i < max_gathered }
        ensures { self.new ≡ with_gathered i g self.old }
    {
        self.gathered[i] = g;
    }
}
