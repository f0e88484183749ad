// How deep blocks nest: by recursion over the blocks that a block names, each block measured once.
#![tactic(auto)]

ghost use Rattle.std.specs.Prelude.{◌≡◌, ◌+◌, ◌≤◌, ◌<◌, replicate};
ghost use Rattle.base_numbers.specs.Limit as Limit;
ghost use Rattle.file_depth.specs.Deep.{depth_of, start_of, names_in, Graph, Known, measured, later_prop};
ghost use Rattle.std.proofs.Props.{props};

use base_numbers::limit;

/// Which blocks each block names: block b has the actions from first[b] to first[b + 1], and action a goes to the blocks
/// goes[from[a]..from[a + 1]]. Each of them is a later one.
#[derive(Clone, Copy)]
pub struct Blocks<'a> {
    pub first: &'a [u16; limit::BLOCKS + 1],
    pub from: &'a [u16; limit::ACTIONS + 1],
    pub goes: &'a [u16; limit::BRANCHES],
    pub count: usize,
    ghost graph: { Graph first.now from.now goes.now count } by { Prim.hlevel (props, later_prop) },
}

impl<'a> Blocks<'a> {
    // where the blocks that block b names begin in `goes`
    fn start(&self, b: usize) -> usize
        requires { b ≤ self.now.count }
        ensures { result ≡ start_of self.now.first.now self.now.from.now b }
    {
        let a = base_wide::short_index(self.first[b]);
        base_wide::short_index(self.from[a])
    }
}

/// How deep blocks nest, each measured once.
#[derive(Drop)]
pub struct Depths<'a> {
    pub blocks: Blocks<'a>,
    // 0: not measured yet
    pub memo: [u16; limit::BLOCKS],
    ghost known: { Known (depth_of (names_in blocks.first.now blocks.from.now blocks.goes.now) blocks.count) blocks.count memo },
}

impl<'a> Depths<'a> {
    ghost use Rattle.file_depth.specs.Named.{names, depths, depth_measured};

    pub fn new(blocks: Blocks<'a>) -> Self
        ensures blocks { result.blocks ≡ blocks.entry }
        ensures memo { result.memo ≡ replicate Limit.BLOCKS 0 }
    {
        Depths {
            blocks,
            memo: [0; limit::BLOCKS],
        }
    }

    /// How many blocks nest at block b, itself included.
    pub fn depth(&mut self, b: usize) -> u16
        requires { b < self.old.blocks.count }
        ensures blocks { self.new.blocks ≡ self.old.blocks }
        ensures memo { self.new.memo ≡ depth_measured self.old.blocks b self.old.memo }
        ensures value { result ≡ depths self.old.blocks b }
    {
        let known = self.memo[b];
        if known != 0 {
            return known;
        }
        let mut d: u16 = 0;
        let begin = self.blocks.start(b);
        let end = self.blocks.start(b + 1);
        for k in begin..end {
            let x = base_wide::short_index(self.blocks.goes[k]);
            let v = self.depth(x);
            d = d.max(v);
        }
        self.memo[b] = d + 1;
        d + 1
    }
}
