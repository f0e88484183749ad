// What a block and a class weigh, up to the least weight that is OVER: a block's weight calls its actions', and an action's the
// weights of the later blocks, or of the class, that it goes to, each block weighed once.
#![tactic(auto)]

ghost use Rattle.std.specs.Prelude.{◌≡◌, ◌+◌, ◌<◌, eqb, get_or, replicate};
ghost use Rattle.base_numbers.specs.Limit as Limit;
ghost use Rattle.file_depth.specs.Deep.{Known};
ghost use Rattle.file_weight.specs.Weigh.{action_weight_of, weight_of, cap, told, weighed, action_weighed};
ghost use Rattle.file_weight.specs.Weigh.{acts_in, Stands};

use base_numbers::limit;
use file_depth::Blocks;

/// The actions of the blocks: what each weighs itself, and how often it goes to a block. `plain` is the blocks' `from` without
/// the STARTs.
#[derive(Clone, Copy)]
pub struct Actions<'a> {
    pub blocks: Blocks<'a>,
    pub own: &'a [u16; limit::ACTIONS],
    pub times: &'a [u16; limit::ACTIONS],
    pub plain: &'a [u16; limit::ACTIONS + 1],
}

impl<'a> Actions<'a> {
    // Whether action a goes nowhere without the STARTs.
    fn starts(&self, a: usize) -> bool
        requires { a < Limit.ACTIONS }
        ensures { result ≡ eqb (get_or self.now.plain.now a 0) (get_or self.now.plain.now (a + 1) 0) }
    {
        base_wide::short_index(self.plain[a]) == base_wide::short_index(self.plain[a + 1])
    }
}

/// What blocks and classes weigh, each block weighed once.
#[derive(Drop)]
pub struct Weights<'a> {
    pub actions: Actions<'a>,
    // The weight and one; 0: not weighed yet.
    pub memo: [u64; limit::BLOCKS],
    ghost known: { Known (told (acts_in actions.blocks.first.now actions.blocks.from.now actions.blocks.goes.now
        actions.own.now actions.times.now) actions.blocks.count) actions.blocks.count memo },
}

impl<'a> Weights<'a> {
    ghost use Rattle.file_weight.specs.Named.{acts};

    pub fn new(actions: Actions<'a>) -> Self
        ensures actions { result.actions ≡ actions.entry }
        ensures memo { result.memo ≡ replicate Limit.BLOCKS 0 }
    {
        Weights {
            actions,
            memo: [0; limit::BLOCKS],
        }
    }

    // The weight of block b.
    #[cycle(weights)]
    fn block(&mut self, b: usize) -> u64
        requires { b < self.old.actions.blocks.count }
        ensures actions { self.new.actions ≡ self.old.actions }
        ensures memo { self.new.memo ≡ weighed (acts self.old.actions) self.old.actions.blocks.count b self.old.memo }
        ensures value { result ≡ cap (weight_of (acts self.old.actions) self.old.actions.blocks.count b) }
    {
        let known = self.memo[b];
        if known != 0 {
            return known - 1;
        }
        let mut w: u64 = 0;
        let begin = base_wide::short_index(self.actions.blocks.first[b]);
        let end = base_wide::short_index(self.actions.blocks.first[b + 1]);
        for a in begin..end {
            let v = self.action(b, a);
            w = (w + v).min(limit::OVER);
        }
        self.memo[b] = w + 1;
        w
    }

    // The weight of action a, which stands in block b, so that the blocks it goes to are later than b.
    #[cycle(weights)]
    fn action(&mut self, b: usize, a: usize) -> u64
        requires { Stands self.old.actions.blocks.first.now self.old.actions.blocks.count b a }
        ensures actions { self.new.actions ≡ self.old.actions }
        ensures memo { self.new.memo ≡ action_weighed (acts self.old.actions) self.old.actions.blocks.count a self.old.memo }
        ensures value { result ≡ cap (action_weight_of (acts self.old.actions) self.old.actions.blocks.count a) }
    {
        let start = self.actions.starts(a);
        let mut top: u64 = 0;
        let begin = base_wide::short_index(self.actions.blocks.from[a]);
        let end = base_wide::short_index(self.actions.blocks.from[a + 1]);
        for k in begin..end {
            let x = base_wide::short_index(self.actions.blocks.goes[k]);
            let v = self.goes(start, x);
            top = top.max(v);
        }
        let weight = base_wide::long(self.actions.own[a]);
        let rounds = base_wide::long(self.actions.times[a]);
        (weight + rounds * top).min(limit::OVER)
    }

    // The weight of what an action goes to: of a START its class, of any other block b, and 1.
    #[cycle(weights)]
    fn goes(&mut self, start: bool, b: usize) -> u64
        requires { b < self.old.actions.blocks.count }
        ensures actions { self.new.actions ≡ self.old.actions }
        ensures memo { self.new.memo ≡ weighed (acts self.old.actions) self.old.actions.blocks.count b self.old.memo }
        ensures value { result ≡ told (acts self.old.actions) self.old.actions.blocks.count b }
    {
        if start {
            return self.class(b);
        }
        self.block(b) + 1
    }

    /// The weight of the class whose body is block b: the block and 1.
    #[cycle(weights)]
    pub fn class(&mut self, b: usize) -> u64
        requires { b < self.old.actions.blocks.count }
        ensures actions { self.new.actions ≡ self.old.actions }
        ensures memo { self.new.memo ≡ weighed (acts self.old.actions) self.old.actions.blocks.count b self.old.memo }
        ensures value { result ≡ told (acts self.old.actions) self.old.actions.blocks.count b }
    {
        let w = self.block(b);
        w + 1
    }
}
