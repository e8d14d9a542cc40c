//! Nodes to be run, and the links between them.

ghost use Rattle.std.specs.Prelude.{◌≡◌, [], IfSome};
ghost use Rattle.nob_fault.specs.Shims.{opening};
ghost use Rattle.nob_nodes.specs.Layouts.{AreMade, RunAlike};

use crate::launch::Launch;
use crate::layout::Layout;
use nob_fault::{Shim, words_between};
use nob_ids::SpaceId;
use nob_link::{PutEnd, TakeEnd, link};
use nob_node::Ends;
use std::alloc::Global;

/// Nodes to be run, one of each space from 1 on, and the links between them.
#[derive(Drop)]
pub struct Nodes {
    alloc: Global,
    layout: Layout,
    launches: Vec<Launch>,
}

impl Nodes {
    /// As many nodes, of the spaces from 1 on, of which no two are linked: each runs as the layout
    /// says. `None` where memory is wanted, or a number of the layout is out of its range.
    #[tactic(auto, using(crate::proofs::Laid::laid_out_next))]
    pub fn new(alloc: Global, layout: Layout, count: u16) -> Option<Nodes>
        ensures layout { IfSome result (λ nodes. nodes.layout ≡ layout) }
        ensures made { IfSome result (λ nodes. AreMade layout count nodes) }
    {
        let mut launches = Vec::with_capacity(alloc, usize::from(count)).ok()?;
        for before in 0..count {
            let space = SpaceId::new(before + 1)?;
            let config = layout.config(space, count)?;
            launches
                .push(Launch::new(alloc, space, count, config))
                .ok()?;
        }
        Some(Nodes {
            alloc,
            layout,
            launches,
        })
    }

    /// The same, with a link each way between each two of them.
    pub fn linked(alloc: Global, layout: Layout, count: u16) -> Option<Nodes>
        ensures layout { IfSome result (λ nodes. nodes.layout ≡ layout) }
        ensures made { IfSome result (λ nodes. AreMade layout count nodes) }
    {
        let mut nodes = Nodes::new(alloc, layout, count)?;
        for second in 2..=count {
            for first in 1..second {
                nodes.link(SpaceId::new(first)?, SpaceId::new(second)?)?;
            }
        }
        Some(nodes)
    }

    /// A link each way between the nodes of two spaces. `None` where memory is wanted, or there is
    /// no such node.
    pub fn link(&mut self, first: SpaceId, second: SpaceId) -> Option<()>
        ensures layout { self.new.layout ≡ self.old.layout }
        ensures alike { RunAlike self.old self.new }
    {
        let (put_there, take_there) = self.made_link()?;
        let (put_back, take_back) = self.made_link()?;
        self.add(first, second, put_there, take_back)?;
        self.add(second, first, put_back, take_there)
    }

    /// A link each way between the node of a space and who is to carry what it sends to a peer, and
    /// brings what comes from there: the other ends. `None` where memory is wanted, or there is no
    /// such node.
    pub fn open(&mut self, space: SpaceId, peer: SpaceId) -> Option<(PutEnd, TakeEnd)>
        ensures layout { self.new.layout ≡ self.old.layout }
        ensures alike { RunAlike self.old self.new }
    {
        let (put_there, take_there) = self.made_link()?;
        let (put_back, take_back) = self.made_link()?;
        self.add(space, peer, put_there, take_back)?;
        Some((put_back, take_there))
    }

    // What their memory comes from.
    pub(crate) fn alloc(&self) -> Global {
        self.alloc
    }

    // How they run.
    pub(crate) fn layout(&self) -> Layout
        ensures { result ≡ self.now.layout }
    {
        self.layout
    }

    // The nodes, in the order of their spaces.
    pub(crate) fn into_launches(self) -> Vec<Launch>
        ensures { result ≡ self.launches }
    {
        let Nodes { launches, .. } = self;
        launches
    }

    // A link.
    fn made_link(&self) -> Option<(PutEnd, TakeEnd)>
        ensures { IfSome result (λ ends. (ends.0.put ≡ []) × (ends.1.taken ≡ [])) }
    {
        link(self.alloc, self.layout.capacity).ok()
    }

    // The node of a space has these ends of the links to a peer and from it.
    fn add(&mut self, space: SpaceId, peer: SpaceId, put: PutEnd, take: TakeEnd) -> Option<()>
        requires put { put.put ≡ [] }
        requires take { take.taken ≡ [] }
        ensures layout { self.new.layout ≡ self.old.layout }
        ensures alike { RunAlike self.old self.new }
    {
        let shim = self.shim(space, peer)?;
        let launch = self.launches.get_mut(space.place())?;
        launch.add(Ends::new(peer, put, take, shim))
    }

    // The shim of the link from one space to another, unused. Only memory fails it.
    fn shim(&self, from: SpaceId, to: SpaceId) -> Option<Shim>
        ensures { IfSome result (λ shim. shim ≡ opening shim.words) }
    {
        let layout = self.layout;
        if layout.loss == 0 {
            return Some(Shim::new(Vec::new(self.alloc)));
        }
        let words = words_between(self.alloc, layout.seed, from, to, layout.loss).ok()?;
        Some(Shim::new(words))
    }
}
