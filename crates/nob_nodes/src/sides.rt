//! The two sides.

ghost use Rattle.std.specs.Prelude.{◌≡◌, length, IfSome};
ghost use Rattle.nob_nodes.specs.Partners as partners;

use crate::{Company, Node, Played, Player};
use nob_dispatch_objects::Object;
use nob_ids::SpaceId;
use std::alloc::Global;
use std::sync::Wait;

/// The player at one of two nodes.
#[derive(Drop)]
pub(crate) enum Side<A: Drop, B: Drop> {
    /// That of space 1.
    First(A),
    /// That of space 2.
    Second(B),
}

impl<O: Object, A: Player<O> + Drop, B: Player<O> + Drop> Player<O> for Side<A, B> {
    fn run<R: Wait>(&mut self, rt: &R, node: &mut Node<O>, company: &Company) {
        match self {
            Side::First(player) => player.run(rt, node, company),
            Side::Second(player) => player.run(rt, node, company),
        }
    }

    fn skip<R: Wait>(&mut self, rt: &R) {
        match self {
            Side::First(player) => player.skip(rt),
            Side::Second(player) => player.skip(rt),
        }
    }

    fn stays(&self) -> bool {
        match self {
            Side::First(player) => player.stays(),
            Side::Second(player) => player.stays(),
        }
    }
}

/// The space of the other of two nodes.
pub fn partner_of(company: &Company) -> SpaceId
    ensures { result ≡ partners.partner_of company.now.space }
{
    let number = if company.space().get() == 1 { 2 } else { 1 };
    SpaceId::new(number).unwrap()
}

// Both players, in their order. Only memory fails it.
pub(crate) fn both_sides<A: Drop, B: Drop>(
    alloc: Global,
    first: A,
    second: B,
) -> Option<Vec<Side<A, B>>>
    ensures { IfSome result (λ sides. length sides.items ≡ 2) }
{
    let mut sides = Vec::with_capacity(alloc, 2).ok()?;
    sides.push(Side::First(first)).ok()?;
    sides.push(Side::Second(second)).ok()?;
    Some(sides)
}

// The player at the node of space 1, if it is that one.
pub(crate) fn first_of<O: Object, A: Drop, B: Drop>(
    played: Played<O, Side<A, B>>,
) -> Option<Played<O, A>>
    ensures { IfSome result (λ first. first.config ≡ played.config) }
{
    let Played {
        config,
        player,
        left,
    } = played;
    match player {
        Side::First(player) => Some(Played {
            config,
            player,
            left,
        }),
        Side::Second(_) => None,
    }
}

// The player at the node of space 2, if it is that one.
pub(crate) fn second_of<O: Object, A: Drop, B: Drop>(
    played: Played<O, Side<A, B>>,
) -> Option<Played<O, B>>
    ensures { IfSome result (λ second. second.config ≡ played.config) }
{
    let Played {
        config,
        player,
        left,
    } = played;
    match player {
        Side::First(_) => None,
        Side::Second(player) => Some(Played {
            config,
            player,
            left,
        }),
    }
}
