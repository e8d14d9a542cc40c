//! Seals' lines to seals.

ghost use Rattle.std.specs.Prelude.{◌≡◌, ◌++◌, ◌∷◌, ◌<◌, ◌≤◌, ◌^◌, [], ℕ, List, IfOk, Option as OptionOf, codes};
ghost use Rattle.std.specs.List.{AllByRecursion};
ghost use Rattle.std.specs.Fmt.{decimal};
ghost use Rattle.nob_ids.specs.declared.reason.Reason.{Reason as ReasonOf};
ghost use Rattle.nob_ids.specs.Reasons.{reason_number};
ghost use Rattle.nob_model_text.specs.Fronts.{Stops};
ghost use Rattle.nob_model_text.specs.Reading.{Reads};
ghost use Rattle.nob_chain.specs.declared.seal.PeerSeal.{PeerSeal as PeerOf};
ghost use Rattle.nob_chain.specs.declared.seal.Seal.{Seal as SealOf};
ghost use Rattle.nob_chain.specs.declared.fault.ChainFault.TheVariants as faults;
ghost use Rattle.nob_chain.specs.Seals as spec;
ghost use Rattle.nob_chain.specs.Reading.{Answers};

use crate::fault::{ChainError, ChainFault};
use crate::numbers::number_after;
use crate::seal::{PeerSeal, PeerSeals, Seal};
use nob_ids::{Reason, SpaceId};
use nob_model_text::{Unread, space_of};
use std::alloc::Global;

// The seal of a chain of this space, of n, that a line spells, or R2.
pub fn spelt_seal(alloc: Global, own: SpaceId, n: SpaceId, line: &[u8]) -> Result<Seal, ChainError>
    ensures { Answers (λ seal. spec.IsSeal own n seal × (line.now ≡ spec.seal_text seal))
        (λ fault. (fault ≡ faults.Entry)
        × ((seal : SealOf) → spec.IsSeal own n seal → line.now ≡ spec.seal_text seal → ⊥)) result }
{
    match seal_of(alloc, own, n, line) {
        Ok(seal) => Ok(seal),
        Err(Unread::NoText) => Err(ChainError::Fault(ChainFault::Entry)),
        Err(Unread::OutOfMemory) => Err(ChainError::OutOfMemory),
    }
}

// The seal of a chain of this space, of n, that a line spells.
fn seal_of(alloc: Global, own: SpaceId, n: SpaceId, line: &[u8]) -> Result<Seal, Unread>
    ensures found { IfOk result (λ seal. spec.IsSeal own n seal
        × (line.now ≡ spec.seal_text seal)) }
    ensures only { (seal : SealOf) → spec.IsSeal own n seal → line.now ≡ spec.seal_text seal
        → Reads (λ s. s ≡ seal) result }
{
    let (stamp, live, left) = front_at(alloc, line)?;
    let peers = peers_of(alloc, left)?;
    if !are_due(own, n, peers.as_slice()) {
        return Err(Unread::NoText);
    }
    Ok(Seal { stamp, live, peers })
}

// The stamp and the number of live objects at the front of a seal, and what is left.
fn front_at(alloc: Global, text: &[u8]) -> Result<(u64, u64, &[u8]), Unread>
    ensures found { IfOk result (λ parts. text.now ≡ codes "seal " ++ (decimal parts.0 ++ (codes
        " live " ++ (decimal parts.1 ++ parts.2.now)))) }
    ensures only { (stamp live : ℕ) (rest : List ℕ) → stamp < 2 ^ 64 → live < 2 ^ 64 → Stops rest
        → text.now ≡ codes "seal " ++ (decimal stamp ++ (codes " live " ++ (decimal live ++ rest)))
        → Reads (λ parts. (parts.0 ≡ stamp) × (parts.1 ≡ live) × (parts.2.now ≡ rest)) result }
{
    let (stamp, behind) = number_after(alloc, text, b"seal ".as_slice())?;
    let (live, rest) = number_after(alloc, behind, b" live ".as_slice())?;
    Ok((stamp, live, rest))
}

// Whether peers are those that are due in a chain of this space, of n.
fn are_due(own: SpaceId, n: SpaceId, peers: &[PeerSeal]) -> bool
    ensures { result ≡ spec.are_others own n 1 peers.now }
{
    are_others(u64::from(own.get()), u64::from(n.get()), 1, peers)
}

// Whether peers are all spaces from this one to n but the own one, rising. It recurses once for
// each peer.
fn are_others(own: u64, n: u64, space: u64, peers: &[PeerSeal]) -> bool
    requires n { n ≤ 2 ^ 32 }
    requires space { space ≤ 2 ^ 33 }
    ensures { result ≡ spec.are_others own n space peers.now }
{
    let due = if space == own { space + 1 } else { space };
    match peers {
        [] => n < due,
        [peer, rest @ ..] => {
            if u64::from(peer.peer.get()) != due {
                return false;
            }
            if n < due {
                return false;
            }
            are_others(own, n, due + 1, rest)
        }
    }
}

// The peers of a seal that a text spells.
fn peers_of(alloc: Global, text: &[u8]) -> Result<PeerSeals, Unread>
    ensures found { IfOk result (λ peers. AllByRecursion spec.IsPeerSeal peers
        × (text.now ≡ spec.peers_text peers)) }
    ensures only { (peers : List PeerOf) → AllByRecursion spec.IsPeerSeal peers
        → text.now ≡ spec.peers_text peers → Reads (λ ps. ps ≡ peers) result }
{
    let mut peers = Vec::new(alloc);
    let mut left = text;
    while !left.is_empty() {
        let rest = take_peer(alloc, left, &mut peers)?;
        left = rest;
    }
    Ok(PeerSeals::from_vec(peers))
}

// Adds the peer of a seal at the front of a text, and gives what is left.
fn take_peer<'a>(
    alloc: Global,
    text: &'a [u8],
    peers: &mut Vec<PeerSeal>,
) -> Result<&'a [u8], Unread>
    ensures found { IfOk result (λ left. (peer : PeerOf) × spec.IsPeerSeal peer
        × (peers.new.items ≡ peers.old.items ++ peer ∷ [])
        × (text.now ≡ spec.peer_text peer left.now)) }
    ensures only { (peer : PeerOf) (rest : List ℕ) → spec.IsPeerSeal peer → Stops rest
        → text.now ≡ spec.peer_text peer rest
        → Reads (λ left. (peers.new.items ≡ peers.old.items ++ peer ∷ []) × (left.now ≡ rest))
        result }
{
    let (number, behind) = number_after(alloc, text, b" peer ".as_slice())?;
    let (session, left) = session_after(alloc, behind)?;
    let (sent, acted, left) = counts_at(alloc, left)?;
    let (closed, rest) = ending_at(alloc, left)?;
    let Some(peer) = space_of(number) else {
        return Err(Unread::NoText);
    };
    peers.push(PeerSeal {
        peer,
        session,
        sent,
        acted,
        closed,
    })?;
    Ok(rest)
}

// The number of a session behind its word at the front of a text, and what is left.
fn session_after(alloc: Global, text: &[u8]) -> Result<(u32, &[u8]), Unread>
    ensures found { IfOk result (λ parts. text.now
        ≡ codes " session " ++ (decimal parts.0 ++ parts.1.now)) }
    ensures only { (session : ℕ) (rest : List ℕ) → session < 2 ^ 32 → Stops rest
        → text.now ≡ codes " session " ++ (decimal session ++ rest)
        → Reads (λ parts. (parts.0 ≡ session) × (parts.1.now ≡ rest)) result }
{
    let (number, rest) = number_after(alloc, text, b" session ".as_slice())?;
    if number > 0xffff_ffff {
        return Err(Unread::NoText);
    }
    Ok((number as u32, rest))
}

// The two counts behind their words at the front of a text, and what is left.
fn counts_at(alloc: Global, text: &[u8]) -> Result<(u64, u64, &[u8]), Unread>
    ensures found { IfOk result (λ parts. text.now ≡ codes " sent " ++ (decimal parts.0 ++ (codes
        " acted " ++ (decimal parts.1 ++ parts.2.now)))) }
    ensures only { (sent acted : ℕ) (rest : List ℕ) → sent < 2 ^ 64 → acted < 2 ^ 64 → Stops rest
        → text.now ≡ codes " sent " ++ (decimal sent ++
        (codes " acted " ++ (decimal acted ++ rest)))
        → Reads (λ parts. (parts.0 ≡ sent) × (parts.1 ≡ acted) × (parts.2.now ≡ rest)) result }
{
    let (sent, behind) = number_after(alloc, text, b" sent ".as_slice())?;
    let (acted, rest) = number_after(alloc, behind, b" acted ".as_slice())?;
    Ok((sent, acted, rest))
}

// Whether this end is open or why it was closed, at the front of a text, and what is left.
fn ending_at(alloc: Global, text: &[u8]) -> Result<(Option<Reason>, &[u8]), Unread>
    ensures found { IfOk result (λ parts. text.now ≡ spec.ending_text parts.0 parts.1.now) }
    ensures only { (closed : OptionOf ReasonOf) (rest : List ℕ) → Stops rest
        → text.now ≡ spec.ending_text closed rest
        → Reads (λ parts. (parts.0 ≡ closed) × (parts.1.now ≡ rest)) result }
{
    match text {
        [b' ', b'o', b'p', b'e', b'n', rest @ ..] => Ok((None, rest)),
        _ => closing_at(alloc, text),
    }
}

// Why this end was closed, at the front of a text, and what is left.
fn closing_at(alloc: Global, text: &[u8]) -> Result<(Option<Reason>, &[u8]), Unread>
    ensures found { IfOk result (λ parts. text.now ≡ spec.ending_text parts.0 parts.1.now) }
    ensures only { (reason : ReasonOf) (rest : List ℕ) → Stops rest
        → text.now ≡ codes " closed " ++ (decimal (reason_number reason) ++ rest)
        → Reads (λ parts. (parts.0 ≡ Some reason) × (parts.1.now ≡ rest)) result }
{
    let (reason, rest) = reason_after(alloc, text)?;
    Ok((Some(reason), rest))
}

// The reason of a close behind its word at the front of a text, and what is left.
fn reason_after(alloc: Global, text: &[u8]) -> Result<(Reason, &[u8]), Unread>
    ensures found { IfOk result (λ parts. text.now
        ≡ codes " closed " ++ (decimal (reason_number parts.0) ++ parts.1.now)) }
    ensures only { (reason : ReasonOf) (rest : List ℕ) → Stops rest
        → text.now ≡ codes " closed " ++ (decimal (reason_number reason) ++ rest)
        → Reads (λ parts. (parts.0 ≡ reason) × (parts.1.now ≡ rest)) result }
{
    let (number, rest) = number_after(alloc, text, b" closed ".as_slice())?;
    if number > 6 {
        return Err(Unread::NoText);
    }
    match Reason::from_number(number as u8) {
        Some(reason) => Ok((reason, rest)),
        None => Err(Unread::NoText),
    }
}
