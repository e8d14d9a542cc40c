//! Scripts of a world in which a line may also say that one space brings another what it has.

ghost use Rattle.std.specs.Prelude.{◌≡◌, ◌∷◌, ℕ, List, Some, None, IfOk, IfSome, MatchOption, position};
ghost use Rattle.std.specs.Fmt.{decimal};
ghost use Rattle.nob_ids.specs.Names.{IsSpace};
ghost use Rattle.nob_model_text.specs.Lines.{lines_of};
ghost use Rattle.test_worlds.specs.Scripts as spec;

use nob_ids::{Limits, SpaceId};
use nob_model::WorldStep;
use nob_model_reading::{opening_of, step_of};
use nob_model_text::{first_line, number_of, space_of};
use nob_script_text::limits_of;
use std::alloc::{AllocError, Global};

/// What a line says.
#[derive(Drop)]
pub enum Move {
    /// One step.
    Make(WorldStep),
    /// `A>B`: A transmits to B, each frame that it gave is delivered in order, and B acts on what
    /// came from A until it is answered otherwise than that it acted on an item.
    Bring(SpaceId, SpaceId),
}

/// A script.
pub struct Script {
    /// How many spaces there are, named by the last of them.
    pub n: SpaceId,
    /// The limits of their sessions.
    pub limits: Limits,
    /// What its lines say behind the first.
    pub moves: Vec<Move>,
}

impl Drop for Script {
    fn drop(self) {
        let Script {
            n: _,
            limits: _,
            moves: _,
        } = self;
    }
}

/// The script that a text is: none where a line says nothing. Only memory fails it.
pub fn script_of(alloc: Global, text: &[u8]) -> Result<Option<Script>, AllocError>
    ensures { IfOk result (λ found. MatchOption found (spec.SpellNoScript (lines_of text.now))
        (λ script. spec.SpellScript (lines_of text.now) script.n script.limits
        script.moves.items)) }
{
    let Some((line, rest)) = first_line(text) else {
        return Ok(None);
    };
    let Some(opening) = opening_of(alloc, line)? else {
        return Ok(None);
    };
    let Some(moves) = moves_of(alloc, rest)? else {
        return Ok(None);
    };
    Ok(Some(Script {
        n: opening.n,
        limits: limits_of(opening.limits),
        moves,
    }))
}

// What lines say: none where one says nothing.
fn moves_of(alloc: Global, text: &[u8]) -> Result<Option<Vec<Move>>, AllocError>
    ensures { IfOk result (λ found. MatchOption found (spec.SayAll (lines_of text.now) None)
        (λ moves. spec.SayAll (lines_of text.now) (Some moves.items))) }
{
    let mut moves = Vec::new(alloc);
    let mut left = text;
    while let Some((line, rest)) = first_line(left) {
        let Some(next) = move_of(alloc, line)? else {
            return Ok(None);
        };
        moves.push(next)?;
        left = rest;
    }
    Ok(Some(moves))
}

// What a line says.
fn move_of(alloc: Global, line: &[u8]) -> Result<Option<Move>, AllocError>
    ensures { IfOk result (λ found. MatchOption found (spec.SaysNothing line.now)
        (λ next. spec.Says line.now next)) }
{
    let bringing = bringing_of(alloc, line)?;
    if let Some((from, to)) = bringing {
        return Ok(Some(Move::Bring(from, to)));
    }
    match step_of(alloc, line)? {
        Some(step) => Ok(Some(Move::Make(step))),
        None => Ok(None),
    }
}

// The two spaces of a bringing, where a line says one.
fn bringing_of(alloc: Global, line: &[u8]) -> Result<Option<(SpaceId, SpaceId)>, AllocError>
    ensures found { IfOk result (λ found. IfSome found
        (λ both. spec.IsBringing line.now both.0 both.1)) }
    ensures none { IfOk result (λ found. found ≡ None → (from to : ℕ)
        → spec.IsBringing line.now from to → ⊥) }
{
    let Some(mark) = mark_of(line) else {
        return Ok(None);
    };
    let (from, rest) = line.split_at(mark);
    let Some(to) = behind_mark(rest) else {
        return Ok(None);
    };
    let Some(from) = whole_space(alloc, from)? else {
        return Ok(None);
    };
    let Some(to) = whole_space(alloc, to)? else {
        return Ok(None);
    };
    Ok(Some((from, to)))
}

// Where the mark of a bringing stands first.
fn mark_of(line: &[u8]) -> Option<usize>
    ensures { result ≡ position spec.is_mark line.now }
{
    line.iter().position(|byte| *byte == b'>')
}

// What stands behind the mark with which a text begins.
fn behind_mark(text: &[u8]) -> Option<&[u8]>
    ensures { MatchOption result ((rest : List ℕ) → text.now ≡ 62 ∷ rest → ⊥)
        (λ rest. text.now ≡ 62 ∷ rest.now) }
{
    match text {
        [b'>', rest @ ..] => Some(rest),
        _ => None,
    }
}

// The space that a text spells.
fn whole_space(alloc: Global, text: &[u8]) -> Result<Option<SpaceId>, AllocError>
    ensures found { IfOk result (λ found. IfSome found
        (λ space. IsSpace space × (text.now ≡ decimal space))) }
    ensures only { IfOk result (λ found. (space : ℕ) → IsSpace space → text.now ≡ decimal space
        → found ≡ Some space) }
{
    match number_of(alloc, text)? {
        Some(number) => Ok(space_of(number)),
        None => Ok(None),
    }
}
