//! Which copies of a reference came.

ghost use Rattle.std.specs.Prelude.{◌≡◌, ◌∷◌, ◌++◌, [], IfOk};
ghost use Rattle.std.specs.List.{list_any};
ghost use Rattle.std.specs.Option.{option_map};
ghost use Rattle.nob_ids.specs.Names.{is_same};
ghost use Rattle.nob_check_index.specs.Sources as words;

use indexmap::IndexMap;
use nob_check_tables::Tables;
use nob_ids::{SpaceId, WireRep};
use nob_item::Item;
use nob_model_journal::Source;
use nob_model_types::Deed;
use std::alloc::{AllocError, Global};
use std::marker::Model;

/// Copies that came, the first first. Contracts see the list.
#[derive(Debug, Drop)]
pub struct Sources {
    copies: Vec<Source>,
}

impl Model for Sources {
    ghost use Rattle.std.specs.Prelude.{List};
    ghost use Rattle.nob_model_journal.specs.declared.losses.Source.{Source};

    ghost Value = { List Source };

    ghost view = { λ sources. sources.copies.items };
}

impl Sources {
    /// None.
    pub fn none(alloc: Global) -> Sources
        ensures { result ≡ [] }
    {
        Sources {
            copies: Vec::new(alloc),
        }
    }

    /// The copies.
    pub fn as_slice(&self) -> &[Source]
        ensures { result.now ≡ self.now }
    {
        self.copies.as_slice()
    }

    // These and one more.
    fn with_one(self, source: Source) -> Result<Sources, AllocError>
        ensures { IfOk result (λ more. more ≡ self ++ source ∷ []) }
    {
        let Sources { mut copies } = self;
        copies.push(source)?;
        Ok(Sources { copies })
    }
}

// These copies, none where there is no row.
fn found_sources(alloc: Global, copies: Option<Sources>) -> Sources
    ensures { result ≡ words.found_sources copies }
{
    match copies {
        Some(copies) => copies,
        None => Sources::none(alloc),
    }
}

/// Which copies of each reference came since it was given up last, or the session with its owner was
/// opened anew. Contracts see the rows, in the order in which the references came.
pub struct SourceRows {
    map: IndexMap<WireRep, Sources>,
}

// By hand, so that the table is taken apart here alone and not at each end of each caller.
impl Drop for SourceRows {
    fn drop(self) {
        let SourceRows { map: _ } = self;
    }
}

impl Model for SourceRows {
    ghost use Rattle.std.specs.Prelude.{List};
    ghost use Rattle.nob_ids.specs.declared.wire_rep.WireRep.{WireRep};
    ghost use Rattle.nob_model_journal.specs.declared.losses.Source.{Source};

    ghost Value = { List (WireRep × List Source) };

    ghost view = { λ rows. rows.map.entries };
}

impl SourceRows {
    /// Nothing came.
    pub fn none(alloc: Global) -> SourceRows
        ensures { result ≡ [] }
    {
        SourceRows {
            map: IndexMap::new(alloc),
        }
    }

    /// The copies of a reference. Constant time on average.
    pub fn sources(&self, rep: &WireRep) -> &[Source]
        ensures { result.now ≡ words.sources_in rep.now self.now }
    {
        match self.map.get(rep) {
            Some(copies) => copies.as_slice(),
            None => &[],
        }
    }

    // The copies of a reference, and these without them.
    fn taken(self, alloc: Global, rep: WireRep) -> Result<(Sources, SourceRows), AllocError>
        ensures copies { IfOk result (λ taken. taken.0 ≡ words.sources_in rep self) }
        ensures others { IfOk result (λ taken. taken.1 ≡ words.with_sources rep [] self) }
    {
        let SourceRows { mut map } = self;
        match map.insert(rep, Sources::none(alloc)) {
            Ok(before) => Ok((found_sources(alloc, before), SourceRows { map })),
            Err(_) => Err(AllocError),
        }
    }

    // These with other copies of a reference.
    fn with_sources(self, rep: WireRep, copies: Sources) -> Result<SourceRows, AllocError>
        ensures { IfOk result (λ rows. rows ≡ words.with_sources rep copies self) }
    {
        let SourceRows { mut map } = self;
        map.insert(rep, copies)?;
        Ok(SourceRows { map })
    }

    // These without those of the references that a peer owns. Linear in the rows.
    fn without_rows(self, peer: SpaceId) -> SourceRows
        ensures { result ≡ words.without_rows peer self }
    {
        let SourceRows { map } = self;
        SourceRows {
            map: others(peer, map),
        }
    }
}

// The rows of the references that others own.
fn others(peer: SpaceId, mut map: IndexMap<WireRep, Sources>) -> IndexMap<WireRep, Sources>
    ensures { result.entries ≡ words.without_rows peer map.entries }
{
    map.retain(|rep, _| peer != rep.owner);
    map
}

// The rows once a copy of a reference came.
#[tactic(auto, using(crate::proofs::Copies::row_put))]
fn with_source(
    alloc: Global,
    source: &Source,
    rep: &WireRep,
    rows: SourceRows,
) -> Result<SourceRows, AllocError>
    ensures { IfOk result (λ more. more ≡ words.with_source source.now rep.now rows) }
{
    let (before, others) = rows.taken(alloc, *rep)?;
    let copies = before.with_one(*source)?;
    others.with_sources(*rep, copies)
}

// Whether a reference is among others.
fn is_in(rep: &WireRep, others: &[WireRep]) -> bool
    ensures { result ≡ list_any (is_same rep.now) others.now }
{
    others.iter().any(|other| *rep == *other)
}

// The rows once copies of some references came, of each of them one: an item has few.
fn with_copies(
    alloc: Global,
    source: &Source,
    reps: &[WireRep],
    rows: SourceRows,
) -> Result<SourceRows, AllocError>
    ensures { IfOk result (λ more. more ≡ words.with_copies source.now reps.now rows) }
{
    match reps {
        [] => Ok(rows),
        [rep, others @ ..] => {
            let more = with_copies(alloc, source, others, rows)?;
            if is_in(rep, others) {
                return Ok(more);
            }
            with_source(alloc, source, rep, more)
        }
    }
}

// The rows once an item was acted on.
fn with_item(
    alloc: Global,
    source: &Source,
    item: Option<&Item>,
    rows: SourceRows,
) -> Result<SourceRows, AllocError>
    ensures { IfOk result (λ more. more ≡ words.with_item source.now
        (option_map (λ found. found.now) item.entry) rows) }
{
    match item {
        Some(item) => {
            let reps = nob_item::counted_refs(alloc, item)?;
            with_copies(alloc, source, reps.as_slice(), rows)
        }
        None => Ok(rows),
    }
}

// The rows once a Clean of a reference was sent, where it was asked for before.
fn sources_with_clean(
    alloc: Global,
    rep: &WireRep,
    asks: bool,
    rows: SourceRows,
) -> Result<SourceRows, AllocError>
    ensures { IfOk result (λ after. after ≡ words.sources_with_clean rep.now asks rows) }
{
    if !asks {
        return Ok(rows);
    }
    rows.with_sources(*rep, Sources::none(alloc))
}

/// These after a deed, by the tables before it. Only memory fails it. It looks up the item that is
/// acted on and each reference in it. Where a session opens anew, it walks all rows.
pub fn sources_after(
    alloc: Global,
    deed: &Deed,
    tables: &Tables,
    rows: SourceRows,
) -> Result<SourceRows, AllocError>
    ensures { IfOk result (λ after. after ≡ words.sources_after deed.now tables.now rows) }
{
    match deed {
        Deed::Act(from, number) => {
            let source = Source {
                from: *from,
                session: tables.numbers.number(*from),
                number: *number,
            };
            let item = tables.came.item_at(*from, *number);
            with_item(alloc, &source, item, rows)
        }
        Deed::Clean(rep) => sources_with_clean(alloc, rep, tables.rows.turns(rep).asks, rows),
        Deed::Open(peer, _) => Ok(rows.without_rows(*peer)),
        _ => Ok(rows),
    }
}
