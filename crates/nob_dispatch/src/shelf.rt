//! The objects of a space, by their indexes.

ghost use Rattle.std.specs.Prelude.{◌≡◌, ◌≢◌, ◌⊎◌, ◌∷◌, [], Some, None, Err, IsSome, IfErr, OnOk, OnErr, MatchOption, MatchResult};
ghost use Rattle.nob_dispatch.specs.Shelves as shelves;
ghost use Rattle.nob_dispatch.specs.declared.shelf.AddError.TheVariants as add_errors;
ghost use Rattle.nob_dispatch.specs.declared.shelf.Place.TheVariants.{Here, Away};

use nob_dispatch_objects::Object;
use std::alloc::Global;
use std::collections::BTreeMap;
use std::marker::Model;

/// Where an object is.
#[derive(Drop)]
pub enum Place<O> {
    /// Here.
    Here(O),
    /// Away: with a job.
    Away,
}

/// Why an object isn't added. It comes back.
#[derive(Drop)]
pub enum AddError<O> {
    /// The index has a place already.
    Taken(O),
    /// A growth was refused.
    OutOfMemory(O),
}

/// The objects of a space, by their indexes. Each is here, or away with a job. Contracts see the
/// places in the order of the indexes.
#[derive(Drop)]
pub struct Shelf<O: Drop> {
    places: BTreeMap<u64, Place<O>>,
}

impl<O: Drop> Model for Shelf<O> {
    ghost use Rattle.std.specs.Prelude.{ℕ, List};
    ghost use Rattle.nob_dispatch.specs.declared.shelf.Place.{Place};

    ghost Value = { List (ℕ × Place O) };

    ghost view = { λ shelf. shelf.places.entries };
}

impl<O: Object> Shelf<O> {
    /// No objects. It takes no memory.
    pub fn new(alloc: Global) -> Shelf<O>
        ensures { result ≡ [] }
    {
        Shelf {
            places: BTreeMap::new(alloc),
        }
    }

    /// The place of an index. Logarithmic in the objects.
    pub fn place(&self, index: u64) -> Option<&Place<O>>
        ensures { MatchOption result (shelves.place_of index self.now ≡ None)
            (λ place. shelves.place_of index self.now ≡ Some place.now) }
    {
        self.places.get(&index)
    }

    /// An object more, at an index that has no place yet. It is here. Logarithmic in the objects.
    pub fn add(&mut self, index: u64, object: O) -> Result<(), AddError<O>>
        ensures added { OnOk result (self.new
            ≡ shelves.with_place index (Here object) self.old) }
        ensures free { OnOk result (shelves.place_of index self.old ≡ None) }
        // A place that is there refuses the object, and else only memory does.
        ensures taken { IsSome (shelves.place_of index self.old)
            → result ≡ Err (add_errors.Taken object) }
        ensures only { IfErr result (λ error. (error ≡ add_errors.OutOfMemory object)
            ⊎ (IsSome (shelves.place_of index self.old) × (error ≡ add_errors.Taken object))) }
        ensures err { OnErr result (self.new ≡ self.old) }
    {
        let is_taken = self.place(index).is_some();
        if is_taken {
            return Err(AddError::Taken(object));
        }
        match self.places.insert(index, Place::Here(object)) {
            Ok(_) => Ok(()),
            Err(error) => match error.value.1 {
                Place::Here(object) => Err(AddError::OutOfMemory(object)),
                Place::Away => unreachable!(),
            },
        }
    }

    /// Takes the object of an index, which is away from then on: `None` where it is away already,
    /// or there is none. It takes no memory. Logarithmic in the objects.
    pub fn take(&mut self, index: u64) -> Option<O>
        ensures object { result ≡ shelves.object_in (shelves.place_of index self.old) }
        ensures away { MatchOption result (self.new ≡ self.old)
            (λ _. self.new ≡ shelves.with_place index Away self.old) }
    {
        let Some(Place::Here(_)) = self.place(index) else {
            return None;
        };
        match self.places.insert(index, Place::Away) {
            Ok(Some(Place::Here(object))) => Some(object),
            _ => unreachable!(),
        }
    }

    /// Gives back the object of an index, which was away: else it comes back. It takes no memory.
    /// Logarithmic in the objects.
    pub fn give_back(&mut self, index: u64, object: O) -> Result<(), O>
        ensures back { MatchResult result
            (λ _. shelves.place_of index self.old ≡ Some Away)
            (λ back. (back ≡ object) × (shelves.place_of index self.old ≢ Some Away)) }
        ensures here { OnOk result (self.new
            ≡ shelves.with_place index (Here object) self.old) }
        ensures err { OnErr result (self.new ≡ self.old) }
    {
        let Some(Place::Away) = self.place(index) else {
            return Err(object);
        };
        match self.places.insert(index, Place::Here(object)) {
            Ok(_) => Ok(()),
            Err(_) => unreachable!(),
        }
    }

    /// Takes an index out: the place that it had. Logarithmic in the objects.
    pub fn remove(&mut self, index: u64) -> Option<Place<O>>
        ensures place { result ≡ shelves.place_of index self.old }
        ensures removed { self.new ≡ shelves.without_place index self.old }
    {
        self.places.remove(&index)
    }

    /// Takes the lowest index out, with the place that it had: `None` where there is none. So a
    /// shelf is emptied by rising index, without memory. Logarithmic in the objects.
    pub fn pop_first(&mut self) -> Option<(u64, Place<O>)>
        ensures { MatchOption result ((self.old ≡ []) × (self.new ≡ []))
            (λ first. self.old ≡ first ∷ self.new) }
    {
        self.places.pop_first()
    }
}
