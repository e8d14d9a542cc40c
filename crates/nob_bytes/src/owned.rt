//! Bytes that one owner has, or that several share.

ghost use Rattle.std.specs.Prelude.{◌≡◌, ◌<◌, IfOk, OnErr, length};
ghost use Rattle.std.specs.Arc.{arc_value};

use crate::few::Few;
use std::alloc::{AllocError, AllocFailed, Global};
use std::marker::Model;
use std::mem;
use std::sync::Arc;

// Where bytes stand: here, where they are few, or else in a vector, of the one owner or of several
// who are counted.
#[derive(Debug, Drop)]
enum Place {
    Few(Few),
    Owned(Vec<u8>),
    Shared(Arc<Vec<u8>, Global>),
}

/// Bytes. Contracts see their list. Once they are shared, a copy copies no byte.
#[derive(Debug)]
pub struct Bytes {
    place: Place,
}

impl Model for Bytes {
    ghost use Rattle.std.specs.Prelude.{List, ℕ};

    ghost Value = { List ℕ };

    ghost use Rattle.nob_bytes.specs.Places.{bytes_at};

    ghost view = { λ a. bytes_at a.place };
}

impl Drop for Bytes {
    fn drop(self) {
        let Bytes { place } = self;
        drop(place);
    }
}

impl Bytes {
    /// These bytes. It takes no memory.
    pub fn from_vec(bytes: Vec<u8>) -> Bytes
        ensures { result ≡ bytes.items }
    {
        Bytes {
            place: Place::Owned(bytes),
        }
    }

    /// The same bytes as these. Only memory fails it, and no bytes take none.
    pub fn from_slice(alloc: Global, bytes: &[u8]) -> Result<Bytes, AllocError>
        ensures same { IfOk result (λ copy. copy ≡ bytes.now) }
        ensures memory { OnErr result (0 < length bytes.now) }
    {
        if let Some(few) = Few::of(bytes) {
            return Ok(Bytes {
                place: Place::Few(few),
            });
        }
        Ok(Bytes::from_vec(Vec::from_slice(alloc, bytes)?))
    }

    /// The bytes.
    pub fn as_slice(&self) -> &[u8]
        ensures { result.now ≡ self.now }
    {
        match &self.place {
            Place::Few(few) => few.as_slice(),
            Place::Owned(bytes) => bytes.as_slice(),
            Place::Shared(bytes) => bytes.as_slice(),
        }
    }

    /// How many bytes there are.
    pub fn len(&self) -> usize
        ensures { result ≡ length self.now }
    {
        self.as_slice().len()
    }

    /// Has these bytes shared by the copies that are made from now on. It costs the same however
    /// many they are, and takes memory for the count of owners: only that fails it, and not where
    /// they are shared already, nor where they are 23 at most, which a copy has beside its length.
    pub fn share(&mut self) -> Result<(), AllocError>
        ensures same { self.new ≡ self.old }
        ensures memory { OnErr result (0 < length self.old) }
    {
        let Place::Owned(bytes) = &mut self.place else {
            return Ok(());
        };
        if let Some(few) = Few::of(bytes.as_slice()) {
            self.place = Place::Few(few);
            return Ok(());
        }
        let alloc = *bytes.allocator();
        let owned = mem::replace(bytes, Vec::new(alloc));
        match Arc::new(alloc, owned) {
            Ok(shared) => {
                self.place = Place::Shared(shared);
                Ok(())
            }
            Err(AllocFailed { value: owned }) => {
                self.place = Place::Owned(owned);
                Err(AllocError)
            }
        }
    }

    /// The same bytes once more: shared ones in constant time, and others by copying each. Only
    /// memory fails it, or a count of owners that is full, and no bytes take none.
    pub fn copy(&self) -> Result<Bytes, AllocError>
        ensures same { IfOk result (λ copy. copy ≡ self.now) }
        ensures memory { OnErr result (0 < length self.now) }
    {
        match &self.place {
            Place::Few(few) => Ok(Bytes {
                place: Place::Few(*few),
            }),
            Place::Owned(bytes) => Bytes::from_slice(*bytes.allocator(), bytes.as_slice()),
            Place::Shared(bytes) => shared_copy(bytes),
        }
    }
}

// The same bytes for one more owner: only a count that is full fails it.
fn shared_copy(bytes: &Arc<Vec<u8>, Global>) -> Result<Bytes, AllocError>
    ensures same { IfOk result (λ copy. copy ≡ (arc_value bytes.now).items) }
    ensures memory { OnErr result (0 < length (arc_value bytes.now).items) }
{
    if bytes.is_empty() {
        return Ok(Bytes {
            place: Place::Few(Few::none()),
        });
    }
    Ok(Bytes {
        place: Place::Shared(Arc::try_clone(bytes)?),
    })
}
