// How a store comes to its tuples: none at first, an access by which they are found, one more, those that are kept.

ghost use Rattle.std.specs.Prelude.{◌≡◌, ◌<◌, ◌≤◌, ◌^◌, [], None, IfOk, OnOk, OnErr};
ghost use Rattle.row_cells.specs.declared.table.Side.TheVariants.{R as R', S as S'};
ghost use Rattle.store_parts.specs.Indexed.{IsIndexed};
ghost use Rattle.store_parts.specs.Keyed.{FitsKey, IsOwn};
ghost use Rattle.store_parts.specs.Matches.{HasWidth};
ghost use Rattle.store_parts.specs.Stored.{kept_of, with_tuple};

use crate::copies::{access_copy, key_copy};
use crate::half::{Half, index_of};
use crate::index::Index;
use crate::store::Store;
use epoch_tags::Tuple;
use grid_map::Shape;
use row_cells::Side;
use std::alloc::{AllocError, Global};
use std::mem;
use theta_pred::{Access, KeyAtom, Theta};

impl Store {
    /// A store with no tuples. It takes no memory.
    pub fn new(alloc: Global, key: Option<KeyAtom>) -> Store
        ensures { result ≡ record { key = key; access = None; r = []; s = [] } }
    {
        let r = Half::new(alloc, &key, &None);
        let s = Half::new(alloc, &key, &None);
        Store {
            key,
            access: None,
            r,
            s,
            alloc,
        }
    }

    /// The same store, whose tuples are found by this access.
    pub fn with_access(mut self, access: Option<Access>) -> Result<Store, AllocError>
        ensures { IfOk result (λ store. store ≡ record self { access = access }) }
    {
        match self.indexes_by(&access) {
            Ok((r_index, s_index)) => {
                drop(mem::replace(&mut self.access, access));
                drop(mem::replace(&mut self.r.index, r_index));
                drop(mem::replace(&mut self.s.index, s_index));
                Ok(self)
            }
            Err(refused) => {
                drop(access);
                drop(self);
                Err(refused)
            }
        }
    }

    // The indexes of both sides' tuples by this access.
    fn indexes_by(&self, access: &Option<Access>) -> Result<(Index, Index), AllocError>
        ensures r { IfOk result (λ both. IsIndexed self.now.key access.now R' self.now.r both.0) }
        ensures s { IfOk result (λ both. IsIndexed self.now.key access.now S' self.now.s both.1) }
    {
        let alloc = self.alloc;
        let r_index = index_of(alloc, self.r.tuples.as_slice(), &self.key, access, Side::R)?;
        let s_index = index_of(alloc, self.s.tuples.as_slice(), &self.key, access, Side::S)?;
        Ok((r_index, s_index))
    }

    /// Adds a tuple to those of its side, as the last. It is dropped where memory is wanting.
    pub fn add(&mut self, tuple: Tuple) -> Result<(), AllocError>
        requires { FitsKey self.old.key tuple }
        ensures ok { OnOk result (self.new ≡ with_tuple self.old tuple) }
        ensures err { OnErr result (self.new ≡ self.old) }
    {
        let alloc = self.alloc;
        match tuple.side {
            Side::R => self.r.add(alloc, &self.key, &self.access, Side::R, tuple),
            Side::S => self.s.add(alloc, &self.key, &self.access, Side::S, tuple),
        }
    }

    /// That a row of the predicate's width fits the predicate's own key. It has no code.
    pub fn fits_key(&self, theta: &Theta, tuple: &Tuple)
        requires width { HasWidth theta.now tuple.now.side tuple.now }
        requires own { IsOwn theta.now self.now.key }
        ensures { FitsKey self.now.key tuple.now }
    {
        theta.key_law();
    }

    // An equal key and an equal access.
    fn ways(&self) -> Result<(Option<KeyAtom>, Option<Access>), AllocError>
        ensures key { IfOk result (λ ways. ways.0 ≡ self.now.key) }
        ensures access { IfOk result (λ ways. ways.1 ≡ self.now.access) }
    {
        let key = key_copy(&self.key)?;
        match access_copy(&self.access) {
            Ok(access) => Ok((key, access)),
            Err(refused) => {
                drop(key);
                Err(refused)
            }
        }
    }

    // Of both halves what the joiner holds in a grid of this shape.
    fn kept_halves(&self, shape: Shape, id: u32) -> Result<(Half, Half), AllocError>
        requires shift { shape.shift ≤ shape.k }
        requires k { shape.k ≤ 8 }
        requires id { id < 2 ^ shape.k }
        ensures r { IfOk result (λ both. both.0.tuples ≡ (kept_of shape id self.now).r) }
        ensures r_indexed { IfOk result (λ both.
            IsIndexed self.now.key self.now.access R' both.0.tuples both.0.index) }
        ensures s { IfOk result (λ both. both.1.tuples ≡ (kept_of shape id self.now).s) }
        ensures s_indexed { IfOk result (λ both.
            IsIndexed self.now.key self.now.access S' both.1.tuples both.1.index) }
    {
        let alloc = self.alloc;
        let r = self
            .r
            .kept(alloc, &self.key, &self.access, Side::R, shape, id)?;
        match self
            .s
            .kept(alloc, &self.key, &self.access, Side::S, shape, id)
        {
            Ok(s) => Ok((r, s)),
            Err(refused) => {
                drop(r);
                Err(refused)
            }
        }
    }

    /// A store with the same key and access, and copies of the tuples that the joiner holds in a grid of this shape.
    pub fn kept_copy(&self, shape: Shape, id: u32) -> Result<Store, AllocError>
        requires shift { shape.shift ≤ shape.k }
        requires k { shape.k ≤ 8 }
        requires id { id < 2 ^ shape.k }
        ensures { IfOk result (λ kept. kept ≡ kept_of shape id self.now) }
    {
        let (key, access) = self.ways()?;
        match self.kept_halves(shape, id) {
            Ok((r, s)) => Ok(Store {
                key,
                access,
                r,
                s,
                alloc: self.alloc,
            }),
            Err(refused) => {
                drop(key);
                drop(access);
                Err(refused)
            }
        }
    }
}
