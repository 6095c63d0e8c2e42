//! The links of plain objects, by slot.
ghost use Rattle.std.specs.Prelude.{◌≡◌, ℕ, ◌++◌, ◌<◌, [], IfOk, Some, length, replicate, slice_index_or, slice_set};
ghost use Rattle.jlr_cells.specs.Links.{linked, linked_in, no_links};

use crate::links::Links;
use jlr_links::column::Column;
use jlr_sets::cell_set::CellSet;
use jlr_types::Slot;
use std::alloc::{AllocError, Global};
use std::marker::Model;

/// By slot, the links of eight fields: those of the first four side by side, and those of the others in a column of
/// their own, which is read where one of them ever referred to an object.
#[derive(Drop)]
pub(crate) struct Columns {
    near: Column<Links>,
    far: Column<Links>,
    /// The slots of objects whose links in the second column may not all be null.
    wide: CellSet,
}

impl Model for Columns {
    ghost use Rattle.std.specs.Prelude.{List, Option, ℕ};
    ghost use Rattle.jlr_cells.specs.Links.{AreColumns, rows};

    ghost Value = { List (List (Option ℕ)) };

    ghost view = { λ c. rows c.near c.far };

    ghost invariant = { λ c. AreColumns c.near c.far c.wide };
}

impl Columns {
    /// All links of so many slots are null.
    ///
    /// # Errors
    /// `AllocError` where there is no memory for them.
    pub(crate) fn new(alloc: Global, count: u32) -> Result<Self, AllocError>
        ensures { IfOk result (λ columns. columns ≡ replicate count no_links) }
    {
        Ok(Columns {
            near: Column::new(alloc, count)?,
            far: Column::new(alloc, count)?,
            wide: CellSet::new(alloc, count)?,
        })
    }

    /// All links of a slot are null.
    pub(crate) fn clear(&mut self, slot: Slot)
        requires { slot < length self.old }
        ensures { self.new ≡ slice_set self.old slot no_links }
    {
        let place = slot.number() as usize;
        self.near[place] = Links::none();
        if self.wide.contains(slot) {
            self.far[place] = Links::none();
            self.wide.remove(slot);
        }
    }

    /// A link of a slot leads elsewhere.
    pub(crate) fn set(&mut self, slot: Slot, field: usize, target: Option<Slot>)
        requires slot { slot < length self.old }
        requires field { field < 8 }
        requires few { (s : ℕ) → target ≡ Some s → s < 4294967295 }
        ensures { self.new ≡ slice_set self.old slot (slice_set (slice_index_or self.old slot []) field target) }
    {
        let place = slot.number() as usize;
        if field < 4 {
            let links = &mut self.near[place];
            links.set(field, target);
            return;
        }
        let links = &mut self.far[place];
        links.set(field - 4, target);
        self.wide.insert(slot);
    }

    /// The links of a slot: of the first four fields, and of the others, if one of them ever referred to an object.
    pub(crate) fn of(&self, slot: Slot) -> (&Links, Option<&Links>)
        requires { slot < length self.now }
        ensures { linked (slice_index_or self.now slot []) ≡ linked result.0.now ++ linked_in result.1 }
    {
        let place = slot.number() as usize;
        let near = &self.near[place];
        // Where no object had more than four references, nothing of the second column was ever written: the set is not
        // asked then.
        match self.far.get(place) {
            None => (near, None),
            Some(far) => {
                if self.wide.contains(slot) {
                    (near, Some(far))
                } else {
                    (near, None)
                }
            }
        }
    }
}
