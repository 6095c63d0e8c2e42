//! The pending list and the cleaner's line are linked through one column: what stands in them takes no memory of its
//! own.
ghost use Rattle.std.specs.Prelude.{ℕ, ◌<◌, length};
ghost use Rattle.jlr_machine.specs.Objects.{◌∈◌};
ghost use Rattle.jlr_links.specs.Lists.{list_at};
ghost use Rattle.jlr_marks.specs.Marking.{Shaded};

use crate::shade::shade_target;
use jlr_links::Links;
use jlr_marks::Marks;
use jlr_types::Slot;

/// The number of the pending list.
pub(crate) const PENDING: u32 = 0;

/// The number of the line.
pub(crate) const LINE: u32 = 1;

/// How many lists there are.
pub(crate) const LISTS: u32 = 2;

/// Shades the slots of a list.
pub(crate) fn shade_list(lists: &Links, list: u32, marks: &mut Marks)
    requires list { list < length lists.now.lists }
    requires within { (x : ℕ) → x ∈ list_at lists.now.lists list → x < length marks.old.bits }
    ensures { Shaded (λ x. x ∈ list_at lists.now.lists list) marks.old marks.new }
{
    let mut next = lists.front(list);
    for _place in 0..lists.count(list) {
        match next {
            Some(slot) => {
                shade_target(Some(slot), marks);
                next = lists.next(list, slot);
            }
            None => unreachable!(),
        }
    }
}
