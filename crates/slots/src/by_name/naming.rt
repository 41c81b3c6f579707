//! The slots of a machine, kept beside the places of their names.

ghost use Rattle.std.specs.Prelude.{◌≡◌, ◌∷◌, ◌++◌, [], IfErr, None, OnErr, OnOk, Some, map};
ghost use Rattle.slots.specs.Directories.{AreSame, ChangesOnly, place_of};
ghost use Rattle.slots.specs.declared.fault.SlotFault.TheVariants.{Memory};
ghost use Rattle.slots.specs.Keeping.{slot_with_noted_position};

use crate::by_name::directory::Directory;
use crate::by_name::slot::Slot;
use crate::fault::SlotFault;
use pqformat::Text;
use std::alloc::Global;

/// Gives a place its name. L5 changes nothing.
pub(crate) fn name_place(
    alloc: Global,
    directory: &mut Directory,
    slots: &mut Vec<Slot>,
    name: &str,
    place: usize,
    confirmed: u64,
) -> Result<(), SlotFault>
    requires { place_of directory.old name.now ≡ None }
    ensures ok { OnOk result
        (slots.new.items
        ≡ slots.old.items ++ record { name = name.now; place = place; confirmed = confirmed }
        ∷ []) }
    ensures named { OnOk result (ChangesOnly directory.old directory.new name.now (Some place)) }
    ensures err { OnErr result (slots.new.items ≡ slots.old.items) }
    ensures unnamed { OnErr result (AreSame directory.old directory.new) }
    ensures fault { IfErr result (λ e. e ≡ Memory) }
{
    slots.reserve(1)?;
    let copy = Text::copy_of(alloc, name)?;
    directory.add(name, place)?;
    slots.push_reserved(Slot {
        name: copy,
        place,
        confirmed,
    });
    Ok(())
}

/// Notes the confirmed position of the slot at this place.
pub(crate) fn note(slots: &mut Vec<Slot>, place: usize, confirmed: u64)
    ensures { slots.new.items ≡ map (slot_with_noted_position place confirmed) slots.old.items }
{
    for slot in slots.iter_mut() {
        if slot.place == place {
            slot.confirmed = confirmed;
        }
    }
}
