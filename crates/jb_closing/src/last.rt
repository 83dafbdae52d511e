//! The last record of each target.
ghost use Rattle.std.specs.Prelude.{◌≡◌, List, [], ◌∷◌, ◌++◌, length, replicate, None, IfOk, IsTrue, ◌↔◌};
ghost use Rattle.st_records.specs.declared.record.Record.{Record};
ghost use Rattle.mk_nodes.specs.Node.{EachHasOneNumber};
ghost use Rattle.jb_closing.specs.Last.{ArePlaces, IsDoneRecord};

use mk_names::Names;
use st_records::Record;
use std::alloc::{AllocError, Global};

fn no_places(alloc: Global, names: usize) -> Result<Vec<Option<usize>>, AllocError>
    ensures { IfOk result (λ v. v.items ≡ replicate names None) }
{
    Ok(vec![in alloc; None; names]?)
}

/// The places, once the record at this place is the last one.
fn set_place(names: &Names, places: &mut Vec<Option<usize>>, place: usize, note: &Record)
    requires distinct { EachHasOneNumber names.now }
    requires count { length places.old.items ≡ length names.now }
    ensures { (notes : List Record) → length notes ≡ place → ArePlaces notes names.now places.old.items
        → ArePlaces (notes ++ note.now ∷ []) names.now places.new.items }
{
    if let Some(node) = names.number_of(note.target().as_slice()) {
        places[node as usize] = Some(place);
    }
}

/// The place of the last record of each named target, None where a name has no record. Its time is linear in the records.
pub(crate) fn last_places(
    alloc: Global,
    names: &Names,
    told: &[Record],
) -> Result<Vec<Option<usize>>, AllocError>
    requires { EachHasOneNumber names.now }
    ensures { IfOk result (λ places. ArePlaces told.now names.now places.items) }
{
    let mut places = no_places(alloc, names.len())?;
    for (place, note) in told.iter().enumerate() {
        set_place(names, &mut places, place, note);
    }
    Ok(places)
}

pub(crate) fn is_done(note: &Record) -> bool
    ensures { IsTrue result ↔ IsDoneRecord note.now }
{
    matches!(note, Record::Done { .. })
}
