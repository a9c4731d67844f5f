//! What is done at the end of a path.
ghost use Rattle.std.specs.Prelude.{◌≡◌, IfOk};
ghost use Rattle.pql_model.specs.Changes as spec;
ghost use Rattle.pql_change.specs.Edits.{done};

use crate::elements::{less_element, less_field, with_element, with_field, with_put};
use containers::OutOfMemory;
use ion_values::Value;
use pql_model::{Evaluated, Selector};
use std::alloc::Global;

/// A value set at a member, a value put into a list, or a member removed.
#[derive(Drop)]
pub enum Edit {
    Set { member: Selector, new: Value },
    Put { at: Option<Evaluated>, new: Value },
    Remove { member: Selector },
}

fn set(v: Value, member: Selector, new: Value) -> Result<Value, OutOfMemory>
    ensures { IfOk result (λ w. w ≡ spec.set_member new member v) }
{
    match member {
        Selector::Field(name) => with_field(v, name, new),
        Selector::Element(place) => Ok(with_element(v, place, new)),
        Selector::Nothing => Ok(v),
    }
}

fn removed(alloc: Global, v: Value, member: Selector) -> Result<Value, OutOfMemory>
    ensures { IfOk result (λ w. w ≡ spec.remove_member member v) }
{
    match member {
        Selector::Field(name) => less_field(alloc, v, name.as_str()),
        Selector::Element(place) => Ok(less_element(v, place)),
        Selector::Nothing => Ok(v),
    }
}

/// The value that the edit makes of the value at the end of the path.
pub fn edited(alloc: Global, v: Value, edit: Edit) -> Result<Value, OutOfMemory>
    ensures { IfOk result (λ w. w ≡ done edit v) }
{
    match edit {
        Edit::Set { member, new } => set(v, member, new),
        Edit::Put { at, new } => with_put(v, at, new),
        Edit::Remove { member } => removed(alloc, v, member),
    }
}
