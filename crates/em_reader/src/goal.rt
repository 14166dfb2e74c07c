//! The default goal.
ghost use Rattle.em_reading.specs.Faults.{is_free};
ghost use Rattle.em_reader.specs.Makefiles as makefiles;
ghost use Rattle.em_view.specs.Steps.{Does};

use crate::hear::heard;
use em_base::Place;
use em_reading::{ReadNo, Reading, refused};
use em_vars::Flavour;
use em_view::{Desk, View};
use std::alloc::Global;

/// The default goal, where `.DEFAULT_GOAL` is recursive.
fn expanded_goal<V: View>(
    alloc: Global,
    desk: &mut Desk<V>,
    reading: &mut Reading,
    place: &Place,
    text: &[u8],
) -> Result<(), ReadNo>
    ensures { Does is_free V.tells desk.old desk.new reading.old reading.new result
        (makefiles.expanded_goal place.now text.now) }
{
    let value = heard(alloc, desk, reading, place, text)?;
    if let Some(name) = &value.refused {
        return Err(refused(alloc, place, name.bytes()));
    }
    reading.set_goal(alloc, value.text.bytes())
}

/// The default goal.
pub(crate) fn default_goal<V: View>(
    alloc: Global,
    desk: &mut Desk<V>,
    reading: &mut Reading,
    place: &Place,
) -> Result<(), ReadNo>
    ensures { Does is_free V.tells desk.old desk.new reading.old reading.new result
        (makefiles.default_goal place.now) }
{
    let Some(v) = reading.book.vars.get(b".DEFAULT_GOAL") else {
        return reading.set_goal(alloc, &[]);
    };
    let text = v.text.copy(alloc)?;
    match v.flavour {
        Flavour::Simple => reading.set_goal(alloc, text.bytes()),
        Flavour::Recursive => expanded_goal(alloc, desk, reading, place, text.bytes()),
    }
}
