//! The scripts of one place.

ghost use Rattle.std.specs.Prelude.{◌≡◌, ◌≤◌, length};
ghost use Rattle.std.specs.Iterator.{YieldsFirstRef, item_count};
ghost use Rattle.script_names.specs.Scripts.{due_of, is_at};
ghost use Rattle.script_names.specs.Left.{left};

use crate::place::Place;
use crate::script::{ScriptList, ScriptName};

/// Lends the scripts of a place, in byte order.
#[derive(Drop)]
pub struct DueNames<'a> {
    rest: &'a [ScriptName],
    place: Place,
}

fn is_at(script: &ScriptName, place: Place) -> bool
    ensures { result ≡ is_at place script.now }
{
    let here = script.place();
    here.stage as u8 == place.stage as u8 && here.action as u8 == place.action as u8
}

/// The scripts of the place, in byte order.
pub fn due<'a>(scripts: &'a ScriptList, place: Place) -> DueNames<'a>
    ensures names { left result ≡ due_of place scripts.now }
    ensures few { length (left result) ≤ 64 }
{
    DueNames {
        rest: scripts.as_slice(),
        place,
    }
}

impl<'a> Iterator for DueNames<'a> {
    type Item = &'a ScriptName;

    ghost next_gives = { YieldsFirstRef left };

    ghost remaining = { item_count left };

    fn next(&mut self) -> Option<&'a ScriptName> {
        let held = self.rest;
        for (k, script) in held.iter().enumerate() {
            if is_at(script, self.place) {
                self.rest = held.split_at(k + 1).1;
                return Some(script);
            }
        }
        self.rest = held.split_at(held.len()).1;
        None
    }
}
