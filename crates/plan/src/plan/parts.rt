// The parts of a table that is being filled.
#![tactic(auto, unfolding(crate::specs::Holding::held))]

ghost use Rattle.std.specs.Prelude.{◌≡◌, ◌-◌, ◌<◌, length};
ghost use Rattle.plan.specs.Filling.{added, put, entered, left, logged};
ghost use Rattle.plan.specs.Holding.{held};

use super::super::table::Entry;
use super::Plan;
use typing::parts::Use;

impl Plan {
    // The place of the next entry.
    pub(super) fn next(&self) -> usize
        ensures { result ≡ length (held self.now).entries }
    {
        self.entries.len()
    }

    pub(super) fn add(&mut self, entry: Entry)
        requires { length (held self.old).entries < 1024 }
        ensures { held self.new ≡ added entry.mark entry.place (held self.old) }
    {
        self.entries.push_reserved(entry);
    }

    // Replaces the entry before this place.
    pub(super) fn put_before(&mut self, place: usize, entry: Entry)
        ensures holds { held self.new ≡ put (place - 1) entry.mark entry.place (held self.old) }
        ensures entries { length (held self.new).entries ≡ length (held self.old).entries }
    {
        if let Some(earlier) = self.entries.get_mut(place.saturating_sub(1)) {
            *earlier = entry;
        }
    }

    // A variable that is boxed or not comes into scope.
    pub(super) fn enter(&mut self, boxed: bool)
        requires { length (held self.old).scope < 1024 }
        ensures { held self.new ≡ entered boxed (held self.old) }
    {
        self.scope.push_reserved(boxed);
    }

    pub(super) fn leave(&mut self)
        ensures { held self.new ≡ left (held self.old) }
    {
        let _ = self.scope.pop();
    }

    // How many variables are in scope.
    pub(super) fn depth(&self) -> usize
        ensures { result ≡ length (held self.now).scope }
    {
        self.scope.len()
    }

    pub(super) fn log(&mut self, used: Use)
        requires { length (held self.old).uses < 1024 }
        ensures { held self.new ≡ logged used (held self.old) }
    {
        self.uses.push_reserved(used);
    }
}
