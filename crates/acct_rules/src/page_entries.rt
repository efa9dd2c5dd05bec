// The entries of a page that are names with numbers.
ghost use Rattle.std.specs.Prelude.{◌≡◌, [], ◌∷◌, ◌++◌, IfOk, if◌then◌else◌};
ghost use Rattle.acct_rules.specs.Pages.{preferred_room, has_room, room_behind, entry, name_cost, last_rid};

use crate::pages::PageRoom;
use acct_base::Seq;
use acct_calls::{Name, NoMemory, RidName, RidNames};
use acct_codes::limit::PAGE_ENTRY_COST;
use std::alloc::Global;

/// What an entry of that name costs of a page's room, in bytes: the name's, and some more.
pub fn name_cost(name: &Name) -> usize
    ensures { result ≡ name_cost name.now }
{
    PAGE_ENTRY_COST as usize + 2 * name.units().len()
}

/// A page of names with numbers that is filled entry by entry.
#[derive(Drop)]
pub struct NamePage {
    pub entries: RidNames,
    pub room: PageRoom,
}

impl NamePage {
    /// A page without an entry, for which a length is preferred. It takes no memory.
    pub fn new(alloc: Global, preferred: u32) -> NamePage
        ensures entries { result.entries ≡ [] }
        ensures room { result.room ≡ preferred_room preferred }
    {
        NamePage {
            entries: Seq::new(alloc),
            room: PageRoom::preferred(preferred),
        }
    }

    /// Gives one more entry, where there is room for it.
    pub fn give(&mut self, alloc: Global, rid: u32, name: &Name) -> Result<bool, NoMemory>
        ensures room { IfOk result (λ given. given ≡ has_room (name_cost name.now) self.old.room) }
        ensures behind { IfOk result (λ given. self.new.room ≡ room_behind (name_cost name.now) self.old.room) }
        ensures entries { IfOk result (λ given.
            self.new.entries ≡ self.old.entries ++ (if given then entry rid name.now ∷ [] else [])) }
    {
        if !self.room.take(name_cost(name)) {
            return Ok(false);
        }
        self.entries.push(RidName {
            rid,
            name: name.copy(alloc)?,
        })?;
        Ok(true)
    }

    /// The number of the last entry that was given, or the one before.
    pub fn last_rid(&self, before: u32) -> u32
        ensures { result ≡ last_rid before self.now.entries }
    {
        match self.entries.as_slice().last() {
            Some(entry) => entry.rid,
            None => before,
        }
    }
}
