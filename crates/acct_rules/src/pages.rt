// Pages of an enumeration.
ghost use Rattle.std.specs.Prelude.{◌≡◌};
ghost use Rattle.acct_rules.specs.Pages.{page_status};

use acct_codes::limit::MOST_PAGE;
use acct_codes::status::{STATUS_MORE_ENTRIES, STATUS_SUCCESS};

/// The room of a page that is filled entry by entry: whether it has no entry yet, and what its further entries may
/// cost.
#[derive(Clone, Copy, Debug, PartialEq, Eq)]
pub struct PageRoom {
    pub is_empty: bool,
    pub left: usize,
}

impl PageRoom {
    ghost use Rattle.acct_rules.specs.Pages.{preferred_room, has_room, room_behind};

    /// The room of a page that has no entry, by the length that is preferred for it.
    pub fn preferred(length: u32) -> PageRoom
        ensures { result ≡ preferred_room length }
    {
        PageRoom {
            is_empty: true,
            left: length.min(MOST_PAGE) as usize,
        }
    }

    /// Takes the room of an entry, if there is so much. The first entry has room, whatever it costs.
    pub fn take(&mut self, cost: usize) -> bool
        ensures has_room { result ≡ has_room cost self.old }
        ensures behind { self.new ≡ room_behind cost self.old }
    {
        let has_room = self.is_empty || cost <= self.left;
        if has_room {
            self.is_empty = false;
            self.left = self.left.saturating_sub(cost);
        }
        has_room
    }
}

/// The status of a page, by whether entries are left after it.
pub fn page_status(more: bool) -> u32
    ensures { result ≡ page_status more }
{
    if more {
        STATUS_MORE_ENTRIES
    } else {
        STATUS_SUCCESS
    }
}
