// Equality, order and hash of SIDs, which are those of their values.
ghost use Rattle.std.proofs.Common.{rules};
ghost use Rattle.std.specs.Cmp.{partial_order_from_own_ties};
ghost use Rattle.std.specs.Cmp.Rules.{comparing, hashing};
ghost use Rattle.dtyp_sid.specs.Sids.{sid_eq, sid_cmp, sid_partial_cmp, sid_hashed};

use crate::Sid;
use std::cmp::Ordering;
use std::hash::{Hash, Hasher};

impl PartialEq for Sid {
    ghost eq = { sid_eq };

    ghost laws = { Prim.search (comparing, rules) };

    fn eq(&self, other: &Sid) -> bool {
        self.authority() == other.authority() && self.subs() == other.subs()
    }
}

impl Eq for Sid {
    ghost laws = { Prim.search (comparing, rules) };
}

impl Ord for Sid {
    ghost cmp = { sid_cmp };

    ghost total = { Prim.search (comparing, rules) };

    ghost matches_partial_cmp = { Prim.search (comparing, rules) };

    ghost matches_eq = { Prim.search (comparing, rules) };

    fn cmp(&self, other: &Sid) -> Ordering {
        self.authority()
            .cmp(&other.authority())
            .then(self.subs().cmp(other.subs()))
    }
}

impl PartialOrd for Sid {
    ghost partial_cmp = { sid_partial_cmp };

    ghost laws = { partial_order_from_own_ties (Prim.search (comparing, rules)) (Prim.search (comparing, rules)) };

    fn partial_cmp(&self, other: &Sid) -> Option<Ordering> {
        Some(self.cmp(other))
    }
}

impl Hash for Sid {
    ghost hash_input = { sid_hashed };

    ghost respects_eq = { Prim.search (hashing, rules) };

    fn hash<H: Hasher>(&self, state: &mut H) {
        self.authority().hash(state);
        self.subs().hash(state);
    }
}
