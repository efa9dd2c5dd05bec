//! Laws of configurations, each the contract of a function that does nothing.
ghost use Rattle.acct_config.specs.Grammar.{AddressesAreSpelled, EntriesAreSpelled};
ghost use Rattle.acct_config.specs.Laws.{FirstBrokenIsLeast, NoneBrokenIsEachKept, DescriptorsStandByKind};

use dtyp_sid::laws::read_texts_are_texts;

/// The first broken rule is broken, and each before it is kept.
pub fn first_broken_is_least()
    ensures { FirstBrokenIsLeast }
{}

/// Where no rule is the first broken one, each is kept.
pub fn none_broken_is_each_kept()
    ensures { NoneBrokenIsEachKept }
{}

/// The descriptor at a kind's place is that of the kind's table.
pub fn descriptors_stand_by_kind()
    ensures { DescriptorsStandByKind }
{}

/// Addresses are exactly the texts of their grammar.
pub fn addresses_are_spelled()
    ensures { AddressesAreSpelled }
{}

/// An entry is read exactly from its texts.
pub fn entries_are_spelled()
    ensures { EntriesAreSpelled }
{
    read_texts_are_texts();
}
