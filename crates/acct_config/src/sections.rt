// The tables of a document, and their keys.
ghost use Rattle.std.specs.Prelude.{◌≡◌, option_map};
ghost use Rattle.acct_config.specs.Faults.{of_section};

use acct_codes::Kind;

/// A table of a document.
#[derive(Clone, Copy, Debug, PartialEq, Eq)]
pub enum Section {
    /// The document itself.
    Document,
    /// The account domain.
    Domain,
    /// A listener, by its place in the list of listeners from 0.
    Listener(usize),
    /// The table of the descriptor tables.
    Descriptors,
    /// The descriptor table of a kind.
    Descriptor(Kind),
    /// The limits.
    Limits,
    /// The program that is told of changes.
    Hook,
}

/// The key that was found, as one of a table.
pub fn of_section<'a>(section: Section, key: Option<&'a str>) -> Option<(Section, &'a str)>
    ensures { option_map (λ fault. (fault.0, fault.1.now)) result
        ≡ of_section section (option_map (λ key. key.now) key.entry) }
{
    Some((section, key?))
}
