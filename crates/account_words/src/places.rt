// Where a configuration breaks a rule, in words.
use acct_config::{Place, Section, kind_name};
use std::alloc::{AllocError, Global};

// A key may have any characters, so it stands as a literal.
fn of_key(alloc: Global, section: Section, key: &str) -> Result<String, AllocError> {
    match section {
        Section::Document => format!(in alloc; " at {key:?}"),
        Section::Domain => format!(in alloc; " at {key:?} in [domain]"),
        Section::Listener(place) => {
            format!(in alloc; " at {key:?} in [[listener]] {place} (counted from 0)")
        }
        Section::Descriptors => format!(in alloc; " at {key:?} in [descriptor]"),
        Section::Descriptor(kind) => {
            let name = kind_name(kind);
            format!(in alloc; " at {key:?} in [descriptor.{name}]")
        }
        Section::Limits => format!(in alloc; " at {key:?} in [limits]"),
        Section::Hook => format!(in alloc; " at {key:?} in [hook]"),
    }
}

/// Where a rule is broken, as words to stand after its number, if it is known.
pub fn at(alloc: Global, place: Option<&Place>) -> Result<String, AllocError> {
    match place {
        Some(Place::Line(before)) => {
            let line = before.saturating_add(1);
            format!(in alloc; " at line {line}")
        }
        Some(Place::Key(section, key)) => of_key(alloc, *section, key.as_str()),
        None => Ok(String::new(alloc)),
    }
}
