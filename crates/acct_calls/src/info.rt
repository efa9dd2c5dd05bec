// What an object shows, or is set to, by information classes.
use crate::Name;
use dtyp_sid::Sid;

/// The value of an information class. Which of these a class has depends on the kind of the object.
#[derive(Debug, Drop, PartialEq, Eq)]
pub enum Info {
    /// The value of a class that can't be set, which isn't looked at.
    Unserved,
    Number(u32),
    Text(Name),
    TwoTexts(Name, Name),
    /// A group: its name, its attributes, the number of its members, its comment.
    Group(Name, u32, u32, Name),
    /// An alias: its name, the number of its members, its comment.
    Alias(Name, u32, Name),
    /// A user: its name, its full name, its primary group, its comment.
    User(Name, Name, u32, Name),
    /// A domain: its name and its SID.
    Place(Name, Sid),
}
