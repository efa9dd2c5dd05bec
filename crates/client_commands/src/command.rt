// The commands of the client.
use crate::text::Text;
use acct_base::Seq;
use acct_calls::{Name, Names};
use dtyp_sid::Sid;

/// What the client is asked to do.
#[derive(Debug, Drop)]
pub enum Command {
    /// Lists the domains.
    Domains,
    /// Something in the domain with this name.
    InDomain { domain: Name, task: Task },
    /// Something at the policy.
    AtPolicy(Query),
}

/// What is done in a domain.
#[derive(Debug, Drop)]
pub enum Task {
    /// Lists its users.
    Users,
    /// Creates a user.
    CreateUser(Name),
    /// Something with accounts that are looked up by their names.
    Named(NamedTask),
}

/// What is done with accounts that are looked up by their names.
#[derive(Debug, Drop)]
pub enum NamedTask {
    /// Deletes a user.
    DeleteUser(Name),
    /// Lists the members of a group.
    Members(Name),
    /// Adds a user to a group.
    AddMember { group: Name, user: Name },
}

/// A SID as it was spelled.
#[derive(Debug, Drop)]
pub struct SidWord {
    pub word: Text,
    pub sid: Sid,
}

/// What is asked of the policy.
#[derive(Debug, Drop)]
pub enum Query {
    /// Translates names.
    Names(Names),
    /// Translates SIDs.
    Sids(Seq<SidWord>),
    /// Lists the rights of an account.
    Rights(Sid),
    /// Gives an account rights.
    Grant { sid: Sid, rights: Names },
}
