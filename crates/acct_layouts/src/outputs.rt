// What a reply brings before its status: the layouts of its outputs.
use crate::classes::Subject;
use crate::fields::Translation;

/// Outputs of which each is a number, a handle or a SID.
#[derive(Clone, Copy, Debug, PartialEq, Eq)]
pub enum ScalarOutputs {
    Nothing,
    /// The handle that the call opens.
    Handle,
    /// The handle that the call brought, which is sent in and out.
    HandleBack,
    /// The handle that a connection opens, after what the server is.
    Connected,
    /// The handle of a new account, and its relative identifier.
    Created,
    /// The handle of a new account, the access that it was granted, and the account's relative identifier.
    Granted,
    Sid,
}

/// Outputs that are lists.
#[derive(Clone, Copy, Debug, PartialEq, Eq)]
pub enum Listed {
    Page,
    Rids,
    RidUses,
    NameUses,
    Groups,
    Members,
    Sids,
    Display,
}

/// Outputs of the policy and of its accounts.
#[derive(Clone, Copy, Debug, PartialEq, Eq)]
pub enum PolicyOutputs {
    PrivilegePage,
    SidPage,
    Privileges,
    SystemAccess,
    Luid,
    /// The name of a privilege.
    Name,
    /// The names of privileges and rights.
    Rights,
}

/// The outputs of a reply, before its status.
#[derive(Clone, Copy, Debug, PartialEq, Eq)]
pub enum Outputs {
    Scalar(ScalarOutputs),
    Listed(Listed),
    /// An information class.
    Shown(Subject),
    Policy(PolicyOutputs),
    Translation(Translation),
    /// A security descriptor.
    Security,
}
