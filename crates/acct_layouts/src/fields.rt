// What a call brings after its handle: the layouts of its fields.
use crate::classes::Subject;

/// The fields of an opening of the server or of the policy, which takes no handle.
#[derive(Clone, Copy, Debug, PartialEq, Eq)]
pub enum Connect {
    Connect2,
    Connect4,
    Connect5,
    OpenPolicy2,
}

/// Fields of which each is a number, a SID or a text.
#[derive(Clone, Copy, Debug, PartialEq, Eq)]
pub enum ScalarFields {
    Nothing,
    Rid,
    Member,
    Sid,
    Name,
    OpenDomain,
    OpenAccount,
}

/// Fields that ask for several accounts.
#[derive(Clone, Copy, Debug, PartialEq, Eq)]
pub enum Search {
    Page,
    FilteredPage,
    Sids,
    Names,
    Rids,
    Display,
}

/// Fields of a new account.
#[derive(Clone, Copy, Debug, PartialEq, Eq)]
pub enum Creation {
    Account,
    User,
    TypedUser,
}

/// Fields of the policy and of its accounts.
#[derive(Clone, Copy, Debug, PartialEq, Eq)]
pub enum PolicyFields {
    /// The SID of an account, and the access that its opening asks for.
    Account,
    AddPrivileges,
    RemovePrivileges,
    SystemAccess,
    Luid,
    /// The name of a privilege or of a right, if there is one.
    Right,
    AddRights,
    RemoveRights,
}

/// What is translated.
#[derive(Clone, Copy, Debug, PartialEq, Eq)]
pub enum Translation {
    Names,
    Sids,
    /// As `Names`, with options and the client's revision.
    Names2,
    /// As `Sids`, with options and the client's revision.
    Sids2,
    /// As `Names2`, where whole SIDs are answered.
    Names3,
}

/// Fields that speak of the security descriptor of an object.
#[derive(Clone, Copy, Debug, PartialEq, Eq)]
pub enum SecurityFields {
    /// Which of its parts are asked for.
    Query,
    /// Which of its parts are set, and a descriptor that has them.
    Set,
}

/// The fields of a call after its handle.
#[derive(Clone, Copy, Debug, PartialEq, Eq)]
pub enum Fields {
    Connect(Connect),
    Scalar(ScalarFields),
    Search(Search),
    Creation(Creation),
    /// An information class that is asked for.
    Class(Subject),
    /// An information class that is set.
    Put(Subject),
    Policy(PolicyFields),
    Translation(Translation),
    Security(SecurityFields),
}
