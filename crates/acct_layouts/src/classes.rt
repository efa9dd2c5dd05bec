// Information classes: which value a class has, by the object that it is of.
ghost use Rattle.std.specs.Prelude.{◌≡◌};
ghost use Rattle.acct_layouts.specs.Values.{display_arm, is_password_class, set_arm, shown_arm};

use acct_codes::info_class::{
    ALIAS_ADMIN_COMMENT_INFORMATION, ALIAS_GENERAL_INFORMATION, ALIAS_NAME_INFORMATION,
    DOMAIN_DISPLAY_GROUP, DOMAIN_DISPLAY_USER, DOMAIN_LOCKOUT_INFORMATION, DOMAIN_NAME_INFORMATION,
    DOMAIN_OEM_INFORMATION, DOMAIN_PASSWORD_INFORMATION, GROUP_ADMIN_COMMENT_INFORMATION,
    GROUP_ATTRIBUTE_INFORMATION, GROUP_GENERAL_INFORMATION, GROUP_NAME_INFORMATION,
    POLICY_ACCOUNT_DOMAIN_INFORMATION, POLICY_PRIMARY_DOMAIN_INFORMATION,
    USER_ACCOUNT_NAME_INFORMATION, USER_ADMIN_COMMENT_INFORMATION, USER_ALL_INFORMATION,
    USER_CONTROL_INFORMATION, USER_FULL_NAME_INFORMATION, USER_GENERAL_INFORMATION,
    USER_INTERNAL1_INFORMATION, USER_INTERNAL4_INFORMATION, USER_INTERNAL4_NEW_INFORMATION,
    USER_INTERNAL5_INFORMATION, USER_INTERNAL5_NEW_INFORMATION, USER_NAME_INFORMATION,
    USER_PRIMARY_GROUP_INFORMATION,
};

/// The objects that have information classes.
#[derive(Clone, Copy, Debug, PartialEq, Eq)]
pub enum Subject {
    Domain,
    Group,
    Alias,
    User,
    Policy,
}

/// What the value of an information class is.
#[derive(Clone, Copy, Debug, PartialEq, Eq)]
pub enum Arm {
    Number,
    Text,
    TwoTexts,
    Group,
    Alias,
    User,
    /// The name and the SID of a domain.
    Place,
}

/// Which accounts of a domain are displayed.
#[derive(Clone, Copy, Debug, PartialEq, Eq)]
pub enum DisplayArm {
    User,
    Group,
}

/// What a class has that can be set, if it is one.
pub fn set_arm(subject: Subject, class: u16) -> Option<Arm>
    ensures { result ≡ set_arm subject class }
{
    match subject {
        Subject::Domain => match class {
            DOMAIN_OEM_INFORMATION => Some(Arm::Text),
            _ => None,
        },
        Subject::Group => match class {
            GROUP_NAME_INFORMATION | GROUP_ADMIN_COMMENT_INFORMATION => Some(Arm::Text),
            GROUP_ATTRIBUTE_INFORMATION => Some(Arm::Number),
            _ => None,
        },
        Subject::Alias => match class {
            ALIAS_NAME_INFORMATION | ALIAS_ADMIN_COMMENT_INFORMATION => Some(Arm::Text),
            _ => None,
        },
        Subject::User => match class {
            USER_ACCOUNT_NAME_INFORMATION | USER_FULL_NAME_INFORMATION => Some(Arm::Text),
            USER_ADMIN_COMMENT_INFORMATION => Some(Arm::Text),
            USER_PRIMARY_GROUP_INFORMATION | USER_CONTROL_INFORMATION => Some(Arm::Number),
            _ => None,
        },
        Subject::Policy => None,
    }
}

/// What a class has that is shown, if it is one.
pub fn shown_arm(subject: Subject, class: u16) -> Option<Arm>
    ensures { result ≡ shown_arm subject class }
{
    match (subject, class) {
        (Subject::Domain, DOMAIN_NAME_INFORMATION) => Some(Arm::Text),
        (Subject::Group, GROUP_GENERAL_INFORMATION) => Some(Arm::Group),
        (Subject::Alias, ALIAS_GENERAL_INFORMATION) => Some(Arm::Alias),
        (Subject::User, USER_GENERAL_INFORMATION) => Some(Arm::User),
        (Subject::User, USER_NAME_INFORMATION) => Some(Arm::TwoTexts),
        (Subject::Policy, POLICY_PRIMARY_DOMAIN_INFORMATION) => Some(Arm::Place),
        (Subject::Policy, POLICY_ACCOUNT_DOMAIN_INFORMATION) => Some(Arm::Place),
        _ => set_arm(subject, class),
    }
}

/// Which accounts a class displays, if it is one of those that are served.
pub fn display_arm(class: u16) -> Option<DisplayArm>
    ensures { result ≡ display_arm class }
{
    match class {
        DOMAIN_DISPLAY_USER => Some(DisplayArm::User),
        DOMAIN_DISPLAY_GROUP => Some(DisplayArm::Group),
        _ => None,
    }
}

/// Whether a class carries a password.
pub fn is_password(subject: Subject, class: u16) -> bool
    ensures { result ≡ is_password_class subject class }
{
    match subject {
        Subject::Domain => matches!(
            class,
            DOMAIN_PASSWORD_INFORMATION | DOMAIN_LOCKOUT_INFORMATION
        ),
        Subject::Group | Subject::Alias | Subject::Policy => false,
        Subject::User => matches!(
            class,
            USER_INTERNAL1_INFORMATION
                | USER_ALL_INFORMATION
                | USER_INTERNAL4_INFORMATION
                | USER_INTERNAL5_INFORMATION
                | USER_INTERNAL4_NEW_INFORMATION
                | USER_INTERNAL5_NEW_INFORMATION
        ),
    }
}
