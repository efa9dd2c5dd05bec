// The rights to log on, by their bits of system access and their names.
ghost use Rattle.std.specs.Prelude.{◌≡◌, IfOk};
ghost use Rattle.lsad_rights.specs.Rights.{bit_of, right_text, right_name, logon_rights, has_right, is_right_named};
ghost use Rattle.lsad_rights.specs.Rights.{logon_right_named};

use acct_calls::{Name, NoMemory};
use acct_codes::system_access::{
    POLICY_MODE_BATCH, POLICY_MODE_DENY_BATCH, POLICY_MODE_DENY_INTERACTIVE,
    POLICY_MODE_DENY_NETWORK, POLICY_MODE_DENY_REMOTE_INTERACTIVE, POLICY_MODE_DENY_SERVICE,
    POLICY_MODE_INTERACTIVE, POLICY_MODE_NETWORK, POLICY_MODE_REMOTE_INTERACTIVE,
    POLICY_MODE_SERVICE,
};
use std::alloc::Global;

/// A right to log on, or a denial of one (MS-LSAD 3.1.1.2.2): a bit of an account's system access.
#[derive(Clone, Copy, Debug, PartialEq, Eq)]
pub enum LogonRight {
    /// To log on interactively.
    Interactive,
    /// To log on from the network.
    Network,
    /// To log on as a batch job.
    Batch,
    /// To log on as a service.
    Service,
    /// Not to log on interactively.
    DenyInteractive,
    /// Not to log on from the network.
    DenyNetwork,
    /// Not to log on as a batch job.
    DenyBatch,
    /// Not to log on as a service.
    DenyService,
    /// To log on interactively from afar.
    RemoteInteractive,
    /// Not to log on interactively from afar.
    DenyRemoteInteractive,
}

impl LogonRight {
    /// The rights by ascending bit.
    #[tactic(auto, unfolding(crate::specs::Rights::logon_rights))]
    pub fn all() -> &'static [LogonRight]
        ensures { result.now ≡ logon_rights }
    {
        &[
            LogonRight::Interactive,
            LogonRight::Network,
            LogonRight::Batch,
            LogonRight::Service,
            LogonRight::DenyInteractive,
            LogonRight::DenyNetwork,
            LogonRight::DenyBatch,
            LogonRight::DenyService,
            LogonRight::RemoteInteractive,
            LogonRight::DenyRemoteInteractive,
        ]
    }

    /// Its bit of system access.
    #[tactic(auto, unfolding(crate::specs::Rights::right_row))]
    pub fn bit(self) -> u32
        ensures { result ≡ bit_of self }
    {
        match self {
            LogonRight::Interactive => POLICY_MODE_INTERACTIVE,
            LogonRight::Network => POLICY_MODE_NETWORK,
            LogonRight::Batch => POLICY_MODE_BATCH,
            LogonRight::Service => POLICY_MODE_SERVICE,
            LogonRight::DenyInteractive => POLICY_MODE_DENY_INTERACTIVE,
            LogonRight::DenyNetwork => POLICY_MODE_DENY_NETWORK,
            LogonRight::DenyBatch => POLICY_MODE_DENY_BATCH,
            LogonRight::DenyService => POLICY_MODE_DENY_SERVICE,
            LogonRight::RemoteInteractive => POLICY_MODE_REMOTE_INTERACTIVE,
            LogonRight::DenyRemoteInteractive => POLICY_MODE_DENY_REMOTE_INTERACTIVE,
        }
    }

    /// Its name as a text.
    #[tactic(auto, unfolding(crate::specs::Rights::right_row))]
    pub fn text(self) -> &'static str
        ensures { result.now ≡ right_text self }
    {
        match self {
            LogonRight::Interactive => "SeInteractiveLogonRight",
            LogonRight::Network => "SeNetworkLogonRight",
            LogonRight::Batch => "SeBatchLogonRight",
            LogonRight::Service => "SeServiceLogonRight",
            LogonRight::DenyInteractive => "SeDenyInteractiveLogonRight",
            LogonRight::DenyNetwork => "SeDenyNetworkLogonRight",
            LogonRight::DenyBatch => "SeDenyBatchLogonRight",
            LogonRight::DenyService => "SeDenyServiceLogonRight",
            LogonRight::RemoteInteractive => "SeRemoteInteractiveLogonRight",
            LogonRight::DenyRemoteInteractive => "SeDenyRemoteInteractiveLogonRight",
        }
    }

    /// Its name.
    pub fn name(self, alloc: Global) -> Result<Name, NoMemory>
        ensures { IfOk result (λ name. name ≡ right_name self) }
    {
        Name::from_text(alloc, self.text())
    }

    /// Whether a system access has it.
    pub fn is_in(self, access: u32) -> bool
        ensures { result ≡ has_right access self }
    {
        access & self.bit() != 0
    }

    // Names are compared as those of accounts are.
    fn is_named(self, alloc: Global, name: &Name) -> Result<bool, NoMemory>
        ensures { IfOk result (λ is. is ≡ is_right_named name.now self) }
    {
        Ok(name.same(&self.name(alloc)?))
    }

    /// The right that has the name.
    pub fn named(alloc: Global, name: &Name) -> Result<Option<LogonRight>, NoMemory>
        ensures { IfOk result (λ right. right ≡ logon_right_named name.now) }
    {
        for right in LogonRight::all() {
            if right.is_named(alloc, name)? {
                return Ok(Some(*right));
            }
        }
        Ok(None)
    }
}
