// The privileges, by their LUIDs and their names.
ghost use Rattle.std.specs.Prelude.{◌≡◌, IfOk};
ghost use Rattle.lsad_rights.specs.Rights.{low_of, text_of, name_of, privileges, privilege_of, is_named};
ghost use Rattle.lsad_rights.specs.Rights.{privilege_named};

use acct_calls::{Name, NoMemory};
use acct_codes::privilege::SE_CREATE_TOKEN;
use std::alloc::Global;

/// A privilege of the table (MS-LSAD 3.1.1.2.1). Its number is the low part of its LUID, whose high part is 0.
#[derive(Clone, Copy, Debug, PartialEq, Eq)]
pub enum KnownPrivilege {
    /// To create tokens.
    CreateToken = 2,
    /// To assign a process's primary token.
    AssignPrimaryToken = 3,
    /// To lock pages in memory.
    LockMemory = 4,
    /// To raise a process's quota.
    IncreaseQuota = 5,
    /// To create accounts of workstations.
    MachineAccount = 6,
    /// To act as part of the trusted computing base.
    Tcb = 7,
    /// To manage auditing and the security log.
    Security = 8,
    /// To take ownership of objects.
    TakeOwnership = 9,
    /// To load and unload drivers.
    LoadDriver = 10,
    /// To profile the system.
    SystemProfile = 11,
    /// To set the time.
    Systemtime = 12,
    /// To profile a process.
    ProfileSingleProcess = 13,
    /// To raise a process's base priority.
    IncreaseBasePriority = 14,
    /// To create paging files.
    CreatePagefile = 15,
    /// To create permanent objects.
    CreatePermanent = 16,
    /// To back up files.
    Backup = 17,
    /// To restore files.
    Restore = 18,
    /// To shut the system down.
    Shutdown = 19,
    /// To debug processes.
    Debug = 20,
    /// To write entries of the audit log.
    Audit = 21,
    /// To change the firmware's environment.
    SystemEnvironment = 22,
    /// To pass directories without a right to them, and be told of changes.
    ChangeNotify = 23,
    /// To shut the system down from afar.
    RemoteShutdown = 24,
    /// To undock a computer.
    Undock = 25,
    /// To synchronize directory data.
    SyncAgent = 26,
    /// To mark accounts as trusted for delegation.
    EnableDelegation = 27,
    /// To manage volumes.
    ManageVolume = 28,
    /// To impersonate clients.
    Impersonate = 29,
    /// To create global objects.
    CreateGlobal = 30,
}

impl KnownPrivilege {
    /// The privileges by ascending LUID.
    #[tactic(auto, unfolding(crate::specs::Rights::privileges))]
    pub fn all() -> &'static [KnownPrivilege]
        ensures { result.now ≡ privileges }
    {
        &[
            KnownPrivilege::CreateToken,
            KnownPrivilege::AssignPrimaryToken,
            KnownPrivilege::LockMemory,
            KnownPrivilege::IncreaseQuota,
            KnownPrivilege::MachineAccount,
            KnownPrivilege::Tcb,
            KnownPrivilege::Security,
            KnownPrivilege::TakeOwnership,
            KnownPrivilege::LoadDriver,
            KnownPrivilege::SystemProfile,
            KnownPrivilege::Systemtime,
            KnownPrivilege::ProfileSingleProcess,
            KnownPrivilege::IncreaseBasePriority,
            KnownPrivilege::CreatePagefile,
            KnownPrivilege::CreatePermanent,
            KnownPrivilege::Backup,
            KnownPrivilege::Restore,
            KnownPrivilege::Shutdown,
            KnownPrivilege::Debug,
            KnownPrivilege::Audit,
            KnownPrivilege::SystemEnvironment,
            KnownPrivilege::ChangeNotify,
            KnownPrivilege::RemoteShutdown,
            KnownPrivilege::Undock,
            KnownPrivilege::SyncAgent,
            KnownPrivilege::EnableDelegation,
            KnownPrivilege::ManageVolume,
            KnownPrivilege::Impersonate,
            KnownPrivilege::CreateGlobal,
        ]
    }

    /// The low part of its LUID.
    #[tactic(auto, unfolding(crate::specs::Rights::privilege_row))]
    pub fn low(self) -> u32
        ensures { result ≡ low_of self }
    {
        self as u32
    }

    /// Its name as a text.
    #[tactic(auto, unfolding(crate::specs::Rights::privilege_row))]
    pub fn text(self) -> &'static str
        ensures { result.now ≡ text_of self }
    {
        match self {
            KnownPrivilege::CreateToken => "SeCreateTokenPrivilege",
            KnownPrivilege::AssignPrimaryToken => "SeAssignPrimaryTokenPrivilege",
            KnownPrivilege::LockMemory => "SeLockMemoryPrivilege",
            KnownPrivilege::IncreaseQuota => "SeIncreaseQuotaPrivilege",
            KnownPrivilege::MachineAccount => "SeMachineAccountPrivilege",
            KnownPrivilege::Tcb => "SeTcbPrivilege",
            KnownPrivilege::Security => "SeSecurityPrivilege",
            KnownPrivilege::TakeOwnership => "SeTakeOwnershipPrivilege",
            KnownPrivilege::LoadDriver => "SeLoadDriverPrivilege",
            KnownPrivilege::SystemProfile => "SeSystemProfilePrivilege",
            KnownPrivilege::Systemtime => "SeSystemtimePrivilege",
            KnownPrivilege::ProfileSingleProcess => "SeProfileSingleProcessPrivilege",
            KnownPrivilege::IncreaseBasePriority => "SeIncreaseBasePriorityPrivilege",
            KnownPrivilege::CreatePagefile => "SeCreatePagefilePrivilege",
            KnownPrivilege::CreatePermanent => "SeCreatePermanentPrivilege",
            KnownPrivilege::Backup => "SeBackupPrivilege",
            KnownPrivilege::Restore => "SeRestorePrivilege",
            KnownPrivilege::Shutdown => "SeShutdownPrivilege",
            KnownPrivilege::Debug => "SeDebugPrivilege",
            KnownPrivilege::Audit => "SeAuditPrivilege",
            KnownPrivilege::SystemEnvironment => "SeSystemEnvironmentPrivilege",
            KnownPrivilege::ChangeNotify => "SeChangeNotifyPrivilege",
            KnownPrivilege::RemoteShutdown => "SeRemoteShutdownPrivilege",
            KnownPrivilege::Undock => "SeUndockPrivilege",
            KnownPrivilege::SyncAgent => "SeSyncAgentPrivilege",
            KnownPrivilege::EnableDelegation => "SeEnableDelegationPrivilege",
            KnownPrivilege::ManageVolume => "SeManageVolumePrivilege",
            KnownPrivilege::Impersonate => "SeImpersonatePrivilege",
            KnownPrivilege::CreateGlobal => "SeCreateGlobalPrivilege",
        }
    }

    /// Its name.
    pub fn name(self, alloc: Global) -> Result<Name, NoMemory>
        ensures { IfOk result (λ name. name ≡ name_of self) }
    {
        Name::from_text(alloc, self.text())
    }

    /// The privilege whose LUID has this low part.
    pub fn of_low(low: u32) -> Option<KnownPrivilege>
        ensures { result ≡ privilege_of low }
    {
        let place = low.checked_sub(SE_CREATE_TOKEN)?;
        KnownPrivilege::all().get(place as usize).copied()
    }

    // Names are compared as those of accounts are.
    fn is_named(self, alloc: Global, name: &Name) -> Result<bool, NoMemory>
        ensures { IfOk result (λ is. is ≡ is_named name.now self) }
    {
        Ok(name.same(&self.name(alloc)?))
    }

    /// The privilege that has the name.
    pub fn named(alloc: Global, name: &Name) -> Result<Option<KnownPrivilege>, NoMemory>
        ensures { IfOk result (λ privilege. privilege ≡ privilege_named name.now) }
    {
        for privilege in KnownPrivilege::all() {
            if privilege.is_named(alloc, name)? {
                return Ok(Some(*privilege));
            }
        }
        Ok(None)
    }
}
