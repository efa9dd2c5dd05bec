//! Privileges, each by the low part of its LUID; the high part is 0 (MS-LSAD 3.1.1.2.1).
ghost use Rattle.std.specs.Prelude.{◌≡◌};
ghost use Rattle.acct_codes.specs.Privileges.{se_create_token, se_assign_primary_token, se_lock_memory};
ghost use Rattle.acct_codes.specs.Privileges.{se_increase_quota, se_machine_account, se_tcb, se_security};
ghost use Rattle.acct_codes.specs.Privileges.{se_take_ownership, se_load_driver, se_system_profile, se_systemtime};
ghost use Rattle.acct_codes.specs.Privileges.{se_prof_single_process, se_inc_base_priority, se_create_pagefile};
ghost use Rattle.acct_codes.specs.Privileges.{se_create_permanent, se_backup, se_restore, se_shutdown, se_debug};
ghost use Rattle.acct_codes.specs.Privileges.{se_audit, se_system_environment, se_change_notify, se_remote_shutdown};
ghost use Rattle.acct_codes.specs.Privileges.{se_undock, se_sync_agent, se_enable_delegation, se_manage_volume};
ghost use Rattle.acct_codes.specs.Privileges.{se_impersonate, se_create_global};

/// To create tokens; the least LUID.
pub const SE_CREATE_TOKEN: u32 = 2;
/// To assign a process's primary token.
pub const SE_ASSIGN_PRIMARY_TOKEN: u32 = 3;
/// To lock pages in memory.
pub const SE_LOCK_MEMORY: u32 = 4;
/// To raise a process's quota.
pub const SE_INCREASE_QUOTA: u32 = 5;
/// To create accounts of workstations.
pub const SE_MACHINE_ACCOUNT: u32 = 6;
/// To act as part of the trusted computing base.
pub const SE_TCB: u32 = 7;
/// To manage auditing and the security log.
pub const SE_SECURITY: u32 = 8;
/// To take ownership of objects.
pub const SE_TAKE_OWNERSHIP: u32 = 9;
/// To load and unload drivers.
pub const SE_LOAD_DRIVER: u32 = 10;
/// To profile the system.
pub const SE_SYSTEM_PROFILE: u32 = 11;
/// To set the time.
pub const SE_SYSTEMTIME: u32 = 12;
/// To profile a process.
pub const SE_PROF_SINGLE_PROCESS: u32 = 13;
/// To raise a process's base priority.
pub const SE_INC_BASE_PRIORITY: u32 = 14;
/// To create paging files.
pub const SE_CREATE_PAGEFILE: u32 = 15;
/// To create permanent objects.
pub const SE_CREATE_PERMANENT: u32 = 16;
/// To back up files.
pub const SE_BACKUP: u32 = 17;
/// To restore files.
pub const SE_RESTORE: u32 = 18;
/// To shut the system down.
pub const SE_SHUTDOWN: u32 = 19;
/// To debug processes.
pub const SE_DEBUG: u32 = 20;
/// To write entries of the audit log.
pub const SE_AUDIT: u32 = 21;
/// To change the firmware's environment.
pub const SE_SYSTEM_ENVIRONMENT: u32 = 22;
/// To pass directories without a right to them, and be told of changes.
pub const SE_CHANGE_NOTIFY: u32 = 23;
/// To shut the system down from afar.
pub const SE_REMOTE_SHUTDOWN: u32 = 24;
/// To undock a computer.
pub const SE_UNDOCK: u32 = 25;
/// To synchronize directory data.
pub const SE_SYNC_AGENT: u32 = 26;
/// To mark accounts as trusted for delegation.
pub const SE_ENABLE_DELEGATION: u32 = 27;
/// To manage volumes.
pub const SE_MANAGE_VOLUME: u32 = 28;
/// To impersonate clients.
pub const SE_IMPERSONATE: u32 = 29;
/// To create global objects; the greatest LUID, and all between the two are privileges.
pub const SE_CREATE_GLOBAL: u32 = 30;

/// Each privilege has the LUID of the standard (MS-LSAD 3.1.1.2.1).
pub fn privileges_are_the_standards()
    ensures se_create_token { SE_CREATE_TOKEN ≡ se_create_token }
    ensures se_assign_primary_token { SE_ASSIGN_PRIMARY_TOKEN ≡ se_assign_primary_token }
    ensures se_lock_memory { SE_LOCK_MEMORY ≡ se_lock_memory }
    ensures se_increase_quota { SE_INCREASE_QUOTA ≡ se_increase_quota }
    ensures se_machine_account { SE_MACHINE_ACCOUNT ≡ se_machine_account }
    ensures se_tcb { SE_TCB ≡ se_tcb }
    ensures se_security { SE_SECURITY ≡ se_security }
    ensures se_take_ownership { SE_TAKE_OWNERSHIP ≡ se_take_ownership }
    ensures se_load_driver { SE_LOAD_DRIVER ≡ se_load_driver }
    ensures se_system_profile { SE_SYSTEM_PROFILE ≡ se_system_profile }
    ensures se_systemtime { SE_SYSTEMTIME ≡ se_systemtime }
    ensures se_prof_single_process { SE_PROF_SINGLE_PROCESS ≡ se_prof_single_process }
    ensures se_inc_base_priority { SE_INC_BASE_PRIORITY ≡ se_inc_base_priority }
    ensures se_create_pagefile { SE_CREATE_PAGEFILE ≡ se_create_pagefile }
    ensures se_create_permanent { SE_CREATE_PERMANENT ≡ se_create_permanent }
    ensures se_backup { SE_BACKUP ≡ se_backup }
    ensures se_restore { SE_RESTORE ≡ se_restore }
    ensures se_shutdown { SE_SHUTDOWN ≡ se_shutdown }
    ensures se_debug { SE_DEBUG ≡ se_debug }
    ensures se_audit { SE_AUDIT ≡ se_audit }
    ensures se_system_environment { SE_SYSTEM_ENVIRONMENT ≡ se_system_environment }
    ensures se_change_notify { SE_CHANGE_NOTIFY ≡ se_change_notify }
    ensures se_remote_shutdown { SE_REMOTE_SHUTDOWN ≡ se_remote_shutdown }
    ensures se_undock { SE_UNDOCK ≡ se_undock }
    ensures se_sync_agent { SE_SYNC_AGENT ≡ se_sync_agent }
    ensures se_enable_delegation { SE_ENABLE_DELEGATION ≡ se_enable_delegation }
    ensures se_manage_volume { SE_MANAGE_VOLUME ≡ se_manage_volume }
    ensures se_impersonate { SE_IMPERSONATE ≡ se_impersonate }
    ensures se_create_global { SE_CREATE_GLOBAL ≡ se_create_global }
{}
