// Copies of calls and of what they bring. Each error is out of memory.
ghost use Rattle.std.specs.Prelude.{◌≡◌, IfOk};

use crate::{Args, Call, Info, Name, NoMemory, PrivilegeSet};
use acct_base::Seq;
use std::alloc::Global;

/// A list of the same values.
fn copied<T: Copy>(alloc: Global, values: &Seq<T>) -> Result<Seq<T>, NoMemory>
    ensures { IfOk result (λ copy. copy ≡ values.now) }
{
    Ok(Seq::from_vec(Vec::from_slice(alloc, values.as_slice())?))
}

/// An equal name, where there is one.
fn name_copied(alloc: Global, name: &Option<Name>) -> Result<Option<Name>, NoMemory>
    ensures { IfOk result (λ copy. copy ≡ name.now) }
{
    match name {
        Some(name) => Ok(Some(name.copy(alloc)?)),
        None => Ok(None),
    }
}

/// An equal set of privileges, where there is one.
fn set_copied(alloc: Global, set: &Option<PrivilegeSet>) -> Result<Option<PrivilegeSet>, NoMemory>
    ensures { IfOk result (λ copy. copy ≡ set.now) }
{
    match set {
        Some(set) => Ok(Some(copied(alloc, set)?)),
        None => Ok(None),
    }
}

impl Info {
    /// An equal value of its own.
    pub fn copy(&self, alloc: Global) -> Result<Info, NoMemory>
        ensures { IfOk result (λ copy. copy ≡ self.now) }
    {
        Ok(match self {
            Info::Unserved => Info::Unserved,
            Info::Number(number) => Info::Number(*number),
            Info::Text(text) => Info::Text(text.copy(alloc)?),
            Info::TwoTexts(name, full) => Info::TwoTexts(name.copy(alloc)?, full.copy(alloc)?),
            Info::Group(name, bits, members, comment) => {
                Info::Group(name.copy(alloc)?, *bits, *members, comment.copy(alloc)?)
            }
            Info::Alias(name, members, comment) => {
                Info::Alias(name.copy(alloc)?, *members, comment.copy(alloc)?)
            }
            Info::User(name, full, primary, comment) => Info::User(
                name.copy(alloc)?,
                full.copy(alloc)?,
                *primary,
                comment.copy(alloc)?,
            ),
            Info::Place(name, sid) => Info::Place(name.copy(alloc)?, *sid),
        })
    }
}

impl Args {
    /// Equal arguments of their own.
    pub fn copy(&self, alloc: Global) -> Result<Args, NoMemory>
        ensures { IfOk result (λ copy. copy ≡ self.now) }
    {
        Ok(match self {
            Args::Nothing => Args::Nothing,
            Args::Access(access) => Args::Access(*access),
            Args::AccessRid { access, rid } => Args::AccessRid {
                access: *access,
                rid: *rid,
            },
            Args::AccessSid { access, sid } => Args::AccessSid {
                access: *access,
                sid: *sid,
            },
            Args::Make { name, bits, access } => Args::Make {
                name: name.copy(alloc)?,
                bits: *bits,
                access: *access,
            },
            Args::Page {
                context,
                filter,
                preferred,
            } => Args::Page {
                context: *context,
                filter: *filter,
                preferred: *preferred,
            },
            Args::Display {
                class,
                index,
                count,
                preferred,
            } => Args::Display {
                class: *class,
                index: *index,
                count: *count,
                preferred: *preferred,
            },
            Args::Class(class) => Args::Class(*class),
            Args::Put { class, value } => Args::Put {
                class: *class,
                value: value.copy(alloc)?,
            },
            Args::Rid(rid) => Args::Rid(*rid),
            Args::RidBits { rid, bits } => Args::RidBits {
                rid: *rid,
                bits: *bits,
            },
            Args::OneSid(sid) => Args::OneSid(*sid),
            Args::SidList(sids) => Args::SidList(copied(alloc, sids)?),
            Args::NameList(names) => Args::NameList(names.copy(alloc)?),
            Args::RidList(rids) => Args::RidList(copied(alloc, rids)?),
            Args::OneName(name) => Args::OneName(name_copied(alloc, name)?),
            Args::Luid { low, high } => Args::Luid {
                low: *low,
                high: *high,
            },
            Args::Bits(bits) => Args::Bits(*bits),
            Args::Privileges { all, set } => Args::Privileges {
                all: *all,
                set: set_copied(alloc, set)?,
            },
            Args::Rights { sid, all, names } => Args::Rights {
                sid: *sid,
                all: *all,
                names: names.copy(alloc)?,
            },
            Args::LookNames { level, names } => Args::LookNames {
                level: *level,
                names: names.copy(alloc)?,
            },
            Args::LookSids { level, sids } => Args::LookSids {
                level: *level,
                sids: copied(alloc, sids)?,
            },
            Args::Policy { rooted, access } => Args::Policy {
                rooted: *rooted,
                access: *access,
            },
            Args::Security { info, bytes } => Args::Security {
                info: *info,
                bytes: bytes.copy(alloc)?,
            },
        })
    }
}

impl Call {
    /// An equal call of its own.
    pub fn copy(&self, alloc: Global) -> Result<Call, NoMemory>
        ensures { IfOk result (λ copy. copy ≡ self.now) }
    {
        Ok(Call {
            face: self.face,
            opnum: self.opnum,
            handle: self.handle,
            args: self.args.copy(alloc)?,
        })
    }
}
