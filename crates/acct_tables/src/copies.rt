// Copies of rows that hold heap memory.
ghost use Rattle.std.specs.Prelude.{◌≡◌, IfOk};

use crate::row::{AccountRow, DescRow, DomainRow, LsaRow, OutRow, Privileges};
use acct_base::Seq;
use acct_calls::NoMemory;
use std::alloc::Global;

impl DomainRow {
    /// An equal row of its own.
    pub fn copy(&self, alloc: Global) -> Result<DomainRow, NoMemory>
        ensures { IfOk result (λ copy. copy ≡ self.now) }
    {
        Ok(DomainRow {
            number: self.number,
            sid: self.sid,
            name: self.name.copy(alloc)?,
            oem: self.oem.copy(alloc)?,
            next_rid: self.next_rid,
        })
    }
}

impl AccountRow {
    /// An equal row of its own.
    pub fn copy(&self, alloc: Global) -> Result<AccountRow, NoMemory>
        ensures { IfOk result (λ copy. copy ≡ self.now) }
    {
        Ok(AccountRow {
            domain: self.domain,
            rid: self.rid,
            kind: self.kind,
            name: self.name.copy(alloc)?,
            full_name: self.full_name.copy(alloc)?,
            comment: self.comment.copy(alloc)?,
            bits: self.bits,
            primary: self.primary,
        })
    }
}

impl LsaRow {
    /// An equal row of its own.
    pub fn copy(&self, alloc: Global) -> Result<LsaRow, NoMemory>
        ensures { IfOk result (λ copy. copy ≡ self.now) }
    {
        Ok(LsaRow {
            sid: self.sid,
            access: self.access,
            privileges: copy_privileges(alloc, &self.privileges)?,
        })
    }
}

impl DescRow {
    /// An equal row of its own.
    pub fn copy(&self, alloc: Global) -> Result<DescRow, NoMemory>
        ensures { IfOk result (λ copy. copy ≡ self.now) }
    {
        Ok(DescRow {
            object: self.object,
            descriptor: self.descriptor.copy(alloc)?,
        })
    }
}

impl OutRow {
    /// An equal row of its own.
    pub fn copy(&self, alloc: Global) -> Result<OutRow, NoMemory>
        ensures { IfOk result (λ copy. copy ≡ self.now) }
    {
        Ok(OutRow {
            number: self.number,
            action: self.action,
            domain: self.domain,
            rid: self.rid,
            kind: self.kind,
            name: self.name.copy(alloc)?,
        })
    }
}

fn copy_privileges(alloc: Global, privileges: &Privileges) -> Result<Privileges, NoMemory>
    ensures { IfOk result (λ copy. copy ≡ privileges.now) }
{
    Ok(Seq::from_vec(privileges.as_slice().to_vec(alloc)?))
}

/// A row that is copied with what it holds.
pub trait Copied: Drop {
    /// An equal row of its own.
    fn copied(&self, alloc: Global) -> Result<Self, NoMemory>
        ensures { IfOk result (λ copy. copy ≡ self.now) };
}

impl Copied for DomainRow {
    fn copied(&self, alloc: Global) -> Result<DomainRow, NoMemory> {
        self.copy(alloc)
    }
}

impl Copied for AccountRow {
    fn copied(&self, alloc: Global) -> Result<AccountRow, NoMemory> {
        self.copy(alloc)
    }
}

impl Copied for LsaRow {
    fn copied(&self, alloc: Global) -> Result<LsaRow, NoMemory> {
        self.copy(alloc)
    }
}

impl Copied for DescRow {
    fn copied(&self, alloc: Global) -> Result<DescRow, NoMemory> {
        self.copy(alloc)
    }
}

impl Copied for OutRow {
    fn copied(&self, alloc: Global) -> Result<OutRow, NoMemory> {
        self.copy(alloc)
    }
}

/// Equal rows in a list of their own.
pub fn copies_of<T: Copied>(alloc: Global, rows: &[T]) -> Result<Vec<T>, NoMemory>
    ensures { IfOk result (λ copies. copies.items ≡ rows.now) }
{
    let mut copies = Vec::with_capacity(alloc, rows.len())?;
    for row in rows {
        copies.push(row.copied(alloc)?)?;
    }
    Ok(copies)
}
