// Tokens and security descriptors.
ghost use Rattle.std.specs.Prelude.{◌≡◌, IfOk};

use crate::Acl;
use acct_base::Seq;
use dtyp_sid::Sid;
use std::alloc::{AllocError, Global};
use std::marker::Model;

/// The SIDs that stand for whoever asks (MS-DTYP 2.5.2).
#[derive(Debug, Drop)]
pub struct Token {
    sids: Seq<Sid>,
}

impl Model for Token {
    ghost use Rattle.std.specs.Prelude.{List};
    ghost use Rattle.dtyp_sid.specs.Sids.{SidValue};

    ghost Value = { List SidValue };

    ghost view = { λ token. token.sids };
}

/// The token of the SIDs.
pub fn make_token(alloc: Global, sids: &[Sid]) -> Result<Token, AllocError>
    ensures { IfOk result (λ token. token ≡ sids.now) }
{
    Ok(Token::from_vec(sids.to_vec(alloc)?))
}

impl Token {
    /// The token of a vector's SIDs. It takes no memory.
    pub fn from_vec(sids: Vec<Sid>) -> Self
        ensures { result ≡ sids.items }
    {
        Token {
            sids: Seq::from_vec(sids),
        }
    }

    /// The SIDs in order.
    pub fn sids(&self) -> &[Sid]
        ensures { result.now ≡ self.now }
    {
        self.sids.as_slice()
    }

    /// An equal token.
    pub fn copy(&self, alloc: Global) -> Result<Self, AllocError>
        ensures { IfOk result (λ copy. copy ≡ self.now) }
    {
        make_token(alloc, self.sids())
    }
}

/// Who owns an object, and who may do what with it (MS-DTYP 2.4.6). Without a list everybody may do everything.
#[derive(Debug, Drop)]
pub struct Descriptor {
    pub owner: Sid,
    pub group: Option<Sid>,
    pub acl: Option<Acl>,
}

impl Descriptor {
    /// An equal descriptor.
    pub fn copy(&self, alloc: Global) -> Result<Self, AllocError>
        ensures { IfOk result (λ copy. copy ≡ self.now) }
    {
        let acl = match &self.acl {
            Some(acl) => Some(acl.copy(alloc)?),
            None => None,
        };
        Ok(Descriptor {
            owner: self.owner,
            group: self.group,
            acl,
        })
    }
}
