// What a refusal brings.
ghost use Rattle.std.specs.Prelude.{◌≡◌};
ghost use Rattle.acct_layouts.specs.Refusals.{context_of, display_class_of, is_refusal, refused_lists, refused_outs};
ghost use Rattle.acct_layouts.specs.Refusals.{refused_plain, refused_policy, refused_translation};

use crate::fields::Translation;
use crate::outputs::{Listed, Outputs, PolicyOutputs, ScalarOutputs};
use acct_base::Seq;
use acct_calls::{Args, Handle, Names, Outs, ZERO_HANDLE};
use acct_codes::status::STATUS_NONE_MAPPED;
use std::alloc::Global;

/// Whether a status is a refusal: an error, but `STATUS_NONE_MAPPED`, whose reply is full.
pub fn is_refusal(status: u32) -> bool
    ensures { result ≡ is_refusal status }
{
    status >= 0xC000_0000 && status != STATUS_NONE_MAPPED
}

/// Where the enumeration begins that a call asks for.
fn context_of(args: &Args) -> u32
    ensures { result ≡ context_of args.now }
{
    match args {
        Args::Page { context, .. } => *context,
        _ => 0,
    }
}

/// The class of what a call asks to be displayed.
fn display_class_of(args: &Args) -> u16
    ensures { result ≡ display_class_of args.now }
{
    match args {
        Args::Display { class, .. } => *class,
        _ => 0,
    }
}

fn refused_plain(outputs: ScalarOutputs, handle: Handle) -> Outs
    ensures { result ≡ refused_plain outputs handle }
{
    match outputs {
        ScalarOutputs::Nothing => Outs::Nothing,
        ScalarOutputs::Handle | ScalarOutputs::Connected => Outs::Handle(ZERO_HANDLE),
        ScalarOutputs::HandleBack => Outs::Handle(handle),
        ScalarOutputs::Created | ScalarOutputs::Granted => Outs::Created {
            handle: ZERO_HANDLE,
            granted: 0,
            rid: 0,
        },
        ScalarOutputs::Sid => Outs::OneSid(None),
    }
}

fn refused_lists(alloc: Global, outputs: Listed, args: &Args) -> Outs
    ensures { result ≡ refused_lists outputs args.now }
{
    match outputs {
        Listed::Page => Outs::Page {
            context: context_of(args),
            entries: None,
        },
        Listed::Rids => Outs::RidList(Seq::new(alloc)),
        Listed::RidUses => Outs::RidUses {
            rids: Seq::new(alloc),
            uses: Seq::new(alloc),
        },
        Listed::NameUses => Outs::NameUses {
            names: Names::new(alloc),
            uses: Seq::new(alloc),
        },
        Listed::Groups | Listed::Members => Outs::Pairs(None),
        Listed::Sids => Outs::SidList(Seq::new(alloc)),
        Listed::Display => Outs::Display {
            class: display_class_of(args),
            total: 0,
            returned: 0,
            entries: Seq::new(alloc),
        },
    }
}

fn refused_policy(alloc: Global, outputs: PolicyOutputs, args: &Args) -> Outs
    ensures { result ≡ refused_policy outputs args.now }
{
    match outputs {
        PolicyOutputs::PrivilegePage => Outs::PrivilegePage {
            context: context_of(args),
            entries: Seq::new(alloc),
        },
        PolicyOutputs::SidPage => Outs::SidPage {
            context: context_of(args),
            sids: Seq::new(alloc),
        },
        PolicyOutputs::Privileges => Outs::Privileges(None),
        PolicyOutputs::SystemAccess => Outs::Bits(0),
        PolicyOutputs::Luid => Outs::Luid { low: 0, high: 0 },
        PolicyOutputs::Name => Outs::OneName(None),
        PolicyOutputs::Rights => Outs::NameList(Names::new(alloc)),
    }
}

fn refused_translation(alloc: Global, translation: Translation) -> Outs
    ensures { result ≡ refused_translation translation }
{
    match translation {
        Translation::Names | Translation::Names2 => Outs::Sids {
            domains: Seq::new(alloc),
            entries: Seq::new(alloc),
            mapped: 0,
        },
        Translation::Sids | Translation::Sids2 => Outs::Names {
            domains: Seq::new(alloc),
            entries: Seq::new(alloc),
            mapped: 0,
        },
        Translation::Names3 => Outs::SidRefs {
            domains: Seq::new(alloc),
            entries: Seq::new(alloc),
            mapped: 0,
        },
    }
}

/// The outputs of a refusal of a call that brought these arguments and this handle: zero handles, null pointers, zero
/// numbers and empty lists. A handle that is sent in and out, the context of an enumeration and the class of what is
/// displayed come back as they were given. It takes no memory.
pub fn refused_outs(alloc: Global, outputs: Outputs, args: &Args, handle: Handle) -> Outs
    ensures { result ≡ refused_outs outputs args.now handle }
{
    match outputs {
        Outputs::Scalar(plain) => refused_plain(plain, handle),
        Outputs::Listed(listed) => refused_lists(alloc, listed, args),
        Outputs::Shown(_) => Outs::Shown {
            class: 0,
            value: None,
        },
        Outputs::Policy(policy) => refused_policy(alloc, policy, args),
        Outputs::Translation(translation) => refused_translation(alloc, translation),
        Outputs::Security => Outs::Security(None),
    }
}
