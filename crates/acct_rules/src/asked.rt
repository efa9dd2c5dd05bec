// What the arguments of a call ask for.
ghost use Rattle.std.specs.Prelude.{◌≡◌, IfOk};
ghost use Rattle.std.specs.Option.{option_copied};
ghost use Rattle.acct_rules.specs.Asked.{class_of, desired_access, has_asked_account, asked_sid, asked_rid, asked_name};
ghost use Rattle.acct_rules.specs.Asked.{asked_names, asked_rids, asked_context, asked_length, asked_filter};
ghost use Rattle.acct_rules.specs.Asked.{asked_index, asked_count, made_name, made_type, put_text, put_number};
ghost use Rattle.acct_rules.specs.Asked.{units_in, or_empty, named_info, set_bytes};

use acct_calls::{Args, Info, Name, NoMemory};
use acct_rows::Rows;
use dtyp_sid::Sid;
use std::alloc::Global;

/// The information class that is asked for, or set.
pub fn class_of(args: &Args) -> u16
    ensures { result ≡ class_of args.now }
{
    match args {
        Args::Class(class) => *class,
        Args::Put { class, .. } => *class,
        Args::Display { class, .. } => *class,
        _ => 0,
    }
}

/// The access that an opening asks for.
pub fn desired_access(args: &Args) -> u32
    ensures { result ≡ desired_access args.now }
{
    match args {
        Args::Access(access) => *access,
        Args::AccessRid { access, .. } => *access,
        Args::AccessSid { access, .. } => *access,
        Args::Make { access, .. } => *access,
        Args::Policy { access, .. } => *access,
        _ => 0,
    }
}

/// Whether the policy has an account of the SID whose rights are asked for.
pub fn has_asked_account(rows: &Rows, args: &Args) -> bool
    ensures { result ≡ has_asked_account rows.now.lists args.now }
{
    match args {
        Args::Rights { sid, .. } => rows.lsa_account(sid).is_some(),
        _ => false,
    }
}

/// The SID that is looked for or opened.
pub fn asked_sid(args: &Args) -> Option<Sid>
    ensures { result ≡ asked_sid args.now }
{
    match args {
        Args::AccessSid { sid, .. } => Some(*sid),
        Args::OneSid(sid) => Some(*sid),
        _ => None,
    }
}

/// The relative identifier that is looked for or opened; 0 where none is.
pub fn asked_rid(args: &Args) -> u32
    ensures { result ≡ asked_rid args.now }
{
    match args {
        Args::AccessRid { rid, .. } => *rid,
        Args::Rid(rid) => *rid,
        _ => 0,
    }
}

/// The name that is looked for.
pub fn asked_name(args: &Args) -> Option<&Name>
    ensures { option_copied result ≡ asked_name args.now }
{
    match args {
        Args::OneName(Some(name)) => Some(name),
        _ => None,
    }
}

/// The names that are looked for.
pub fn asked_names(args: &Args) -> &[Name]
    ensures { result.now ≡ asked_names args.now }
{
    match args {
        Args::NameList(names) => names.as_slice(),
        _ => &[],
    }
}

/// The relative identifiers that are looked for.
pub fn asked_rids(args: &Args) -> &[u32]
    ensures { result.now ≡ asked_rids args.now }
{
    match args {
        Args::RidList(rids) => rids.as_slice(),
        _ => &[],
    }
}

/// Where an enumeration begins.
pub fn asked_context(args: &Args) -> u32
    ensures { result ≡ asked_context args.now }
{
    match args {
        Args::Page { context, .. } => *context,
        _ => 0,
    }
}

/// The length that is preferred for a page of it, or of what is displayed.
pub fn asked_length(args: &Args) -> u32
    ensures { result ≡ asked_length args.now }
{
    match args {
        Args::Page { preferred, .. } => *preferred,
        Args::Display { preferred, .. } => *preferred,
        _ => 0,
    }
}

/// The control bits of which an entry of it needs one; 0 where it needs none.
pub fn asked_filter(args: &Args) -> u32
    ensures { result ≡ asked_filter args.now }
{
    match args {
        Args::Page { filter, .. } => *filter,
        _ => 0,
    }
}

/// How many entries of what is displayed are passed over.
pub fn asked_index(args: &Args) -> u32
    ensures { result ≡ asked_index args.now }
{
    match args {
        Args::Display { index, .. } => *index,
        _ => 0,
    }
}

/// How many entries are asked for at most.
pub fn asked_count(args: &Args) -> u32
    ensures { result ≡ asked_count args.now }
{
    match args {
        Args::Display { count, .. } => *count,
        _ => 0,
    }
}

/// Which parts of a security descriptor are asked for, or set (SECURITY_INFORMATION, MS-DTYP 2.4.7).
pub fn named_info(args: &Args) -> u32
    ensures { result ≡ named_info args.now }
{
    match args {
        Args::Bits(info) => *info,
        Args::Security { info, .. } => *info,
        _ => 0,
    }
}

/// The bytes of the parts of a security descriptor that are set.
pub fn set_bytes(args: &Args) -> &[u8]
    ensures { result.now ≡ set_bytes args.now }
{
    match args {
        Args::Security { bytes, .. } => bytes.as_slice(),
        _ => &[],
    }
}

/// The name of the new account.
pub fn made_name(args: &Args) -> Option<&Name>
    ensures { option_copied result ≡ made_name args.now }
{
    match args {
        Args::Make { name, .. } => Some(name),
        _ => None,
    }
}

/// The control bits that the new account begins with; 0 where there are none.
pub fn made_type(args: &Args) -> u32
    ensures { result ≡ made_type args.now }
{
    match args {
        Args::Make { bits, .. } => *bits,
        _ => 0,
    }
}

/// The text that is set.
pub fn put_text(args: &Args) -> Option<&Name>
    ensures { option_copied result ≡ put_text args.now }
{
    match args {
        Args::Put {
            value: Info::Text(text),
            ..
        } => Some(text),
        _ => None,
    }
}

/// The number that is set; 0 where none is.
pub fn put_number(args: &Args) -> u32
    ensures { result ≡ put_number args.now }
{
    match args {
        Args::Put {
            value: Info::Number(number),
            ..
        } => *number,
        _ => 0,
    }
}

/// How many units a name or a text has; 0 where there is none.
pub fn units_in(text: Option<&Name>) -> usize
    ensures { result ≡ units_in (option_copied text.entry) }
{
    match text {
        Some(text) => text.units().len(),
        None => 0,
    }
}

/// A copy of a name or a text; the empty one where there is none.
pub fn text_or_empty(alloc: Global, text: Option<&Name>) -> Result<Name, NoMemory>
    ensures { IfOk result (λ copy. copy ≡ or_empty (option_copied text.entry)) }
{
    match text {
        Some(text) => text.copy(alloc),
        None => Ok(Name::from_units(Vec::new(alloc))),
    }
}
