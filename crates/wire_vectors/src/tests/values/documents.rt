// Documents and the rule that each breaks, and what the documents that break none spell.
use super::lines::{cut, tells};
use acct_codes::Kind;
use acct_config::{Config, ConfigError, Hook, Limits, Listener, Text, laws, read_config};
use dtyp_access::{Ace, AceKind, Acl, Descriptor, Token, make_token, opening};
use dtyp_sid::{Sid, parse_text};
use std::alloc::Global;
use std::process::Abort;
use std::test::Fail;

pub const PLAIN: &str = r#"[domain]
name = "CORP"
sid = "S-1-5-21-1-2-3"
[[listener]]
name = "a"
address = "tcp:127.0.0.1:4045"
token = ["S-1-5-21-1-2-3-500", "S-1-1-0", "S-1-5-32-544"]
"#;

/// In each line a rule, a part of the plain document, and what stands in its place in a document of which that rule is
/// the first that is broken. Those with a dash break none. A semicolon stands for a line end.
pub const RULES: &str = r#"0|[domain]|[domain
0|[domain]|[domain];name = "X"
0|[[listener]]|[domain];[[listener]]
0|"CORP"|CORP
0|name = "a"|name = "a" workers = 1
0|name = "a"|name = "a";name = "a"
0|name = "a"|name = "a";links = 9223372036854775808
0|"S-1-1-0",|"S-1-1-0"
1|sid = "S-1-5-21-1-2-3";|
1|name = "CORP";|
1|[[listener]]|[listener]
1|address = "tcp:127.0.0.1:4045";|
1|name = "a";|
1|token|tokens
1|"CORP"|1
1|"S-1-5-21-1-2-3"|["S-1-5-21-1-2-3"]
1|"S-1-1-0"|1
1|["S-1-5-21-1-2-3-500", "S-1-1-0", "S-1-5-32-544"]|"S-1-1-0"
1|[domain]|port = 1;[domain]
1|[domain]|[limit];[domain]
1|[domain]|hook = "x";[domain]
1|[domain]|[[hook]];program = "x";[domain]
1|[domain]|[hook];program = 1;[domain]
1|[domain]|[hook];program = "x";tries = "3";[domain]
1|[domain]|[hook];program = "x";try = 3;[domain]
1|[domain]|[hooks];program = "x";[domain]
1|[domain]|limits = 65536;[domain]
1|[domain]|[[limits]];[domain]
1|[domain]|[limits];max_call = 1;[domain]
1|[domain]|[limits];max_calls = "65536";[domain]
1|[domain]|[limits];max_bytes = 1.0;[domain]
1|[domain]|[limits];max_conns = true;[domain]
1|[domain]|[limits];max_read = [1];[domain]
1|[domain]|[limits];max_periods = 2026-11-27;[domain]
1|[domain]|max_calls = 65536;[domain]
1|name = "CORP"|name = "CORP";max_calls = 65536
1|name = "CORP"|name = "CORP";oem = ""
1|name = "a"|name = "a";workers = "1"
1|name = "a"|name = "a";workers = 1.0
1|name = "a"|name = "a";links = true
1|name = "a"|name = "a";links = 2026-11-27
1|[[listener]]|[descriptor];server = 1;[[listener]]
1|[[listener]]|[descriptor.user];owner = 1;[[listener]]
1|[[listener]]|[[descriptor.user]];owner = "S-1-1-0";[[listener]]
1|[[listener]]|[descriptor.user];owner = "S-1-1-0";aces = "";[[listener]]
1|[[listener]]|[descriptor.server];aces = [];[[listener]]
1|[[listener]]|[descriptor.users];owner = "S-1-1-0";[[listener]]
1|[[listener]]|[descriptor.user];owner = "S-1-1-0";group = "S-1-1-0";[[listener]]
1|[[listener]]|[descriptor.user];owner = "S-1-1-0";aces = [0];[[listener]]
2|CORP|
2|CORP|ABCDEFGHIJKLMNOP
2|CORP|ABCDEFGHIJKLMN𐐀
2|CORP|BUILTIN
2|CORP|builtIn
2|CORP|nt Authority
2|CORP|CO/RP
2|CORP|. .
3|"S-1-5-21-1-2-3"|"S-1-5-32"
3|"S-1-5-21-1-2-3"|"S-1-0x000000000005-32"
3|"S-1-5-21-1-2-3"|"S-1-5"
3|"S-1-5-21-1-2-3"|"S-1-5-1-2-3-4-5-6-7-8-9-10-11-12-13-14-15"
3|"S-1-5-21-1-2-3"|"S-1-5-021"
3|"S-1-5-21-1-2-3"|""
4|name = "a"|name = ""
4|name = "a"|name = "A"
4|name = "a"|name = "a-b"
4|name = "a"|name = "abcdefghijklmnopqrstuvwxyz0123456"
4|[[listener]]|[[listener]];name = "a";address = "unix:s";token = ["S-1-1-0"];[[listener]]
5|4045|0
5|4045|65536
5|4045|04045
5|4045|+4045
5|4045|
5|:4045|
5|127.0.0.1|
5|127.0.0.1|::1
5|tcp:127.0.0.1:4045|unix:
5|tcp:|udp:
6|"S-1-1-0"|"S-1-1-"
6|"S-1-1-0"|""
6|"S-1-1-0"|"Everyone"
6|"S-1-5-21-1-2-3-500", "S-1-1-0", "S-1-5-32-544"|
7|name = "a"|name = "a";workers = 0
7|name = "a"|name = "a";workers = 65
7|name = "a"|name = "a";workers = -1
7|name = "a"|name = "a";links = -1
7|name = "a"|name = "a";links = 4294967296
8|[[listener]]|[descriptor.server];owner = "";[[listener]]
8|[[listener]]|[descriptor.account];owner = "S-1-5-18 ";[[listener]]
9|[[listener]]|[descriptor.user];owner = "S-1-5-18";aces = [""];[[listener]]
9|[[listener]]|[descriptor.user];owner = "S-1-5-18";aces = ["grant 0x00000010 0 S-1-1-0"];[[listener]]
9|[[listener]]|[descriptor.user];owner = "S-1-5-18";aces = ["allow 0x0000010 0 S-1-1-0"];[[listener]]
9|[[listener]]|[descriptor.user];owner = "S-1-5-18";aces = ["allow 0x0000001g 0 S-1-1-0"];[[listener]]
9|[[listener]]|[descriptor.user];owner = "S-1-5-18";aces = ["allow 0x00000010 256 S-1-1-0"];[[listener]]
9|[[listener]]|[descriptor.user];owner = "S-1-5-18";aces = ["allow 0x00000010 08 S-1-1-0"];[[listener]]
9|[[listener]]|[descriptor.user];owner = "S-1-5-18";aces = ["allow 0x00000010  0 S-1-1-0"];[[listener]]
9|[[listener]]|[descriptor.user];owner = "S-1-5-18";aces = ["allow 0 0x00000010 S-1-1-0"];[[listener]]
9|[[listener]]|[descriptor.user];owner = "S-1-5-18";aces = ["allow 0X00000010 0 S-1-1-0"];[[listener]]
9|[[listener]]|[descriptor.user];owner = "S-1-5-18";aces = ["Allow 0x00000010 0 S-1-1-0"];[[listener]]
9|[[listener]]|[descriptor.user];owner = "S-1-5-18";aces = ["allow 0x00000010 0 S-1-1-0 "];[[listener]]
9|[[listener]]|[descriptor.user];owner = "S-1-5-18";aces = ["allow 0x00000010 0"];[[listener]]
10|[domain]|[limits];max_calls = 0;[domain]
10|[domain]|[limits];max_calls = -1;[domain]
10|[domain]|[limits];max_calls = 1000001;[domain]
10|[domain]|[limits];max_calls = 4294967297;[domain]
10|[domain]|[limits];max_bytes = 0;[domain]
10|[domain]|[limits];max_bytes = 1073741825;[domain]
10|[domain]|[limits];max_conns = 0;[domain]
10|[domain]|[limits];max_conns = 65537;[domain]
10|[domain]|[limits];max_read = 0;[domain]
10|[domain]|[limits];max_read = 1099511627777;[domain]
10|[domain]|[limits];max_read = 9223372036854775807;[domain]
10|[domain]|[limits];max_periods = 0;[domain]
10|[domain]|[limits];max_periods = 1000001;[domain]
10|[domain]|[limits];max_calls = 1;max_periods = -9223372036854775808;[domain]
11|[domain]|[hook];[domain]
11|[domain]|[hook];tries = 3;[domain]
11|[domain]|[hook];program = "";[domain]
11|[domain]|[hook];program = "x";tries = 0;[domain]
11|[domain]|[hook];program = "x";tries = 101;[domain]
11|[domain]|[hook];program = "x";tries = -3;[domain]
11|[domain]|[hook];program = "x";tries = 4294967299;[domain]
-|[domain]|# a comment;[domain]
-|[domain]|[hook];program = "x";[domain]
-|[domain]|[hook];program = "/bin/add-user";tries = 1;[domain]
-|[domain]|[hook];program = "Ä 𐐀";tries = 100;[domain]
-|[domain];name = "CORP";sid = "S-1-5-21-1-2-3"|domain = { name = "CORP", sid = "S-1-5-21-1-2-3" }
-|[domain];name = "CORP";sid|domain.name = "\u0043ORP";domain.sid
-|CORP|ABCDEFGHIJKLMNO
-|CORP|Ä. b
-|"S-1-5-21-1-2-3"|"S-1-5-1-2-3-4-5-6-7-8-9-10-11-12-13-14"
-|"S-1-5-21-1-2-3"|"S-1-5-33"
-|"S-1-5-21-1-2-3"|"S-1-6-32"
-|"S-1-5-21-1-2-3"|"S-1-0x00000000000A-32"
-|name = "a"|name = "abcdefghijklmnopqrstuvwxyz012345"
-|4045|1
-|4045|65535
-|tcp:127.0.0.1:4045|unix:s
-|name = "a"|name = "a";workers = 64;links = 4294967295
-|name = "a"|name = "a";workers = 1;links = 0
-|name = "a";|workers = 0x10;name = 'a';
-|[[listener]]|[descriptor];[[listener]]
-|[[listener]]|[descriptor.alias];owner = "S-1-1-0";aces = [];[[listener]]
-|[[listener]]|[descriptor.user];owner = "S-1-1-0";aces = ["deny 0xFFFFffff 255 S-1-1-0"];[[listener]]"#;

/// Documents with many of the same. In each line a rule or a dash, a part of the plain document, and what stands in its
/// place: a beginning, so many times a text, in which `@` stands for the number, and an end.
const MANY: &str =
    r#"-|[[listener]]||15|[[listener]];name = "n@";address = "unix:s";token = ["S-1-1-0"];|[[listener]]
4|[[listener]]||16|[[listener]];name = "n@";address = "unix:s";token = ["S-1-1-0"];|[[listener]]
4|[[listener]]||3|[[listener]];name = "b";address = "unix:s";token = ["S-1-1-0"];|[[listener]]
-|"S-1-1-0",||62|"S-1-1-0",|
6|"S-1-1-0",||63|"S-1-1-0",|
-|[[listener]]|[descriptor.user];owner = "S-1-1-0";aces = [|800|"allow 0x00000010 0 S-1-1-0",|];[[listener]]
9|[[listener]]|[descriptor.user];owner = "S-1-1-0";aces = [|801|"allow 0x00000010 0 S-1-1-0",|];[[listener]]
-|[domain]||16384|# One of 16,384 lines of 64 bytes, which make a mebibyte of text.;|[domain]"#;

/// Two bars cut a text into a beginning, a middle and an end.
fn cut_in_three(line: &str) -> (&str, &str, &str) {
    let (front, others) = cut(line, '|');
    let (middle, back) = cut(others, '|');
    (front, middle, back)
}

/// A document with another text in the place of a part, where this first stands.
fn replaced(alloc: Global, document: &str, part: &str, text: &str) -> Result<String, Fail> {
    if document.contains(part) {
        Ok(document.replacen(alloc, part, text, 1)?)
    } else {
        Err(Fail::from("no such part"))
    }
}

/// A document changed as a line says, which has a part and what stands in its place.
pub fn changed(alloc: Global, document: &str, line: &str) -> Result<String, Fail> {
    let lines = line.replace(alloc, ";", "\n")?;
    let (part, text) = cut(lines.as_str(), '|');
    replaced(alloc, document, part, text)
}

fn debug_text(alloc: Global, config: &Config) -> Result<String, Fail> {
    Ok(format!(in alloc; "{config:?}")?)
}

/// Whether a configuration's copy is the same in all its fields.
fn is_copied(alloc: Global, config: &Config) -> Result<bool, Fail> {
    let copy = config.copy(alloc)?;
    let told = debug_text(alloc, &copy);
    drop(copy);
    Ok(told?.as_str() == debug_text(alloc, config)?.as_str())
}

/// The rule that a document breaks first, none where it breaks none and its configuration can be copied.
fn broken_in(alloc: Global, bytes: &[u8]) -> Result<Option<u32>, Fail> {
    match read_config(alloc, bytes) {
        Ok(config) => {
            let copied = is_copied(alloc, &config);
            drop(config);
            if copied? {
                Ok(None)
            } else {
                Err(Fail::from("another copy"))
            }
        }
        Err(ConfigError::Rule(broken)) => Ok(Some(broken)),
        Err(ConfigError::Memory) => Err(Fail::from("memory")),
    }
}

/// Whether a document breaks a rule first, or none where a dash stands for it.
fn breaks(alloc: Global, bytes: &[u8], rule: &str) -> Result<bool, Fail> {
    match broken_in(alloc, bytes)? {
        None => Ok(rule == "-"),
        broken => Ok(rule.parse::<u32>().ok() == broken),
    }
}

/// Whether the document of a line of [`RULES`] breaks what the line says.
fn is_ruled(alloc: Global, line: &str) -> Result<bool, Fail> {
    let (rule, change) = cut(line, '|');
    let document = changed(alloc, PLAIN, change)?;
    breaks(alloc, document.as_bytes(), rule)
}

#[test]
fn each_document_breaks_its_rule_first(rt: HostRuntime) -> Result<(), Fail> {
    for line in RULES.lines() {
        assert!(rt; is_ruled(rt.alloc(), line)?, "{line}");
    }
    Ok(())
}

/// So many times a text, with the number in the place of `@`.
fn numbered(alloc: Global, count: u32, text: &str) -> Result<String, Fail> {
    let mut all = String::new(alloc);
    for number in 0..count {
        match text.split_once('@') {
            Some((before, behind)) => write!(all, "{before}{number}{behind}")?,
            None => all.push_str(text)?,
        }
    }
    Ok(all)
}

/// The plain document with the beginning, the texts and the end of a line of [`MANY`] in the place of a part.
fn filled(alloc: Global, line: &str) -> Result<String, Fail> {
    let (part, front, others) = cut_in_three(line);
    let (count, text, back) = cut_in_three(others);
    let count = count.parse::<u32>().ok().ok_or("no number")?;
    let texts = numbered(alloc, count, text)?;
    let change = format!(in alloc; "{part}|{front}{}{back}", texts.as_str())?;
    changed(alloc, PLAIN, change.as_str())
}

/// Whether the document of a line of [`MANY`] breaks what the line says.
fn filled_is_ruled(alloc: Global, line: &str) -> Result<bool, Fail> {
    let (rule, others) = cut(line, '|');
    let document = filled(alloc, others)?;
    breaks(alloc, document.as_bytes(), rule)
}

#[test]
fn documents_with_many_of_the_same(rt: HostRuntime) -> Result<(), Fail> {
    for line in MANY.lines() {
        assert!(rt; filled_is_ruled(rt.alloc(), line)?, "{line}");
    }
    Ok(())
}

/// A document whose last listener is the plain one, and in which a later rule is broken by what stands before it.
const LAST_BROKEN: &str = r#"[[listener]]|[hook]
program = ""
[limits]
max_periods = 1
[descriptor.user]
owner = "S-1-1-0"
aces = []
[descriptor.alias]
owner = "S-1-1-1"
[[listener]]
name = "b"
address = "unix:s"
token = ["S-1-1-0"]
[[listener]]"#;

/// One change after the other, each of which breaks an earlier rule than those before it.
const EARLIER: &str = r#"11|CORP|CORP
10|max_periods = 1|max_periods = 0
9|aces = []|aces = [""]
8|S-1-1-1|
7|name = "b"|name = "b";links = -1
6|"S-1-5-21-1-2-3-500"|"S-1"
5|4045|0
4|name = "a"|name = ""
3|sid = "S-1-5-21-1-2-3"|sid = ""
2|CORP|
1|max_periods|max_period
0|[domain]|[domain"#;

/// Changes a document as a line says, and tells whether it breaks the rule of the line then.
fn becomes_ruled(alloc: Global, document: &mut String, line: &str) -> Result<bool, Fail> {
    let (rule, change) = cut(line, '|');
    *document = changed(alloc, document.as_str(), change)?;
    breaks(alloc, document.as_bytes(), rule)
}

fn becomes_ruled_by_each(
    rt: &impl Abort,
    alloc: Global,
    document: &mut String,
) -> Result<(), Fail> {
    for line in EARLIER.lines() {
        assert!(rt; becomes_ruled(alloc, document, line)?, "{line}");
    }
    Ok(())
}

/// Each rule is asked of all listeners and tables before the next one.
#[test]
fn the_first_of_several_rules_counts(rt: HostRuntime) -> Result<(), Fail> {
    let mut document = changed(rt.alloc(), PLAIN, LAST_BROKEN)?;
    becomes_ruled_by_each(&rt, rt.alloc(), &mut document)
}

const NO_LISTENER: &[u8] = b"listener = []\n[domain]\nname = \"CORP\"\nsid = \"S-1-5-21\"";

const RETURNS: &[u8] =
    b"[domain]\r\nname = \"CORP\"\r\nsid = \"S-1-5-21-1-2-3\"\r\n[[listener]]\r\nname = \"a\"\r\n\
    address = \"tcp:127.0.0.1:4045\"\r\ntoken = [\"S-1-1-0\"]";

const RETURNS_ALONE: &[u8] = b"[domain]\rname = \"CORP\"\rsid = \"S-1-5-21-1-2-3\"\r";

#[test]
fn whole_texts_and_bytes_that_are_none(rt: HostRuntime) -> Result<(), Fail> {
    for (bytes, rule) in [
        (b"# \xFF\n".as_slice(), "0"),
        (b"\xC0\x80", "0"),
        (b"# \xED\xA0\x80\n", "0"),
        (b"", "1"),
        (b"\xEF\xBB\xBF# no more", "1"),
        (NO_LISTENER, "4"),
        (RETURNS, "-"),
        (RETURNS_ALONE, "0"),
    ] {
        assert!(rt; breaks(rt.alloc(), bytes, rule)?);
    }
    Ok(())
}

/// The configuration of a document.
fn config_of(alloc: Global, text: &str) -> Result<Config, Fail> {
    match read_config(alloc, text.as_bytes()) {
        Ok(config) => Ok(config),
        Err(ConfigError::Rule(_)) => Err(Fail::from("a rule is broken")),
        Err(ConfigError::Memory) => Err(Fail::from("memory")),
    }
}

fn push_number(text: &mut String, number: u64) -> Result<(), Fail> {
    Ok(write!(text, " {number}")?)
}

fn push_sid(text: &mut String, alloc: Global, sid: &Sid) -> Result<(), Fail> {
    Ok(text.push_str(sid.text(alloc)?.as_str())?)
}

/// Each unit of a name and the SID of the domain.
fn push_domain(text: &mut String, alloc: Global, config: &Config) -> Result<(), Fail> {
    for unit in config.name.units() {
        write!(text, "{unit:x} ")?;
    }
    push_sid(text, alloc, &config.sid)
}

fn push_sids(text: &mut String, alloc: Global, sids: &[Sid]) -> Result<(), Fail> {
    for sid in sids {
        text.push(' ')?;
        push_sid(text, alloc, sid)?;
    }
    Ok(())
}

/// Name, address, workers, links and the SIDs of the token.
fn push_listener(text: &mut String, alloc: Global, listener: &Listener) -> Result<(), Fail> {
    text.push('(')?;
    text.push_str(listener.name.as_str())?;
    text.push(' ')?;
    text.push_str(listener.address.as_str())?;
    push_number(text, u64::from(listener.workers))?;
    push_number(text, listener.links)?;
    push_sids(text, alloc, listener.token.sids())?;
    Ok(text.push(')')?)
}

fn push_listeners(text: &mut String, alloc: Global, listeners: &[Listener]) -> Result<(), Fail> {
    for listener in listeners {
        push_listener(text, alloc, listener)?;
    }
    Ok(())
}

fn push_ace(text: &mut String, alloc: Global, ace: &Ace) -> Result<(), Fail> {
    text.push_str(match ace.kind {
        AceKind::Allow => ", allow",
        AceKind::Deny => ", deny",
    })?;
    push_number(text, u64::from(ace.flags))?;
    write!(text, " {:x} ", ace.mask)?;
    push_sid(text, alloc, &ace.sid)
}

fn push_aces(text: &mut String, alloc: Global, aces: &[Ace]) -> Result<(), Fail> {
    for ace in aces {
        push_ace(text, alloc, ace)?;
    }
    Ok(())
}

/// The entries, or that there is no list.
fn push_acl(text: &mut String, alloc: Global, acl: &Option<Acl>) -> Result<(), Fail> {
    match acl {
        None => Ok(text.push_str(" open")?),
        Some(acl) => push_aces(text, alloc, acl.aces()),
    }
}

/// The owner, whether there is a group, and the entries.
fn push_descriptor(text: &mut String, alloc: Global, descriptor: &Descriptor) -> Result<(), Fail> {
    push_sid(text, alloc, &descriptor.owner)?;
    if descriptor.group.is_some() {
        text.push_str(" group")?;
    }
    push_acl(text, alloc, &descriptor.acl)
}

fn push_descriptors(text: &mut String, alloc: Global, list: &[Descriptor]) -> Result<(), Fail> {
    for descriptor in list {
        text.push('(')?;
        push_descriptor(text, alloc, descriptor)?;
        text.push(')')?;
    }
    Ok(())
}

/// Each limit.
fn push_limits(text: &mut String, limits: &Limits) -> Result<(), Fail> {
    write!(text, "{}", limits.max_calls)?;
    push_number(text, limits.max_bytes)?;
    push_number(text, u64::from(limits.max_conns))?;
    push_number(text, limits.max_read)?;
    push_number(text, u64::from(limits.max_periods))
}

/// The program that is told of changes, and how often it is tried; a dash where there is none.
fn push_hook(text: &mut String, hook: &Option<Hook>) -> Result<(), Fail> {
    match hook {
        None => Ok(text.push('-')?),
        Some(hook) => Ok(write!(text, "{} {}", hook.program.as_str(), hook.tries)?),
    }
}

/// One part of a configuration as text.
fn push_part(text: &mut String, alloc: Global, config: &Config, part: &str) -> Result<(), Fail> {
    match part {
        "domain" => push_domain(text, alloc, config),
        "listeners" => push_listeners(text, alloc, config.listeners.as_slice()),
        "descriptors" => push_descriptors(text, alloc, config.descriptors.as_slice()),
        "hook" => push_hook(text, &config.hook),
        _ => push_limits(text, &config.limits),
    }
}

/// Whether a configuration shows what a line says, which has a part and its text.
fn shows(alloc: Global, config: &Config, line: &str) -> Result<bool, Fail> {
    let (part, wanted) = cut(line, '|');
    let mut text = String::new(alloc);
    push_part(&mut text, alloc, config, part)?;
    Ok(text.as_str() == wanted)
}

fn copy_shows(alloc: Global, config: &Config, line: &str) -> Result<bool, Fail> {
    let copy = config.copy(alloc)?;
    shows(alloc, &copy, line)
}

fn both_show(alloc: Global, config: &Config, line: &str) -> Result<bool, Fail> {
    Ok(shows(alloc, config, line)? && copy_shows(alloc, config, line)?)
}

/// Whether a document's configuration and its copy show what a line says.
fn says(alloc: Global, document: &str, line: &str) -> Result<bool, Fail> {
    let config = config_of(alloc, document)?;
    both_show(alloc, &config, line)
}

const PLAIN_SAYS: &str = r#"domain|43 4f 52 50 S-1-5-21-1-2-3
listeners|(a tcp:127.0.0.1:4045 1 0 S-1-5-21-1-2-3-500 S-1-1-0 S-1-5-32-544)
descriptors|~~~~~~~
limits|65536 67108864 1024 4294967296 1
hook|-"#;

/// A configuration with all that may stand in one.
const WHOLE: &str = r#"# The account domain: its name and SID.
[domain]
name = "CORP"
sid = "S-1-5-21-1-2-3"

# Where clients connect. The token stands for whoever connects here.
[[listener]]
name = "a"
address = "tcp:127.0.0.1:4045"
token = ["S-1-5-21-1-2-3-500", "S-1-1-0", "S-1-5-32-544"]
workers = 4                  # served side by side; 1 where it is absent
links = 0                    # connections that each worker takes; 0 is without end

[[listener]]
name = "local"
address = "unix:/run/accounts"
token = ["S-1-1-0"]

# Who may open the server object: not the users, but everybody else.
[descriptor.server]
owner = "S-1-5-18"
aces = ["deny 0x00000010 0 S-1-5-32-545", "allow 0x000F003F 0 S-1-1-0"]
"#;

const WHOLE_SAYS: &str = r#"domain|43 4f 52 50 S-1-5-21-1-2-3
listeners|(a tcp:127.0.0.1:4045 4 0 S-1-5-21-1-2-3-500 S-1-1-0 S-1-5-32-544)(local unix:/run/accounts 1 0 S-1-1-0)
descriptors|(S-1-5-18, deny 0 10 S-1-5-32-545, allow 0 f003f S-1-1-0)~~~~~~"#;

/// A listener with all its fields, a name beyond ASCII, and the tables of two descriptors, of which that of the server
/// denies before it allows.
const OTHER: &str = r#"[domain]
name = "Ä𐐀"
sid = "S-1-5-21-1-2-3"
[[listener]]
name = "b2"
address = "unix:s"
token = ["S-1-1-0"]
workers = 64
links = 4294967295
[descriptor.server]
owner = "S-1-5-18"
aces = ["deny 0x00000010 0 S-1-5-32-545", "allow 0x000F003F 0 S-1-1-0"]
[descriptor.account]
owner = "S-1-1-0"
aces = ["allow 0xfedcBA98 7 S-1-5-32-544"]
"#;

const OTHER_SAYS: &str = r#"domain|c4 d801 dc00 S-1-5-21-1-2-3
listeners|(b2 unix:s 64 4294967295 S-1-1-0)
descriptors|(S-1-5-18, deny 0 10 S-1-5-32-545, allow 0 f003f S-1-1-0)~~~~~(S-1-1-0, allow 7 fedcba98 S-1-5-32-544)"#;

fn each_is_said(rt: &impl Abort, alloc: Global, document: &str, lines: &str) -> Result<(), Fail> {
    for line in lines.lines() {
        assert!(rt; says(alloc, document, line)?, "{line}");
    }
    Ok(())
}

/// Asserts that a document says what each line tells. A tilde stands for the descriptor of the administrators without
/// a list.
fn all_are_said(rt: &impl Abort, alloc: Global, document: &str, lines: &str) -> Result<(), Fail> {
    let open = lines.replace(alloc, "~", "(S-1-5-32-544 open)")?;
    each_is_said(rt, alloc, document, open.as_str())
}

#[test]
fn configurations_say_these_values(rt: HostRuntime) -> Result<(), Fail> {
    all_are_said(&rt, rt.alloc(), PLAIN, PLAIN_SAYS)?;
    all_are_said(&rt, rt.alloc(), WHOLE, WHOLE_SAYS)?;
    all_are_said(&rt, rt.alloc(), OTHER, OTHER_SAYS)
}

/// In each line what stands before the plain document, and the part with the limits that it then says.
const LIMITS: &str = "\
[limits]|limits|65536 67108864 1024 4294967296 1
[limits];max_calls = 4|limits|4 67108864 1024 4294967296 1
[limits];max_bytes = 5|limits|65536 5 1024 4294967296 1
[limits];max_conns = 6|limits|65536 67108864 6 4294967296 1
[limits];max_read = 7|limits|65536 67108864 1024 7 1
[limits];max_periods = 8|limits|65536 67108864 1024 4294967296 8
limits.max_conns = 0x10;limits.max_calls = 2_000|limits|2000 67108864 16 4294967296 1
limits = { max_periods = 5, max_read = 4, max_conns = 3, max_bytes = 2, max_calls = 1 }|limits|1 2 3 4 5
[limits];max_calls = 1;max_bytes = 1;max_conns = 1;max_read = 1;max_periods = 1|limits|1 1 1 1 1
[limits];max_calls = 1000000;max_bytes = 1073741824|limits|1000000 1073741824 1024 4294967296 1
[limits];max_conns = 65536;max_read = 1099511627776;max_periods = 1000000|limits|\
65536 67108864 65536 1099511627776 1000000";

/// In each line what stands before the plain document, and the part with the program that it then says.
const HOOKS: &str = r#"[hook];program = "/bin/add-user"|hook|/bin/add-user 3
[hook];program = "/bin/add-user";tries = 1|hook|/bin/add-user 1
hook = { program = "x", tries = 0x64 }|hook|x 100"#;

fn push_plain(text: &mut String) -> Result<(), Fail> {
    text.push('\n')?;
    Ok(text.push_str(PLAIN)?)
}

/// The plain document after other lines.
fn behind_lines(alloc: Global, lines: &str) -> Result<String, Fail> {
    let mut document = lines.replace(alloc, ";", "\n")?;
    push_plain(&mut document)?;
    Ok(document)
}

/// Whether a document says what a line of [`LIMITS`] or of [`HOOKS`] tells.
fn part_is_said(alloc: Global, line: &str) -> Result<bool, Fail> {
    let (front, part) = cut(line, '|');
    let document = behind_lines(alloc, front)?;
    says(alloc, document.as_str(), part)
}

#[test]
fn limits_are_those_of_the_document(rt: HostRuntime) -> Result<(), Fail> {
    for line in LIMITS.lines() {
        assert!(rt; part_is_said(rt.alloc(), line)?, "{line}");
    }
    Ok(())
}

#[test]
fn hooks_are_those_of_the_document(rt: HostRuntime) -> Result<(), Fail> {
    for line in HOOKS.lines() {
        assert!(rt; part_is_said(rt.alloc(), line)?, "{line}");
    }
    Ok(())
}

fn descriptor_shows(alloc: Global, descriptor: &Descriptor, wanted: &str) -> Result<bool, Fail> {
    let mut text = String::new(alloc);
    push_descriptor(&mut text, alloc, descriptor)?;
    Ok(text.as_str() == wanted)
}

/// Whether the descriptor of a kind shows this, in a configuration that breaks no rule.
fn kind_shows(alloc: Global, document: &str, kind: Kind, wanted: &str) -> Result<bool, Fail> {
    match read_config(alloc, document.as_bytes()) {
        Ok(config) => descriptor_shows(alloc, config.descriptor(kind), wanted),
        Err(_) => Err(Fail::from("no configuration")),
    }
}

#[test]
fn descriptors_stand_by_their_kinds(rt: HostRuntime) -> Result<(), Fail> {
    for (kind, text) in [
        (
            Kind::Server,
            "S-1-5-18, deny 0 10 S-1-5-32-545, allow 0 f003f S-1-1-0",
        ),
        (Kind::Policy, "S-1-5-32-544 open"),
        (Kind::Account, "S-1-1-0, allow 7 fedcba98 S-1-5-32-544"),
    ] {
        assert!(rt; kind_shows(rt.alloc(), OTHER, kind, text)?, "{kind:?}");
    }
    Ok(())
}

fn sid_of(text: &str) -> Result<Sid, Fail> {
    match parse_text(text) {
        Ok(sid) => Ok(sid),
        Err(_) => Err(Fail::from("no SID")),
    }
}

/// What a token is granted at the server of a document.
fn granted_to(
    alloc: Global,
    token: &Token,
    document: &str,
    asked: u32,
) -> Result<Option<u32>, Fail> {
    match read_config(alloc, document.as_bytes()) {
        Ok(config) => {
            let server = config.descriptor(Kind::Server);
            Ok(opening(Kind::Server, server, token, asked))
        }
        Err(_) => Err(Fail::from("no configuration")),
    }
}

/// What a user is granted at the server of a document.
fn granted(alloc: Global, document: &str, asked: u32) -> Result<Option<u32>, Fail> {
    let token = make_token(alloc, &[sid_of("S-1-1-0")?, sid_of("S-1-5-32-545")?])?;
    granted_to(alloc, &token, document, asked)
}

/// The access check over the configured descriptor of the server: MS-DTYP 2.5.3 decides by the first entry that speaks
/// of a right.
#[test]
fn deny_before_allow(rt: HostRuntime) -> Result<(), Fail> {
    for (asked, wanted) in [
        (0x10, None),
        (0x20, Some(0x20)),
        (0x0200_0000, Some(0x000F_002F)),
    ] {
        assert!(rt; granted(rt.alloc(), OTHER, asked)? == wanted);
    }
    Ok(())
}

#[test]
fn refusals_tell_in_words(rt: HostRuntime) -> Result<(), Fail> {
    let broken = "the configuration breaks rule 4";
    assert!(rt; tells(rt.alloc(), &ConfigError::Rule(4), broken)?);
    Ok(())
}

#[test]
fn laws_and_texts(rt: HostRuntime) -> Result<(), Fail> {
    laws::first_broken_is_least();
    laws::none_broken_is_each_kept();
    laws::descriptors_stand_by_kind();
    laws::addresses_are_spelled();
    laws::entries_are_spelled();
    let text = Text::copy_of(rt.alloc(), "unix:s")?;
    assert!(rt; text.as_str() == "unix:s");
    Ok(())
}
