// Configurations, by their names.
use super::lines::joined;
use std::alloc::Global;
use std::test::Fail;

const CONFIG: &str =
    "[domain]\nname = \"CORP\"\nsid = \"S-1-5-21-1-2-3\"\n[[listener]]\nname = \"a\"\naddress = \
    \"tcp:127.0.0.1:4045\"\ntoken = [\"S-1-5-21-1-2-3-500\", \"S-1-1-0\", \"S-1-5-32-544\"]\n";

/// A second listener, whose clients are users, and the beginning of a descriptor of the server.
const SECOND: &str = "[[listener]]\nname = \"b\"\naddress = \"unix:b\"\ntoken = [\"S-1-1-0\", \
    \"S-1-5-32-545\"]\n[descriptor.server]\nowner = \"S-1-5-18\"\naces = [\"";

const DENY: &str = "deny 0x00000010 0 S-1-5-32-545";

const ALLOW: &str = "allow 0x000F003F 0 S-1-1-0";

/// A program that is told of changes of accounts.
const HOOK: &str = "[hook]\nprogram = \"/bin/add-user\"\ntries = 3\n";

/// The same, tried twice.
const TWICE: &str = "[hook]\nprogram = \"/bin/add-user\"\ntries = 2\n";

/// The configuration with a second listener, and a descriptor of the server with two entries.
fn restricted(alloc: Global, first: &str, second: &str) -> Result<String, Fail> {
    joined(alloc, &[CONFIG, SECOND, first, "\", \"", second, "\"]\n"])
}

/// The configuration with another text in the place of a part, as `PART>TEXT` says.
fn changed(alloc: Global, change: &str) -> Result<String, Fail> {
    let (part, text) = change.split_once('>').unwrap_or(("", ""));
    let (before, behind) = CONFIG.split_once(part).unwrap_or((CONFIG, ""));
    joined(alloc, &[before, text, behind])
}

/// The configuration with a limit.
fn limited(alloc: Global, limit: &str) -> Result<String, Fail> {
    joined(alloc, &[CONFIG, "[limits]\n", limit, "\n"])
}

/// The configuration with these lines after it, as `LINE;LINE` says.
pub fn config_with(alloc: Global, lines: &str) -> Result<String, Fail> {
    let mut text = joined(alloc, &[CONFIG])?;
    for line in lines.split(';') {
        text.push_str(line)?;
        text.push('\n')?;
    }
    Ok(text)
}

/// The configuration of a name.
pub fn config_of(alloc: Global, name: &str) -> Result<String, Fail> {
    match name {
        "" => joined(alloc, &[CONFIG]),
        "cut" => joined(alloc, &[CONFIG.trim_end()]),
        "hook" => joined(alloc, &[CONFIG, HOOK]),
        "hook-twice" => joined(alloc, &[CONFIG, TWICE]),
        "deny-allow" => restricted(alloc, DENY, ALLOW),
        "allow-deny" => restricted(alloc, ALLOW, DENY),
        limit if limit.starts_with("max_") => limited(alloc, limit),
        change => changed(alloc, change),
    }
}
