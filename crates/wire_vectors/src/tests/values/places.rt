// Where documents break the rule that is the first one they break.
use super::documents::{PLAIN, RULES, changed};
use super::lines::cut;
use acct_config::{Place, place_of};
use std::alloc::Global;
use std::test::Fail;

/// In each line a rule, the line or the table and the key where it is broken, a part of the plain document, and what
/// stands in its place. A semicolon stands for a line end. Lines and listeners are counted from 0.
const PLACES: &str = r#"0|line 0|[domain]|[domain
0|line 1|"CORP"|CORP
0|line 5|name = "a"|name = "a";name = "a"
1|Document port|[domain]|port = 1;[domain]
1|Document limits|[domain]|limits = 65536;[domain]
1|Document listener|[[listener]]|[listener]
1|Domain sid|sid = "S-1-5-21-1-2-3";|
1|Domain name|"CORP"|1
1|Domain oem|name = "CORP"|name = "CORP";oem = ""
1|Listener(0) tokens|token|tokens
1|Listener(0) address|address = "tcp:127.0.0.1:4045";|
1|Listener(0) token|"S-1-1-0"|1
1|Listener(1) links|[[listener]]|[[listener]];name = "b";address = "unix:s";token = ["S-1-1-0"];[[listener]];links = "1"
1|Descriptors users|[[listener]]|[descriptor.users];owner = "S-1-1-0";[[listener]]
1|Descriptors server|[[listener]]|[descriptor];server = 1;[[listener]]
1|Descriptor(Server) owner|[[listener]]|[descriptor.server];aces = [];[[listener]]
1|Descriptor(User) group|[[listener]]|[descriptor.user];owner = "S-1-1-0";group = "S-1-1-0";[[listener]]
1|Descriptor(User) aces|[[listener]]|[descriptor.user];owner = "S-1-1-0";aces = [0];[[listener]]
1|Limits max_call|[domain]|[limits];max_call = 1;[domain]
1|Limits max_conns|[domain]|[limits];max_calls = 1;max_conns = true;[domain]
1|Document hook|[domain]|hook = "x";[domain]
1|Document hooks|[domain]|[hooks];program = "x";[domain]
1|Hook try|[domain]|[hook];program = "x";try = 3;[domain]
1|Hook program|[domain]|[hook];program = 1;[domain]
1|Hook tries|[domain]|[hook];program = "x";tries = "3";[domain]
2|Domain name|CORP|BUILTIN
3|Domain sid|"S-1-5-21-1-2-3"|"S-1-5-32"
4|Listener(0) name|name = "a"|name = "A"
4|Listener(0) name|[[listener]]|[[listener]];name = "a";address = "unix:s";token = ["S-1-1-0"];[[listener]]
4|Listener(1) name|name = "a"|name = "b";address = "unix:s";token = ["S-1-1-0"];[[listener]];name = ""
5|Listener(0) address|4045|65536
5|Listener(1) address|"tcp:127.0.0.1:4045"|"unix:s";token = ["S-1-1-0"];[[listener]];name = "b";address = "tcp:"
6|Listener(0) token|"S-1-1-0"|"Everyone"
7|Listener(0) workers|name = "a"|name = "a";workers = 65;links = -1
7|Listener(0) links|name = "a"|name = "a";workers = 64;links = -1
8|Descriptor(Account) owner|[[listener]]|[descriptor.account];owner = "S-1-5-18 ";[[listener]]
9|Descriptor(User) aces|[[listener]]|[descriptor.user];owner = "S-1-5-18";aces = [""];[[listener]]
10|Limits max_periods|[domain]|[limits];max_calls = 1;max_periods = 0;[domain]
11|Hook program|[domain]|[hook];tries = 0;[domain]
11|Hook program|[domain]|[hook];program = "";tries = 0;[domain]
11|Hook tries|[domain]|[hook];program = "x";tries = 0;[domain]"#;

fn shown(alloc: Global, place: Option<Place>) -> Result<String, Fail> {
    Ok(match place {
        Some(Place::Line(line)) => format!(in alloc; "line {line}")?,
        Some(Place::Key(section, key)) => {
            let key = key.as_str();
            format!(in alloc; "{section:?} {key}")?
        }
        None => String::from_str(alloc, "nowhere")?,
    })
}

/// Where the document of a change breaks a rule, as text.
fn place_in(alloc: Global, change: &str, rule: &str) -> Result<String, Fail> {
    let document = changed(alloc, PLAIN, change)?;
    let Ok(rule) = rule.parse::<u32>() else {
        return Err(Fail::from("no rule"));
    };
    shown(alloc, place_of(alloc, document.as_bytes(), rule)?)
}

#[test]
fn each_rule_is_broken_at_its_key(rt: HostRuntime) -> Result<(), Fail> {
    for line in PLACES.lines() {
        let (rule, rest) = cut(line, '|');
        let (wanted, change) = cut(rest, '|');
        assert_eq!(rt;
            place_in(rt.alloc(), change, rule)?.as_str(),
            wanted,
            "{line}"
        );
    }
    Ok(())
}

#[test]
fn each_broken_rule_has_a_place(rt: HostRuntime) -> Result<(), Fail> {
    for line in RULES.lines() {
        let (rule, change) = cut(line, '|');
        if rule != "-" {
            assert!(rt;
                place_in(rt.alloc(), change, rule)?.as_str() != "nowhere",
                "{line}"
            );
        }
    }
    Ok(())
}
