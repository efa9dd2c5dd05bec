// Foldings as Unicode's CaseFolding.txt has them (statuses C and S), and the rules for names at their limits.
use super::lines::cut;
use acct_calls::{Name, Names, NoMemory, laws};
use acct_codes::Kind;
use std::alloc::Global;
use std::test::Fail;

fn fold_alike(alloc: Global, left: &Name, right: &Name) -> Result<bool, NoMemory> {
    let left = left.fold(alloc)?;
    Ok(left == right.fold(alloc)?)
}

/// Whether two names are equal, asked both ways, and their foldings too; or neither.
fn agree(alloc: Global, left: &Name, right: &Name, same: bool) -> Result<bool, NoMemory> {
    let both = left.same(right) && right.same(left);
    Ok(both == same && fold_alike(alloc, left, right)? == same)
}

fn agrees_with(alloc: Global, left: &Name, right: &str, same: bool) -> Result<bool, NoMemory> {
    let right = Name::from_text(alloc, right)?;
    agree(alloc, left, &right, same)
}

/// The same of the names of a pair of texts.
fn are_same(alloc: Global, pair: &str, same: bool) -> Result<bool, NoMemory> {
    let (left, right) = cut(pair, '|');
    let left = Name::from_text(alloc, left)?;
    agrees_with(alloc, &left, right, same)
}

/// Pairs of texts, of which each is the other in another case.
const SAME: &str = "Administrator|aDMINISTRATOR
ÄÖÉñ|äöéÑ
ΟΔΥΣΣΕΥΣ|οδυσσευς
οδυσσευς|οδυσσευσ
STRAẞE|straße
\u{212A}elvin|kELVIN
\u{10400}x|\u{10428}X
\u{1FD3}|\u{0390}
\u{1DF95}x|ßx
|";

/// Pairs of texts that no case folding of single code points makes equal.
const DIFFERENT: &str = "alice|alicia
alice|al
straße|strasse
İ|i
ı|I
É|E\u{0301}
\u{10400}|\u{10429}
|a";

#[test]
fn names_differ_in_case_alone(rt: HostRuntime) -> Result<(), Fail> {
    for (pairs, same) in [(SAME, true), (DIFFERENT, false)] {
        for pair in pairs.lines() {
            assert!(rt; are_same(rt.alloc(), pair, same)?, "{pair}");
        }
    }
    Ok(())
}

fn name_of(alloc: Global, units: &[u16]) -> Result<Name, NoMemory> {
    Ok(Name::from_units(units.to_vec(alloc)?))
}

/// Whether a name folds to these units, and is the same as what it folds to.
fn folds_to(alloc: Global, units: &[u16], folded: &[u16]) -> Result<bool, NoMemory> {
    let name = name_of(alloc, units)?;
    let other = name.fold(alloc)?;
    Ok(other.units() == folded && name.same(&other))
}

/// The number of units may change, and unpaired surrogates are themselves.
#[test]
fn names_are_folded_by_code_points(rt: HostRuntime) -> Result<(), Fail> {
    for (units, folded) in [
        ([0xD837, 0xDF95, 0x78].as_slice(), [0xDF, 0x78].as_slice()),
        (
            &[0xDC00, 0xD801, 0x41, 0xD801],
            &[0xDC00, 0xD801, 0x61, 0xD801],
        ),
        (&[0xD801, 0xD801, 0xDC00], &[0xD801, 0xD801, 0xDC28]),
        (&[0x41; 256], &[0x61; 256]),
    ] {
        assert!(rt; folds_to(rt.alloc(), units, folded)?);
    }
    Ok(())
}

fn are_same_units(alloc: Global, left: &[u16], right: &[u16]) -> Result<bool, NoMemory> {
    Ok(name_of(alloc, left)?.same(&name_of(alloc, right)?))
}

#[test]
fn unpaired_surrogates_differ(rt: HostRuntime) -> Result<(), Fail> {
    for (left, right) in [
        (
            [0xDC00, 0xD801, 0x61, 0xD801].as_slice(),
            [0xDC00, 0xD801, 0x61, 0xD802].as_slice(),
        ),
        (&[0xD801], &[0xD801, 0xDC00]),
    ] {
        assert!(rt; !are_same_units(rt.alloc(), left, right)?);
        assert!(rt; are_same_units(rt.alloc(), left, left)?);
    }
    Ok(())
}

fn is_spelled(alloc: Global, text: &str, units: &[u16]) -> Result<bool, NoMemory> {
    Ok(Name::from_text(alloc, text)?.into_units().as_slice() == units)
}

/// Code points beyond the first 65,536 take two units.
#[test]
fn texts_are_spelled_in_units(rt: HostRuntime) -> Result<(), Fail> {
    for (text, units) in [
        ("\u{1DF95}x", [0xD837, 0xDF95, 0x78].as_slice()),
        ("aé", &[0x61, 0xE9]),
    ] {
        assert!(rt; is_spelled(rt.alloc(), text, units)?, "{text}");
    }
    Ok(())
}

/// Whether the foldings of a code point may have come with Unicode 15 to 18.
fn is_new(point: u32) -> bool {
    matches!(
        point,
        0x1C89 | 0x1FD3 | 0x1FE3 | 0xA7CB..=0xA7CF | 0xA7D2..=0xA7D5 | 0xA7DA..=0xA7E2 | 0xAB6C..=0xAB6D | 0xFB05
            | 0x10D50..=0x10D65 | 0x16EA0..=0x16EB8 | 0x1DF40..=0x1DF95
    )
}

/// The only code point of a name.
fn point_of(name: &Name) -> u32 {
    match name.units() {
        [unit] => u32::from(*unit),
        [high, low] => {
            let high = u32::from(*high).wrapping_sub(0xD800);
            let low = u32::from(*low).wrapping_sub(0xDC00);
            high.wrapping_mul(0x400)
                .wrapping_add(low)
                .wrapping_add(0x1_0000)
        }
        _ => u32::MAX,
    }
}

/// The name of one code point, which may be a surrogate.
fn name_of_point(alloc: Global, point: u32) -> Result<Name, NoMemory> {
    match char::from_u32(point) {
        Some(c) => {
            let mut units = [0; 2];
            name_of(alloc, c.encode_utf16(&mut units))
        }
        None => name_of(alloc, &[(point % 0x1_0000) as u16]),
    }
}

/// The foldings of every code point that Unicode 14 has, against a digest of what Perl 5.36 answers for them
/// (`Unicode::UCD::casefold`, the simple mappings).
#[test]
fn foldings_are_those_of_perl(rt: HostRuntime) -> Result<(), Fail> {
    let alloc = rt.alloc();
    let mut count = 0u32;
    let mut digest = 0xcbf2_9ce4_8422_2325u64;
    for point in 0..0x11_0000u32 {
        let folded = point_of(&name_of_point(alloc, point)?.fold(alloc)?);
        if folded != point && !is_new(point) {
            count = count.wrapping_add(1);
            digest = (digest ^ u64::from(point)).wrapping_mul(0x0100_0000_01b3);
            digest = (digest ^ u64::from(folded)).wrapping_mul(0x0100_0000_01b3);
        }
    }
    assert!(rt; count == 1454);
    assert!(rt; digest == 0x67bc_908b_2b28_6b36);
    Ok(())
}

/// Whether users, groups and aliases alike may or may not have a name.
fn has_validity(name: &Name, valid: bool) -> bool {
    name.is_valid(Kind::User) == valid
        && name.is_valid(Kind::Group) == valid
        && name.is_valid(Kind::Alias) == valid
}

/// Whether the name that a character and some text before it make is valid, or isn't.
fn is_judged(alloc: Global, before: &str, c: char, valid: bool) -> Result<bool, NoMemory> {
    let mut units = Name::from_text(alloc, before)?.into_units();
    let mut own = [0; 2];
    units.extend_from_slice(c.encode_utf16(&mut own))?;
    Ok(has_validity(&Name::from_units(units), valid))
}

/// Whether the names that each of some characters and some text before it make are valid, or aren't.
fn are_judged(alloc: Global, before: &str, chars: &str, valid: bool) -> Result<bool, NoMemory> {
    for c in chars.chars() {
        if !is_judged(alloc, before, c, valid)? {
            return Ok(false);
        }
    }
    Ok(true)
}

const ALLOWED: &str = "a$#'@()!%^_-\u{7F}ß\u{10400}\u{E000}\u{D7FF}";

#[test]
fn names_are_valid_by_their_characters(rt: HostRuntime) -> Result<(), Fail> {
    for (chars, before, valid) in [
        (ALLOWED, "", true),
        (ALLOWED, ". ", true),
        (ALLOWED, "a", true),
        ("\"/\\[]:;|=,+*?<>\u{1F}\n\u{0}", "a", false),
        (". ", ". .", false),
        (". ", "a", true),
    ] {
        assert!(rt; are_judged(rt.alloc(), before, chars, valid)?, "{before}");
    }
    Ok(())
}

#[test]
fn unpaired_surrogates_are_not_valid(rt: HostRuntime) -> Result<(), Fail> {
    for units in [
        [0xD800, 0x61],
        [0xDFFF, 0x61],
        [0x61, 0xDBFF],
        [0xDC00, 0xD800],
    ] {
        assert!(rt; has_validity(&name_of(rt.alloc(), &units)?, false));
    }
    Ok(())
}

/// Whether a name of so many letters is valid.
fn is_valid(alloc: Global, kind: Kind, count: usize) -> Result<bool, NoMemory> {
    Ok(Name::from_units(vec![in alloc; 0x61; count]?).is_valid(kind))
}

/// The longest names of a user and of a group or an alias, from both sides; other objects have no names.
#[test]
fn names_are_valid_by_their_lengths(rt: HostRuntime) -> Result<(), Fail> {
    for (kind, count, valid) in [
        (Kind::User, 0, false),
        (Kind::User, 20, true),
        (Kind::User, 21, false),
        (Kind::Group, 256, true),
        (Kind::Group, 257, false),
        (Kind::Alias, 256, true),
        (Kind::Alias, 257, false),
        (Kind::Server, 1, false),
        (Kind::Domain, 1, false),
        (Kind::Policy, 1, false),
        (Kind::Account, 1, false),
    ] {
        assert!(rt; is_valid(rt.alloc(), kind, count)? == valid, "{count}");
    }
    Ok(())
}

/// A name of 256 units.
fn long_name(alloc: Global) -> Result<Name, NoMemory> {
    Ok(Name::from_units(vec![in alloc; 0x61; 256]?))
}

/// A thousand names of 256 units and an empty one.
fn many_names(alloc: Global) -> Result<Names, NoMemory> {
    let mut names = Names::new(alloc);
    names.push(Name::from_units(Vec::new(alloc)))?;
    for _ in 0..1000 {
        names.push(long_name(alloc)?)?;
    }
    Ok(names)
}

fn is_copied(alloc: Global, name: &Name) -> Result<bool, NoMemory> {
    name.has_units();
    Ok(name.copy(alloc)? == *name)
}

/// Whether each name of a list is copied.
fn are_copied(alloc: Global, names: &[Name]) -> Result<bool, NoMemory> {
    for name in names {
        if !is_copied(alloc, name)? {
            return Ok(false);
        }
    }
    Ok(true)
}

/// Whether a list is copied as a whole, with so many names.
fn is_listed(alloc: Global, names: &Names, count: usize) -> Result<bool, NoMemory> {
    let copy = Names::from_vec(names.copy(alloc)?.into_vec());
    Ok(copy == *names && copy.as_slice().len() == count)
}

#[test]
fn names_are_listed_and_copied(rt: HostRuntime) -> Result<(), Fail> {
    let names = many_names(rt.alloc())?;
    assert!(rt; is_listed(rt.alloc(), &names, 1001)?);
    assert!(rt; are_copied(rt.alloc(), names.as_slice())?);
    Ok(())
}

#[test]
fn laws_are_called() {
    laws::points_spell_units();
    laws::characters_are_read();
    laws::test_tells_same();
    laws::same_is_equivalence();
    laws::folded_is_same();
    laws::folds_once();
    laws::same_fold_alike();
}
