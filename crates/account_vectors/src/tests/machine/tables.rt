// A table beside a plain list that is walked: what both hold after each change, and what both find.
ghost use Rattle.std.specs.Prelude.{[], ◌∷◌, ◌==◌, not};

use acct_tables::{Fronts, Order, Table, Test, Whole};
use std::alloc::Global;
use std::cmp::Ordering;
use std::test::Fail;

#[derive(Clone, Copy, Debug, PartialEq, Eq)]
struct Item {
    shelf: u32,
    place: u32,
}

#[derive(Drop)]
struct ByShelf;

impl Order<Item> for ByShelf {
    ghost key_of = { λ item. item.shelf ∷ item.place ∷ [] };

    fn order(left: &Item, right: &Item) -> Ordering {
        left.shelf
            .cmp(&right.shelf)
            .then(left.place.cmp(&right.place))
    }
}

impl Whole<Item> for ByShelf {
    type Key = (u32, u32);

    ghost path = { λ key. key.0 ∷ key.1 ∷ [] };

    fn order_key(value: &Item, key: &(u32, u32)) -> Ordering {
        value.shelf.cmp(&key.0).then(value.place.cmp(&key.1))
    }
}

impl Fronts<Item> for ByShelf {
    type Front = u32;

    ghost front_of = { λ shelf. shelf ∷ [] };

    fn order_front(value: &Item, front: &u32) -> Ordering {
        value.shelf.cmp(front)
    }
}

#[derive(Drop)]
struct OffShelf {
    shelf: u32,
}

impl Test<Item> for OffShelf {
    ghost passes = { λ test item. not (item.shelf == test.shelf) };

    fn passes(&self, item: &Item) -> bool {
        item.shelf != self.shelf
    }
}

fn put(table: &mut Table<Item, ByShelf>, plain: &mut Vec<Item>, item: Item) -> Result<(), Fail> {
    table.reserve(1)?;
    table.put(item);
    plain.retain(|other| *other != item);
    plain.push(item)?;
    Ok(())
}

fn remove(table: &mut Table<Item, ByShelf>, plain: &mut Vec<Item>, item: Item) {
    if plain.len() % 2 == 0 {
        table.remove(&item);
    } else {
        table.remove_key(&(item.shelf, item.place));
    }
    plain.retain(|other| *other != item);
}

fn remove_shelf(table: &mut Table<Item, ByShelf>, plain: &mut Vec<Item>, shelf: u32) {
    if plain.len() % 2 == 0 {
        table.remove_within(&shelf);
    } else {
        table.keep(&OffShelf { shelf });
    }
    plain.retain(|other| other.shelf != shelf);
}

fn rises(items: &[Item]) -> bool {
    for i in 1..items.len() {
        if !ByShelf::order(&items[i - 1], &items[i]).is_lt() {
            return false;
        }
    }
    true
}

fn has_all(items: &[Item], plain: &[Item]) -> bool {
    for item in plain {
        if !items.contains(item) {
            return false;
        }
    }
    items.len() == plain.len()
}

fn finds(table: &Table<Item, ByShelf>, plain: &[Item], shelf: u32) -> bool {
    let mut count = 0usize;
    for item in plain {
        if item.shelf == shelf && count < plain.len() {
            count += 1;
        }
    }
    let within = table.within(&shelf);
    within.len() == count && table.find(&shelf).copied() == within.first().copied()
}

/// Whether exactly the items of the list are found by their keys.
fn finds_each(table: &Table<Item, ByShelf>, plain: &[Item]) -> bool {
    for n in 0..60 {
        let item = Item {
            shelf: n / 10,
            place: n % 10,
        };
        let there = if plain.contains(&item) {
            Some(item)
        } else {
            None
        };
        if table.find_key(&(item.shelf, item.place)).copied() != there {
            return false;
        }
    }
    true
}

/// Whether a table rises, has what a list has, and finds each shelf's and each.
fn agrees(table: &Table<Item, ByShelf>, plain: &[Item]) -> bool {
    for shelf in 0..6 {
        if !finds(table, plain, shelf) {
            return false;
        }
    }
    rises(table.as_slice()) && has_all(table.as_slice(), plain) && finds_each(table, plain)
}

/// The item that a random number stands for.
fn item_of(seed: u64) -> Item {
    Item {
        shelf: (seed >> 40) as u32 % 5,
        place: (seed >> 48) as u32 % 9,
    }
}

/// Changes both as a random number says.
fn change(table: &mut Table<Item, ByShelf>, plain: &mut Vec<Item>, seed: u64) -> Result<(), Fail> {
    let item = item_of(seed);
    match (seed >> 56) % 16 {
        0 => remove_shelf(table, plain, item.shelf),
        1..6 => remove(table, plain, item),
        _ => put(table, plain, item)?,
    }
    Ok(())
}

#[test]
fn a_table_has_what_a_walked_list_has(rt: HostRuntime) -> Result<(), Fail> {
    let mut table = Table::new(rt.alloc());
    let mut plain = Vec::new(rt.alloc());
    let mut seed = 7u64;
    for _ in 0..600 {
        seed = seed
            .wrapping_mul(6364136223846793005)
            .wrapping_add(1442695040888963407);
        change(&mut table, &mut plain, seed)?;
        assert!(rt; agrees(&table, &plain));
    }
    assert!(rt; plain.len() > 5);
    Ok(())
}

#[test]
fn all_of_a_list_go(rt: HostRuntime) -> Result<(), Fail> {
    let alloc = rt.alloc();
    let mut table: Table<Item, ByShelf> = Table::new(alloc);
    let mut plain = Vec::new(alloc);
    for place in 0..8 {
        put(
            &mut table,
            &mut plain,
            Item {
                shelf: place % 3,
                place,
            },
        )?;
    }
    let gone = [
        Item { shelf: 1, place: 4 },
        Item { shelf: 0, place: 0 },
        Item { shelf: 2, place: 7 },
    ];
    table.remove_all(&gone);
    plain.retain(|item| !gone[..2].contains(item));
    assert!(rt; has_all(table.as_slice(), &plain));
    Ok(())
}
