// Rows that are put, and plans that are done to rows, which put no row of the outbox.
ghost use Rattle.std.specs.Prelude.{◌≡◌};
ghost use Rattle.std.specs.List.{list_any};
ghost use Rattle.acct_rules.specs.Touched.{is_out_row};

use acct_calls::NoMemory;
use acct_rows::{MOST_NEXT_OUT, OutRow, Plan, Row, Rows};
use std::test::Fail;

/// Puts a row, for which room is made first. A row of the outbox isn't put.
pub fn put(rows: &mut Rows, row: Row) -> Result<(), NoMemory> {
    rows.reserve(1)?;
    match row {
        Row::Domain(domain) => rows.put(Row::Domain(domain)),
        Row::Account(account) => rows.put(Row::Account(account)),
        Row::Member(member) => rows.put(Row::Member(member)),
        Row::Alias(alias) => rows.put(Row::Alias(alias)),
        Row::Lsa(account) => rows.put(Row::Lsa(account)),
        Row::Desc(desc) => rows.put(Row::Desc(desc)),
        Row::Out(out) => drop(out),
    }
    Ok(())
}

/// Puts a row of the outbox under the next number, where there is one.
pub fn put_out(rows: &mut Rows, mut out: OutRow) -> Result<(), Fail> {
    rows.reserve(1)?;
    let number = rows.next_out();
    if number >= MOST_NEXT_OUT {
        return Err("no number is left".into());
    }
    out.number = number;
    rows.put(Row::Out(out));
    Ok(())
}

fn is_out_row(row: &Row) -> bool
    ensures { result ≡ is_out_row row.now }
{
    matches!(row, Row::Out(_))
}

fn puts_out_row(plan: &Plan) -> bool
    ensures { result ≡ list_any is_out_row plan.now.puts }
{
    plan.puts.as_slice().iter().any(|row| is_out_row(row))
}

/// Does a plan to the rows, for which room is made first.
pub fn apply(rows: &mut Rows, plan: Plan) -> Result<(), Fail> {
    if puts_out_row(&plan) {
        return Err("no operation puts a row of the outbox".into());
    }
    rows.reserve(plan.puts.as_slice().len())?;
    rows.apply(plan);
    Ok(())
}
