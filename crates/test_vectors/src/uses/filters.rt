//! A row filter of ten comparisons beside the same test written by hand: `filter TURNS WORK` makes a thousand rows, and in each turn
//! asks of each whether it passes the filter (`filter`) or the test (`hand`).

use crate::uses::items::{ITEM, configured, item};
use crate::uses::number;
use anyhow::{Context, Result, bail};
use catalog::Catalog;
use rowfilter::{Filter, parse};
use std::alloc::Global;
use std::io::Print;
use tables::{Row, RowRef, Value};

const ROWS: i32 = 1000;

const FILTER: &str =
    "id > 0 AND id <> 7 AND id < 100000 AND (name = 'even' OR name = 'odd') AND name <> 'none' \
    AND qty >= 0 AND qty <> 13 AND qty < 1000000 AND id >= 10";

pub fn work_on_filters(rt: &impl Print, alloc: Global, words: &[String]) -> Result<()> {
    let [turns, work] = words else {
        bail!("filter TURNS WORK");
    };
    let passed = passed(alloc, number(turns)?, work.as_str())?;
    println!(rt; "{passed} passed")?;
    Ok(())
}

fn passed(alloc: Global, turns: u32, work: &str) -> Result<u64> {
    let mut rows = Vec::new(alloc);
    for id in 0..ROWS {
        let name = if id % 2 == 0 { "even" } else { "odd" };
        rows.push(item(alloc, id, name, i64::from(id))?)?;
    }
    passed_by(alloc, turns, work, rows.as_slice())
}

fn passed_by(alloc: Global, turns: u32, work: &str, rows: &[Row]) -> Result<u64> {
    match work {
        "filter" => turns_by_filter(alloc, turns, rows),
        "hand" => Ok(turns_by_hand(turns, rows)),
        _ => bail!("no work is called {work}"),
    }
}

pub fn filter(alloc: Global) -> Result<Filter> {
    filter_over(alloc, &configured(alloc)?)
}

fn filter_over(alloc: Global, catalog: &Catalog) -> Result<Filter> {
    let table = catalog.table(ITEM).context("the table is missing")?;
    Ok(parse(alloc, FILTER, table)?)
}

fn turns_by_filter(alloc: Global, turns: u32, rows: &[Row]) -> Result<u64> {
    let filter = filter(alloc)?;
    let mut passed: u64 = 0;
    for _ in 0..turns {
        passed = passed.saturating_add(passed_by_filter(&filter, rows));
    }
    Ok(passed)
}

fn passed_by_filter(filter: &Filter, rows: &[Row]) -> u64 {
    let mut passed: u64 = 0;
    for row in rows {
        if filter.holds(&RowRef::of(row)) {
            passed = passed.saturating_add(1);
        }
    }
    passed
}

fn turns_by_hand(turns: u32, rows: &[Row]) -> u64 {
    let mut passed: u64 = 0;
    for _ in 0..turns {
        passed = passed.saturating_add(passed_by_hand(rows));
    }
    passed
}

fn passed_by_hand(rows: &[Row]) -> u64 {
    let mut passed: u64 = 0;
    for row in rows {
        if passes(row) {
            passed = passed.saturating_add(1);
        }
    }
    passed
}

fn passes(row: &Row) -> bool {
    let [Value::Int4(id), Value::Text(name), Value::Int8(quantity)] = row.values() else {
        return false;
    };
    let name = name.as_str();
    *id > 0
        && *id != 7
        && *id < 100_000
        && (name == "even" || name == "odd")
        && name != "none"
        && *quantity >= 0
        && *quantity != 13
        && *quantity < 1_000_000
        && *id >= 10
}
