//! The service's own thread: each order is a transaction, and each article of it stands after a savepoint.

use crate::fault::OrderFault;
use crate::stock::{ORDERS, STOCK};
use hub::{Hub, HubName, Service, Transaction, field};
use std::sync::Wait;
use std::time::Clock;

/// How many streams are awaited before the first order: what is committed before reaches nobody.
const FOLLOWERS: u64 = 2;

#[derive(Clone, Copy)]
struct Order<'a> {
    id: i32,
    customer: &'a str,
    articles: &'a [&'a str],
}

/// Fills the stock and takes all orders.
#[derive(Drop)]
pub struct Orders {}

impl Service for Orders {
    type Output = Result<(), OrderFault>;

    fn run<L: HubName, R: Wait + Clock>(self, rt: &R, hub: &Hub<L>) -> Result<(), OrderFault> {
        hub.await_streams(rt, FOLLOWERS);
        fill_stock(rt, hub)?;
        for (id, customer, articles) in &ORDERS {
            let order = Order {
                id: *id,
                customer: *customer,
                articles: *articles,
            };
            take_order(rt, hub, &order)?;
        }
        Ok(())
    }
}

fn fill_stock<L: HubName, R: Wait + Clock>(rt: &R, hub: &Hub<L>) -> Result<(), OrderFault> {
    let mut tx = hub.transaction(rt)?;
    let filled = insert_stock(&mut tx);
    tx.end_at(0, filled)
}

/// Of an order that isn't placed nothing is left but a note.
fn take_order<L, R>(rt: &R, hub: &Hub<L>, order: &Order<'_>) -> Result<(), OrderFault>
where
    L: HubName,
    R: Wait + Clock,
{
    let mut tx = hub.transaction(rt)?;
    let placed = place(&mut tx, order);
    match tx.end_at(i64::from(order.id), placed) {
        Err(OrderFault::SoldOut) => {
            hub.note(rt, "sold out", order.customer.as_bytes())?;
            Ok(())
        }
        taken => taken,
    }
}

fn insert_stock<L: HubName, R: Wait>(tx: &mut Transaction<'_, L, R>) -> Result<(), OrderFault> {
    for (article, pieces, price) in &STOCK {
        let (article, pieces) = (field("article", *article), field("pieces", *pieces));
        tx.insert("shop.stock", &[article, pieces, field("price", *price)])?;
    }
    Ok(())
}

/// Places an order of what is there, with a message that tells this transaction from others. What was done for an article that is
/// sold out reaches no follower.
fn place<L, R>(tx: &mut Transaction<'_, L, R>, order: &Order<'_>) -> Result<(), OrderFault>
where
    L: HubName,
    R: Wait,
{
    tx.message("order", order.customer.as_bytes())?;
    let mut total: i64 = 0;
    for article in order.articles {
        let savepoint = tx.savepoint()?;
        let placed = place_one(tx, order, article);
        match tx.end_savepoint(savepoint, placed) {
            Ok(price) => total = total.saturating_add(price),
            Err(OrderFault::SoldOut) => {}
            Err(fault) => return Err(fault),
        }
    }
    if total == 0 {
        return Err(OrderFault::SoldOut);
    }
    let (id, customer) = (field("id", order.id), field("customer", order.customer));
    Ok(tx.insert("shop.orders", &[id, customer, field("total", total)])?)
}

/// Writes a line of the order, takes the piece for it out of the stock, and answers its price.
fn place_one<L, R>(
    tx: &mut Transaction<'_, L, R>,
    order: &Order<'_>,
    article: &str,
) -> Result<i64, OrderFault>
where
    L: HubName,
    R: Wait,
{
    let name = field("article", article);
    tx.insert("shop.lines", &[field("order_id", order.id), name])?;
    let (pieces, price) = stock_of(tx, article)?;
    if pieces <= 0 {
        return Err(OrderFault::SoldOut);
    }
    let left = field("pieces", pieces - 1);
    tx.update("shop.stock", &[name], &[name, left, field("price", price)])?;
    Ok(price)
}

/// How many pieces of an article are left, and what one costs.
fn stock_of<L, R>(tx: &Transaction<'_, L, R>, article: &str) -> Result<(i32, i64), OrderFault>
where
    L: HubName,
    R: Wait,
{
    match tx.get("shop.stock", &[field("article", article)])? {
        Some(row) => match (row.int4("pieces"), row.int8("price")) {
            (Some(pieces), Some(price)) => Ok((pieces, price)),
            _ => Err(OrderFault::SoldOut),
        },
        None => Err(OrderFault::SoldOut),
    }
}
