//! A small service that publishes what it does. `order_service` runs it, beside two followers of what it publishes.
//!
//! Read `service.rt`, `ordering.rt`, `following.rt`. It uses the contract of `hub`'s transactions: Ok of an order says that it
//! is committed, and will be published.
#![tactic(auto)]

mod fault;
mod following;
mod ordering;
mod service;
mod shop;
mod stock;

use anyhow::Result;
use service::follow_orders;

fn main(rt: HostRuntime) -> Result<()> {
    follow_orders(&rt, rt.alloc())
}
