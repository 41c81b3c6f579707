//! The tables of the shop, and what is published of them.

/// The tables, a publication of all of them, and one of the orders of 100 or more.
pub const CONFIGURATION: &str = "\
[[table]]
oid = 20001
schema = 'shop'
name = 'stock'
key = ['article']
columns = [['article', 'text'], ['pieces', 'int4'], ['price', 'int8']]
[[table]]
oid = 20002
schema = 'shop'
name = 'orders'
key = ['id']
columns = [['id', 'int4'], ['customer', 'text'], ['total', 'int8']]
[[table]]
oid = 20003
schema = 'shop'
name = 'lines'
key = ['order_id', 'article']
columns = [['order_id', 'int4'], ['article', 'text']]
[[publication]]
name = 'all'
all_tables = true
[[publication]]
name = 'large'
publish = ['insert']
tables = [{ name = 'shop.orders', where = 'total >= 100' }]
";
