//! What is in stock, and what is ordered.

/// Each article, how many pieces of it there are, and what one costs.
pub const STOCK: [(&str, i32, i64); 3] = [("desk", 2, 220), ("kettle", 5, 40), ("lamp", 1, 35)];

/// Each order's number, its customer and its articles. The first takes the last lamp: of the second order only the desk is left, and
/// of the third nothing.
pub const ORDERS: [(i32, &str, &[&str]); 4] = [
    (1, "Ada", &["kettle", "lamp"]),
    (2, "Ben", &["lamp", "desk"]),
    (3, "Cleo", &["lamp"]),
    (4, "Dan", &["desk", "kettle"]),
];
