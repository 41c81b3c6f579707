//! The name of a log.

use std::marker::Brand;

/// Which log it is. Each call of a program that opens one picks its name, and all that belongs to the log has the name in its
/// type.
pub trait LogName {
    ghost use Rattle.logbook.specs.Pages.{Book};

    ghost book: { Book };
}

impl LogName for Brand {
    ghost book = { record { number = 0; log_name = 0; cells_name = 0 } };
}
