//! What is kept of one xid beside its changes.

ghost use Rattle.std.specs.Prelude.{◌≡◌};

use std::marker::Model;

/// The xids above that of a transaction or subtransaction.
#[derive(Drop)]
pub(crate) struct SubxactAncestors {
    above: Vec<u32>,
}

impl Model for SubxactAncestors {
    ghost use Rattle.reorder.specs.Strands.{Standing};

    ghost Value = { Standing };

    ghost view = { λ s. record { above = s.above.items } };
}

impl SubxactAncestors {
    /// One under these xids, from its parent to its transaction.
    pub(crate) fn under(above: Vec<u32>) -> Self
        ensures { result ≡ record { above = above.items } }
    {
        SubxactAncestors { above }
    }

    pub(crate) fn above(&self) -> &[u32]
        ensures { result.now ≡ self.now.above }
    {
        self.above.as_slice()
    }
}
