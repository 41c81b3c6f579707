//! Which values of a row are told.

/// Which values of a row are told.
#[derive(Clone, Copy)]
pub(crate) enum ToldValues {
    /// Each that was sent.
    Whole,
    /// Those of the key: a null of another column stands for none.
    Key,
}
