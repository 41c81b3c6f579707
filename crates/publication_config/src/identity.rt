//! What subscribers find a row by.

ghost use Rattle.std.specs.Prelude.{◌≡◌};
ghost use Rattle.publication_config.specs.Published.{is_identity};

use tables::Identity;

/// Whether a column belongs to the identity, by whether it belongs to the primary key.
pub fn is_in_identity(identity: Identity, is_key: bool) -> bool
    ensures { result ≡ is_identity identity is_key }
{
    match identity {
        Identity::Default => is_key,
        Identity::Nothing => false,
        Identity::Full => true,
    }
}
