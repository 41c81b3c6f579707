//! A piece of a list.

ghost use Rattle.std.specs.Prelude.{◌≡◌, drop, take};

/// Up to `max` of the items from the place on.
#[tactic(auto, using(std::proofs::lemmas::List::drop_all, std::proofs::lemmas::List::take_all))]
pub fn part<T>(items: &[T], place: usize, max: usize) -> &[T]
    ensures { result.now ≡ take max (drop place items.now) }
{
    let rest = match items.split_at_checked(place) {
        Some((_, rest)) => rest,
        None => &[],
    };
    match rest.split_at_checked(max) {
        Some((part, _)) => part,
        None => rest,
    }
}
