// The last of a list.
ghost use Rattle.std.specs.Prelude.{◌≡◌, ◌++◌, ◌∷◌, [], MatchOption};

/// All but the last of a list, and the last, where there is one.
pub fn split_last<T>(items: &[T]) -> Option<(&[T], &T)>
    ensures { MatchOption result (items.now ≡ []) (λ p. items.now ≡ p.0.now ++ p.1.now ∷ []) }
{
    if items.len() == 0 {
        return None;
    }
    let end = items.len() - 1;
    Some((&items[..end], &items[end]))
}
