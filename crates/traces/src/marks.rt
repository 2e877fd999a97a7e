// Rows that hold a mark wherever nothing was written.
ghost use Rattle.std.specs.Prelude.{◌≡◌, ◌&&◌, drop, length};
ghost use Rattle.std.specs.List.{list_all, starts_with};

// Whether there is nothing but the mark from a place on.
pub(crate) fn is_marked<T: PartialEq>(row: &[T], from: usize, mark: &T) -> bool
    ensures { result ≡ list_all (λ x. T.eq x mark.now) (drop from row.now) }
{
    row.iter().skip(from).all(|x| x == mark)
}

// Whether a row begins with all of these, and holds nothing but the mark behind them.
pub fn begins<T: PartialEq>(row: &[T], front: &[T], mark: &T) -> bool
    ensures { result ≡ starts_with T.eq row.now front.now && list_all (λ x. T.eq x mark.now) (drop (length front.now) row.now) }
{
    row.starts_with(front) && is_marked(row, front.len(), mark)
}
