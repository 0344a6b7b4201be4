// What the search answers.
ghost use Rattle.std.specs.Prelude.{◌≡◌};
ghost use Rattle.preference.specs.Order.{found, nothing};
ghost use Rattle.search.specs.Types.{limited, result_of};

#[derive(Clone, Copy)]
pub enum SearchResult {
    // The first candidate that passes, and its place.
    Found { candidate: usize, place: usize },
    // None passes, of so many beside the empty one.
    Nothing { tried: usize },
    // The limit comes first.
    Spent,
}

// A candidate that passes, where its place is within the limit.
pub(crate) fn found(candidate: usize, place: usize, limit: usize) -> SearchResult
    ensures { result_of result ≡ limited limit (found candidate place) }
{
    if limit < place {
        SearchResult::Spent
    } else {
        SearchResult::Found { candidate, place }
    }
}

// None passes, where as many as there are beside the empty one are within the limit.
pub(crate) fn nothing(tried: usize, limit: usize) -> SearchResult
    ensures { result_of result ≡ limited limit (nothing tried) }
{
    if limit < tried {
        SearchResult::Spent
    } else {
        SearchResult::Nothing { tried }
    }
}
