//! The ends that an edge visits as it mends.
ghost use Rattle.std.specs.Prelude.{◌≡◌, ◌≤◌, ◌<◌, ℕ, true};
ghost use Rattle.provider_edge.specs.Marks.{IsUnmarked, IsWider, is_unmarked};

/// The slots of an edge's ends that have a mark: those from one on, before another. An end without a mark is settled, so the edge passes it
/// by as it mends. A slot is a place in the order of the edge's ends, counted from 0.
#[derive(Clone, Copy)]
pub struct EndMarks {
    first: usize,
    past: usize,
}

impl EndMarks {
    /// No slot has a mark.
    #[inline(always)]
    pub(crate) fn none() -> EndMarks
        ensures { (slot : ℕ) → IsUnmarked result slot }
    {
        EndMarks { first: 0, past: 0 }
    }

    /// Whether no slot has a mark.
    #[inline(always)]
    pub(crate) fn is_empty(self) -> bool
        ensures { result ≡ true → (slot : ℕ) → IsUnmarked self slot }
    {
        self.past <= self.first
    }

    /// The same with the slots from one on, before another.
    #[inline(always)]
    pub(crate) fn with(self, first: usize, past: usize) -> EndMarks
        ensures wider { IsWider self result }
        ensures within { (slot : ℕ) → first ≤ slot → slot < past → IsUnmarked result slot → ⊥ }
    {
        if self.is_empty() {
            return EndMarks { first, past };
        }
        EndMarks {
            first: self.first.min(first),
            past: self.past.max(past),
        }
    }

    /// The first slot that has a mark, or 0: no slot before it has one.
    #[inline(always)]
    pub(crate) fn first(self) -> usize
        ensures { (slot : ℕ) → slot < result → IsUnmarked self slot }
    {
        self.first
    }

    /// Whether neither this slot nor any later one has a mark, where the first one was reached.
    #[inline(always)]
    pub(crate) fn is_past(self, slot: usize) -> bool
        ensures { result ≡ true → (other : ℕ) → slot ≤ other → IsUnmarked self other }
    {
        self.past <= slot
    }

    /// Whether a slot has no mark.
    pub(crate) fn passes_by(self, slot: usize) -> bool
        ensures { result ≡ is_unmarked self slot }
    {
        slot < self.first || self.past <= slot
    }
}
