// The lists that are wanted in a book, as (tag, count) entries.
ghost use Rattle.std.specs.Prelude.{◌≡◌, ◌<◌, ◌/◌, length, get_or};
ghost use Rattle.writing.specs.Wanted.{WANTED_WORDS, want, wanted};

// How many words an entry takes.
pub(crate) const WANTED_WORDS: usize = 2;

// A list that is wanted: its tag, and how many of the nodes are its own.
#[derive(Clone, Copy)]
pub(crate) struct Wanted {
    pub tag: u32,
    pub count: u32,
}

// Returns the number of whole entries in `entries`.
pub(crate) fn wanted_count(entries: &[u32]) -> usize
    ensures { result ≡ length entries.now / WANTED_WORDS }
{
    entries.len() / WANTED_WORDS
}

// Returns the entry at `index`.
pub(crate) fn wanted_at(entries: &[u32], index: usize) -> Wanted
    requires { index < length entries.now / WANTED_WORDS }
    ensures { result ≡ get_or (wanted entries.now) index (want 0 0) }
{
    let at = WANTED_WORDS * index;
    Wanted {
        tag: entries[at],
        count: entries[at + 1],
    }
}
