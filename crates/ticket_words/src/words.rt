// The six words of a ticket, and the ticket that they stand for.
ghost use Rattle.std.specs.Prelude.{◌≡◌};
ghost use Rattle.ticket_words.specs.Words.{place_of, ticket_of, moved_to, ticket_back};

use tickets::ticket::{Key, Order, Place, Relation, Ticket};

// What a caller keeps between two pages. Any six words make a usable ticket. A relation of 0 is
// inside, and any other number directly inside. An order of 0 is descendant order, and any other
// number ancestor order. A ticket whose `placed` is 0 is fresh; with any other number it is placed
// after the key in the last three words.
#[repr(C)]
#[derive(Clone, Copy)]
pub struct TicketWords {
    pub relation: u32,
    pub order: u32,
    pub placed: u32,
    pub document: u32,
    pub first: u32,
    pub second: u32,
}

// A place is the one that the last four of the words stand for.
impl From<TicketWords> for Place {
    ghost from_gives = { λ words place. place ≡ place_of words };

    fn from(words: TicketWords) -> Place {
        if words.placed == 0 {
            return Place::Fresh;
        }
        Place::After(Key {
            document: words.document,
            leader: words.first,
            follower: words.second,
        })
    }
}

// A ticket is the one that the six words stand for.
impl From<TicketWords> for Ticket {
    ghost from_gives = { λ words ticket. ticket ≡ ticket_of words };

    fn from(words: TicketWords) -> Ticket {
        Ticket {
            relation: if words.relation == 0 {
                Relation::Inside
            } else {
                Relation::Directly
            },
            order: if words.order == 0 {
                Order::Descendant
            } else {
                Order::Ancestor
            },
            place: words.into(),
        }
    }
}

// Returns `words` with the place moved to `place`. A fresh place leaves them as they are.
fn moved_to(words: TicketWords, place: Place) -> TicketWords
    ensures { result ≡ moved_to words place }
{
    match place {
        Place::Fresh => words,
        Place::After(key) => TicketWords {
            placed: 1,
            document: key.document,
            first: key.leader,
            second: key.follower,
            ..words
        },
    }
}

// Returns the words for the next call, after a call with `words` that wrote `count` pairs and
// reached `place`. They are the same six words if it wrote none; otherwise they are moved to
// `place`.
pub fn ticket_back(words: TicketWords, count: usize, place: Place) -> TicketWords
    ensures { result ≡ ticket_back words count place }
{
    if count == 0 {
        return words;
    }
    moved_to(words, place)
}
