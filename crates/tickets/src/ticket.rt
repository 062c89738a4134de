// A ticket: what is listed, in which order, and how far the listing has been handed out.
ghost use Rattle.std.specs.Prelude.{◌≡◌};
ghost use Rattle.tickets.specs.Ticket.{fresh_ticket, asked};

// The pairs to list: those of nodes that lie inside, or only directly inside.
#[derive(Clone, Copy)]
pub enum Relation {
    Inside,
    Directly,
}

// The order in which they come: by the descendants first, or by the ancestors first.
#[derive(Clone, Copy)]
pub enum Order {
    Descendant,
    Ancestor,
}

// The sort key of a pair: its document, the start of the node that comes first in the order, and
// the start of the other one.
#[derive(Clone, Copy)]
pub struct Key {
    pub document: u32,
    pub leader: u32,
    pub follower: u32,
}

// The place reached: none yet, or the key of the last pair handed out.
// By hand, and no Option: docs/SCOPE.md names these two cases.
#[derive(Clone, Copy)]
pub enum Place {
    Fresh,
    After(Key),
}

// What a caller keeps between two pages of a listing. Any ticket can be used, even an invented one.
#[derive(Clone, Copy)]
pub struct Ticket {
    pub relation: Relation,
    pub order: Order,
    pub place: Place,
}

// Returns the ticket that starts a listing by `relation` and in `order`.
pub fn fresh(relation: Relation, order: Order) -> Ticket
    ensures { result ≡ fresh_ticket (asked relation order) }
{
    Ticket {
        relation: relation,
        order: order,
        place: Place::Fresh,
    }
}
