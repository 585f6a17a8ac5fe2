//! What an edge knows of one peer.
ghost use Rattle.std.specs.Prelude.{◌≡◌};
ghost use Rattle.ldp_discovery.specs.Live.{lasts, lives_by, is_adjacency_live, adjacency_aged, hold_proposed, refreshed, unknown};

/// The last Hello that a peer was heard to say.
#[derive(Clone, Copy, Debug, PartialEq, Eq)]
pub struct LastHello {
    /// The hold time that the edge had proposed as it came.
    pub own: u16,
    /// The hold time that it proposes.
    pub theirs: u16,
    /// The ticks since it came, up to 65535.
    pub age: u16,
}

/// What is kept of one peer.
#[derive(Clone, Copy, Debug, PartialEq, Eq)]
pub struct Adjacency {
    /// The hold time that the edge proposed last, 0 before any.
    pub proposal: u16,
    pub hello: Option<LastHello>,
}

/// Nothing is known of a peer.
pub const UNKNOWN: Adjacency = Adjacency {
    proposal: 0,
    hello: None,
};

impl Adjacency {
    /// The edge proposes another hold time.
    pub fn proposing(self, hold: u16) -> Adjacency
        ensures { result ≡ hold_proposed hold self }
    {
        Adjacency {
            proposal: hold,
            hello: self.hello,
        }
    }

    /// A Hello with this hold time came.
    pub fn refreshed(self, hold: u16) -> Adjacency
        ensures { result ≡ refreshed hold self }
    {
        Adjacency {
            proposal: self.proposal,
            hello: Some(LastHello {
                own: self.proposal,
                theirs: hold,
                age: 0,
            }),
        }
    }
}

// Whether a hold time lasts at an age. 0 stands for 45 seconds, and 65535 has no end (RFC 5036 section 3.5.2).
fn hold_lasts(hold: u16, age: u16) -> bool
    ensures { result ≡ lasts hold age }
{
    if hold == 0 {
        age < 45
    } else if hold == 65535 {
        true
    } else {
        age < hold
    }
}

// Whether an adjacency lives by its last Hello.
fn hello_lives(hello: LastHello) -> bool
    ensures { result ≡ lives_by hello }
{
    hold_lasts(hello.own, hello.age) && hold_lasts(hello.theirs, hello.age)
}

/// Whether the adjacency lives.
pub fn adjacency_lives(adjacency: Adjacency) -> bool
    ensures { result ≡ is_adjacency_live adjacency }
{
    match adjacency.hello {
        Some(hello) => hello_lives(hello),
        None => false,
    }
}

/// The adjacency a tick later.
pub fn tick_later(adjacency: Adjacency) -> Adjacency
    ensures { result ≡ adjacency_aged adjacency }
{
    match adjacency.hello {
        Some(hello) => {
            let age = if hello.age < 65535 {
                hello.age + 1
            } else {
                hello.age
            };
            Adjacency {
                proposal: adjacency.proposal,
                hello: Some(LastHello { age, ..hello }),
            }
        }
        None => adjacency,
    }
}
