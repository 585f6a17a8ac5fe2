//! Words of which a line has one.
ghost use Rattle.std.specs.{Prelude.{◌≡◌, map, position}, Str.{bytes_eq}};
ghost use Rattle.plan_names.specs.Names.{place_in};
ghost use Rattle.line_shapes.specs.Choices.{choice_word, choice_words};

/// What one of several words tells.
#[derive(Clone, Copy, Debug, PartialEq, Eq)]
pub enum Choice {
    /// Off or on.
    Switch,
    /// Why a frame or a packet was dropped.
    Cause,
    /// That a wire's end forwards, or why it does not.
    End,
    /// The state of a session; after `Ended` stands a colon and the reason.
    State,
}

/// The words of a choice. Each stands at the place of what it tells.
pub fn words_of(choice: Choice) -> &'static [&'static str]
    ensures { map (λ w. w.now) result.now ≡ choice_words choice }
{
    match choice {
        Choice::Switch => &["off", "on"],
        Choice::Cause => &[
            "Short",
            "Long",
            "WrongTag",
            "NoTag",
            "BadNibble",
            "NotBottom",
            "Ttl",
            "NoLabel",
            "Down",
            "NoBinding",
            "Expired",
            "Version",
            "Channel",
            "Ip",
            "Checksum",
            "Icmp",
            "NotOffered",
            "LinkFault",
        ],
        Choice::End => &[
            "up",
            "NoLocal",
            "NoRemote",
            "CBit",
            "Kind",
            "Mtu",
            "LocalFault",
            "RemoteFault",
            "Standby",
        ],
        Choice::State => &[
            "NonExistent",
            "Initialized",
            "OpenSent",
            "OpenRec",
            "Operational",
            "Ended:BadVersion",
            "Ended:BadReceiver",
            "Ended:ZeroKeepAlive",
            "Ended:Unexpected",
            "Ended:Expired",
            "Ended:PeerShutdown",
            "Ended:PeerFatal",
            "Ended:Decode",
            "Ended:Closed",
            "Ended:LinkFault",
            "Ended:BadIdentifier",
        ],
    }
}

/// The word of a place; empty behind the last one.
pub fn word_of(choice: Choice, place: u64) -> &'static str
    ensures { result.now ≡ choice_word choice place }
{
    match words_of(choice).get(place as usize) {
        Some(word) => word,
        None => "",
    }
}

/// Whether a word is this one. Most others have another length.
#[inline(always)]
#[tactic(auto, using(crate::proofs::RowLemmas::other_length))]
pub fn is_word(word: &[u8], other: &str) -> bool
    ensures { result ≡ bytes_eq word.now other.now }
{
    word.len() == other.len() && word == other.as_bytes()
}

// The place of the first such word.
fn place_among(words: &[&str], word: &[u8]) -> Option<usize>
    ensures { result ≡ position (λ other. bytes_eq word.now other.now) words.now }
{
    words.iter().position(|other| is_word(word, other))
}

/// The place of a word of a choice.
#[tactic(auto, using(crate::proofs::RowLemmas::place_is))]
pub fn place_of(choice: Choice, word: &[u8]) -> Option<u64>
    ensures { result ≡ place_in (choice_words choice) word.now }
{
    match place_among(words_of(choice), word) {
        Some(place) => Some(place as u64),
        None => None,
    }
}
