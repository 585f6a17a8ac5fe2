//! A connection with a peer.
ghost use Rattle.std.specs.Prelude.{◌≡◌, ◌≤◌, ◌<◌, ◌+◌, ◌++◌, ℕ, List, None, Some, IfOk, length, take, drop};
ghost use Rattle.ldp_stream.specs.State.{empty};
ghost use Rattle.independent_mode.specs.Receiver.{HoldsSoMany, IsNext, receiver_in, receiver_of};
ghost use Rattle.independent_model.specs.State.{Stopped, receiver_set, fresh_connection, spoken_once};

use crate::IndepStop;
use ldp_grammar::Pdu;
use ldp_stream::{Stream, StreamFault};
use net_base::NoMemory;
use pw_messages::following;
use std::alloc::Global;
use std::marker::Model;

/// The octets that come of a peer. Contracts see the state of the stream, whose maximum is 4096.
#[derive(Drop)]
pub struct PeerStream {
    stream: Stream,
}

impl Model for PeerStream {
    ghost use Rattle.ldp_stream.specs.State.{StreamState};
    ghost use Rattle.independent_mode.specs.Receiver.{IsReceiver};

    ghost Value = { StreamState };

    ghost view = { λ p. p.stream };

    ghost invariant = { λ p. IsReceiver p.stream };
}

impl PeerStream {
    /// A stream of which nothing came yet.
    #[tactic(auto, using(crate::proofs::ReceiverLemmas::empty_receiver))]
    pub fn new(alloc: Global) -> Result<PeerStream, NoMemory>
        ensures { IfOk result (λ stream. stream ≡ empty) }
    {
        Ok(PeerStream {
            stream: Stream::new(alloc)?,
        })
    }

    /// The PDU in front, which is taken out; none where more octets are wanted.
    #[tactic(auto, using(crate::proofs::ReceiverLemmas::next_got, crate::proofs::ReceiverLemmas::next_waits, crate::proofs::ReceiverLemmas::next_refused, crate::proofs::ReceiverLemmas::passed_receiver, crate::proofs::ReceiverLemmas::waited_receiver, crate::proofs::ReceiverLemmas::refused_receiver))]
    pub fn next(&mut self, alloc: Global) -> Result<Option<Pdu>, IndepStop>
        ensures next { IsNext self.old self.new result }
    {
        match self.stream.next(alloc) {
            Ok(front) => Ok(front),
            Err(StreamFault::Refused { base, fault }) => {
                Err(IndepStop::Refused(StreamFault::Refused { base, fault }))
            }
            Err(StreamFault::NoMemory) => Err(IndepStop::NoMemory),
        }
    }

    /// Puts as many of the octets from a place on behind those that are held as there is room for, and answers how many.
    pub fn feed_from(&mut self, octets: &[u8], at: usize) -> usize
        requires going { self.old.refused ≡ None }
        requires room { length self.old.held < 4100 }
        requires more { at < length octets.now }
        ensures some { 1 ≤ result }
        ensures within { at + result ≤ length octets.now }
        ensures held { self.new ≡ record self.old { held = self.old.held ++ take result (drop at octets.now) } }
    {
        let (_, rest) = octets.split_at(at);
        self.stream.feed(rest)
    }

    /// How many octets are held.
    pub fn held(&self) -> usize
        ensures { result ≡ length self.now.held }
    {
        self.stream.held()
    }
}

/// What an edge keeps of a peer with which it is connected: what comes of it, and the number of the next message. No stream is kept where
/// nothing more is heard.
#[derive(Drop)]
pub struct Connection {
    pub(crate) stream: Option<PeerStream>,
    pub(crate) next_id: u32,
}

impl Model for Connection {
    ghost use Rattle.independent_mode.specs.Receiver.{receiver_in};
    ghost use Rattle.independent_model.specs.State.{ConnectionState};

    ghost Value = { ConnectionState };

    ghost view = { λ c. record { receiver = receiver_in c.stream; next_id = c.next_id } };
}

impl Connection {
    /// A connection of which nothing came yet; messages are numbered from 1.
    pub fn new(alloc: Global) -> Result<Connection, NoMemory>
        ensures { IfOk result (λ connection. connection ≡ fresh_connection) }
    {
        let stream = PeerStream::new(alloc)?;
        Ok(Connection::unheard().with_receiver(stream))
    }

    /// The same by which nothing is heard.
    pub fn unheard() -> Connection
        ensures { result ≡ receiver_set Stopped fresh_connection }
    {
        Connection {
            stream: None,
            next_id: 1,
        }
    }

    /// The number of the next message.
    pub fn next_id(&self) -> u32
        ensures { result ≡ self.now.next_id }
    {
        self.next_id
    }

    /// How many octets of the peer are held that are no whole PDU yet. Of octets that were refused nothing is said.
    pub fn held(&self) -> usize
        ensures { HoldsSoMany result self.now.receiver }
    {
        match &self.stream {
            Some(stream) => stream.held(),
            None => 0,
        }
    }

    /// The same connection once a message was put.
    pub fn spoken(self) -> Connection
        ensures { result ≡ spoken_once self }
    {
        Connection {
            stream: self.stream,
            next_id: following(self.next_id),
        }
    }

    /// What comes of the peer, and the connection without it; none where nothing more is heard.
    pub fn take_receiver(self) -> (Option<PeerStream>, Connection)
        ensures receiver { receiver_in result.0 ≡ self.receiver }
        ensures rest { result.1 ≡ receiver_set Stopped self }
    {
        (
            self.stream,
            Connection {
                stream: None,
                next_id: self.next_id,
            },
        )
    }

    /// The same connection, and what comes of the peer.
    pub fn with_receiver(self, receiver: PeerStream) -> Connection
        ensures { result ≡ receiver_set (receiver_of receiver) self }
    {
        Connection {
            stream: Some(receiver),
            next_id: self.next_id,
        }
    }
}
