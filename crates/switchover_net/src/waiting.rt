//! The octets of the link that go on their way, and the pairs of edges where some wait.
ghost use Rattle.std.specs.Prelude.{◌≡◌, ◌++◌, ◌<◌, IfSome, OnOk};
ghost use Rattle.octet_pipes.specs.Pipes.{pipes_of};
ghost use Rattle.status_exchange.specs.Exchange.{at_two};
ghost use Rattle.switchover_model.specs.Network.{first_differing_pair, first_place, is_waiting};
ghost use Rattle.switchover_net.specs.Pipes.{bytes_of};

use net_base::{EdgeId, LinkCall, NoMemory};
use octet_pipes::Pipes;

/// Puts all that a link took into the pipe from an edge to another one, in order.
#[tactic(auto, using(crate::proofs::PipeLemmas::put_steps))]
pub fn put_all(
    pipes: &mut Pipes,
    from: EdgeId,
    to: EdgeId,
    calls: &[LinkCall],
) -> Result<(), NoMemory>
    requires from { from.0 < pipes.old.size }
    requires to { to.0 < pipes.old.size }
    ensures size { pipes.new.size ≡ pipes.old.size }
    ensures ok { OnOk result (pipes_of pipes.new ≡ at_two from.0 to.0 (pipes_of pipes.old from.0 to.0 ++ bytes_of calls.now) (pipes_of pipes.old)) }
{
    for place in 0..calls.len() {
        pipes.put(from, to, calls[place].bytes.as_slice())?;
    }
    Ok(())
}

/// Whether octets are on their way from an edge to another one, by their places.
#[tactic(auto, using(crate::proofs::PipeLemmas::waits_by_length))]
pub fn is_waiting(pipes: &Pipes, from: usize, to: usize) -> bool
    requires from { from < pipes.now.size }
    requires to { to < pipes.now.size }
    ensures { result ≡ is_waiting (pipes_of pipes.now from to) }
{
    pipes.len(from, to) > 0
}

// The first edge towards which octets of an edge are on their way.
#[tactic(auto, using(crate::proofs::PipeLemmas::place_steps))]
fn first_from(pipes: &Pipes, from: usize) -> Option<usize>
    requires from { from < pipes.now.size }
    ensures first { result ≡ first_place (λ to. is_waiting (pipes_of pipes.now from to)) 0 pipes.now.size }
    ensures within { IfSome result (λ to. to < pipes.now.size) }
{
    let size = pipes.size();
    for to in 0..size {
        if is_waiting(pipes, from, to) {
            return Some(to);
        }
    }
    None
}

/// The first pair of edges between which octets are on their way, by the place of the sender and then by that of the receiver.
#[tactic(auto, using(crate::proofs::PipeLemmas::pair_steps))]
pub fn first_pair(pipes: &Pipes) -> Option<(usize, usize)>
    ensures first { result ≡ first_differing_pair (λ from to. is_waiting (pipes_of pipes.now from to)) pipes.now.size 0 pipes.now.size }
    ensures within { IfSome result (λ pair. (pair.0 < pipes.now.size) × (pair.1 < pipes.now.size)) }
{
    let size = pipes.size();
    for from in 0..size {
        if let Some(to) = first_from(pipes, from) {
            return Some((from, to));
        }
    }
    None
}
