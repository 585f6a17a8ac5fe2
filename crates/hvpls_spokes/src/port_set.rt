//! Sets of ports.
ghost use Rattle.std.specs.Prelude.{◌≡◌, ◌≢◌, ◌<◌, ℕ, true, false};
ghost use Rattle.hvpls_spokes.specs.PortSet.{holds_port};

use std::marker::Model;

/// A set of ports 0 to 511. Contracts ask of it by `has` whether a port is in it.
#[derive(Clone, Copy, PartialEq, Eq)]
pub struct PortSet {
    words: [u64; 8],
}

impl Model for PortSet {
    ghost use Rattle.std.specs.Prelude.{List, ℕ};

    ghost Value = { List ℕ };

    ghost view = { λ s. s.words };

    ghost inverse = { λ words. record { words = words } };
}

impl PortSet {
    /// The set without a port.
    pub fn empty() -> PortSet
        ensures { (p : ℕ) → holds_port result p ≡ false }
    {
        PortSet { words: [0; 8] }
    }

    /// Puts a port into the set.
    pub fn insert(&mut self, port: u16)
        requires { port < 512 }
        ensures it { holds_port self.new port ≡ true }
        ensures others { (p : ℕ) → p ≢ port → holds_port self.new p ≡ holds_port self.old p }
    {
        let word = port as usize / 64;
        self.words[word] |= 1 << (port % 64);
    }

    /// Takes a port out of the set.
    pub fn remove(&mut self, port: u16)
        requires { port < 512 }
        ensures it { holds_port self.new port ≡ false }
        ensures others { (p : ℕ) → p ≢ port → holds_port self.new p ≡ holds_port self.old p }
    {
        let word = port as usize / 64;
        self.words[word] &= !(1 << (port % 64));
    }

    /// Whether the port is in the set.
    pub fn contains(&self, port: u16) -> bool
        requires { port < 512 }
        ensures { result ≡ holds_port self.now port }
    {
        (self.words[port as usize / 64] >> (port % 64)) & 1 == 1
    }
}
