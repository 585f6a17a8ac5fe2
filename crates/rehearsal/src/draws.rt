//! Draws.
ghost use Rattle.std.specs.Prelude.{◌≡◌, ◌<◌};
ghost use Rattle.rehearsal.specs.Draws.{next_number, drawn};

/// Draws numbers, each from the one that the draw before it left.
#[derive(Drop)]
pub struct Draws {
    /// The number that the last draw left; at first the seed.
    pub number: u64,
}

impl Draws {
    /// A number below `count`, which is not 0.
    #[tactic(auto, unfolding(crate::specs::Draws::next_number, crate::specs::Draws::drawn))]
    pub fn draw(&mut self, count: u64) -> u64
        requires some { 0 < count }
        ensures drawn { result ≡ drawn count self.new.number }
        ensures within { result < count }
        ensures next { self.new.number ≡ next_number self.old.number }
    {
        let whole = self.number as u128 * 6_364_136_223_846_793_005 + 1_442_695_040_888_963_407;
        self.number = (whole % 18_446_744_073_709_551_616) as u64;
        (self.number / 8_589_934_592) % count
    }
}
