//! The generator of the large workload.
ghost use Rattle.std.specs.Prelude.{◌≡◌};
ghost use Rattle.workload.specs.Draws.{next_draw};

/// The generator that the workload is drawn from.
#[derive(Drop)]
pub struct Draws {
    /// The last draw, and at first the seed.
    pub last: u32,
}

impl Draws {
    /// The next draw.
    #[tactic(auto, using(crate::proofs::DrawLemmas::next_draw_wraps))]
    pub fn draw(&mut self) -> u32
        ensures value { result ≡ next_draw self.old.last }
        ensures kept { self.new.last ≡ result }
    {
        self.last = self
            .last
            .wrapping_mul(1_664_525)
            .wrapping_add(1_013_904_223);
        self.last
    }
}
