//! Which requests fail.
ghost use Rattle.std.specs.Prelude.{◌↔◌, IsTrue};
ghost use Rattle.test_allocator.specs.Plan.{Fails};

/// Which requests fail. The first request has number 1.
#[derive(Clone, Copy, Debug, PartialEq, Eq)]
pub enum Plan {
    /// None.
    Never,
    /// Each one.
    Always,
    /// The one with this number, and no other. With `Nth(0)` none fails.
    Nth(u64),
}

impl Plan {
    /// Returns whether the request with this number fails: `Plan::Nth(2).fails(2)`.
    #[tactic(auto, unfolding(crate::specs::Plan::Fails))]
    pub fn fails(self, number: u64) -> bool
        ensures { IsTrue result ↔ Fails self number }
    {
        match self {
            Plan::Never => false,
            Plan::Always => true,
            Plan::Nth(failed) => number == failed,
        }
    }
}
