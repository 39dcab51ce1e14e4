//! What a load came to: ops submitted and answered, and the times that they took.
ghost use Rattle.std.specs.Prelude.{◌≡◌};
ghost use Rattle.service_load.specs.Ranks.{ranked};

/// What a load came to: how many ops were submitted and how many answered, how many datagrams could
/// not be sent, and how long each answered op took, in microseconds, the shortest time first.
#[derive(Drop)]
pub struct Report {
    pub submitted: u64,
    pub answered: u64,
    pub lost: u64,
    pub times: Vec<u64>,
}

impl Report {
    /// The time within which half of the answered ops were.
    pub fn p50(&self) -> Option<u64>
        ensures { result ≡ ranked self.now.times.items 50 }
    {
        let rank = (self.times.len() as u128 * 50).div_ceil(100);
        let place = usize::try_from(rank).ok()?.checked_sub(1)?;
        self.times.get(place).copied()
    }

    /// The time within which 99 of 100 answered ops were.
    pub fn p99(&self) -> Option<u64>
        ensures { result ≡ ranked self.now.times.items 99 }
    {
        let rank = (self.times.len() as u128 * 99).div_ceil(100);
        let place = usize::try_from(rank).ok()?.checked_sub(1)?;
        self.times.get(place).copied()
    }
}
