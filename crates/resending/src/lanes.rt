ghost use Rattle.std.specs.Prelude.{◌≡◌, ◌%◌};

/// Ports are told apart by their remainders: ports of one remainder share what may be in flight to each.
pub const LANES: usize = 64;

const _: () = prove!(LANES == 64);

/// The place of a port among these.
pub fn lane_of(port: u16) -> usize
    ensures { result ≡ port % LANES }
{
    usize::from(port) % LANES
}
