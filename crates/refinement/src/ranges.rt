ghost use Rattle.nop_types.specs.Meaning.{Meaning};
ghost use Rattle.refinement.specs.Ranges.{
  DatagramsFit,
  ClientsStayInRanges,
  SequencersStayInRanges,
  ControllersStayInRanges,
  ReplicasStayInRanges,
};

/// Where all requests, stamped packets, replies and sessions that were sent are in their ranges, so
/// is each whole datagram that was sent.
pub fn datagrams_fit()
    ensures { DatagramsFit }
{}

/// Whatever comes, all that was sent stays in its ranges, if ops have at most the greatest length.
pub fn steps_stay_in_ranges<S>()
    ensures clients { ClientsStayInRanges }
    ensures sequencers { (m : Meaning S) → SequencersStayInRanges m }
    ensures controllers { ControllersStayInRanges }
    ensures replicas { (m : Meaning S) → ReplicasStayInRanges m }
{}
