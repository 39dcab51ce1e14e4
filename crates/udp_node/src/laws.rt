ghost use Rattle.std.specs.Prelude.{◌≡◌, ◌≤◌, ◌+◌, min, true, false, List};
ghost use Rattle.std.specs.List.{flat_map};
ghost use Rattle.outside.specs.declared.link.LinkCall.{LinkCall};
ghost use Rattle.udp_node.specs.Effects.{Act, calls, effects_by, lines, step_effects};
ghost use Rattle.udp_node.specs.Effects.{step_text, steps_in};
ghost use Rattle.udp_node.specs.Sends.{LinkSide, Sends, failures, last_count};
ghost use Rattle.udp_node.specs.declared.address.Address.{Address};

/// A node counts as lost the datagrams that could not be sent, up to the greatest number of 64 bits.
pub fn counts_failed_sends()
    ensures { (cs : List LinkCall) (a b : LinkSide) (sends : Sends cs a b) → a.lost ≤ last_count
        → b.lost ≡ min (a.lost + failures sends.tries) last_count }
{}

/// A node that writes a trace makes the same calls on its link.
pub fn same_is_sent()
    ensures { (at : Address) (acts : List Act) → calls (effects_by (step_effects true at) acts)
        ≡ calls (effects_by (step_effects false at) acts) }
{}

/// A trace is the lines of the steps, in order.
pub fn trace_has_each_step()
    ensures { (at : Address) (acts : List Act) → lines (effects_by (step_effects true at) acts)
        ≡ flat_map (step_text at.own) (steps_in acts) }
{}
