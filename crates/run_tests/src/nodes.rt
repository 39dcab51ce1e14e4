//! Runs of nodes and clients, as data: what comes, and which sends are lost.

/// Runs of nodes, in the form that `runs` says.
pub const NODES: &str = "\
nopaxos client --id 0 --replicas 3 --sequencers 1 --turns 3 5000016b000176
polls reply follower
=> 0
submit c0 1 5000016b000176
accept c0 1 6e6f6e65
served 2 lost 0
|
41008 4e4f030100000000000000000000000100075000016b000176
----
nopaxos client --id 0 --replicas 3 --sequencers 1 --turns 3 5000016b000176
polls reply follower
sends of 1: 1
=> 0
submit c0 1 5000016b000176
accept c0 1 6e6f6e65
served 2 lost 1
|
----
nopaxos client --id 0 --replicas 3 --sequencers 1 --turns 2 5000016B000176
=> 7
submit c0 1 5000016b000176
served 2 lost 0
|
41008 4e4f030100000000000000000000000100075000016b000176
----
nopaxos client --id 0 --replicas 3 --sequencers 1 --turns 3 5000016b000176 4700016b
polls reply follower
=> 7
submit c0 1 5000016b000176
submit c0 2 4700016b
accept c0 1 6e6f6e65
served 3 lost 0
|
41008 4e4f030100000000000000000000000100075000016b000176
41008 4e4f030100000000000000000000000200044700016b
----
nopaxos sequencer --id 0 --replicas 3 --sequencers 1 --turns 1
polls request
=> 0
served 1 lost 0
|
41000 4e4f03020000000000000001000000000000000100000000000000000000000100075000016b000176
41001 4e4f03020000000000000001000000000000000100000000000000000000000100075000016b000176
41002 4e4f03020000000000000001000000000000000100000000000000000000000100075000016b000176
----
nopaxos sequencer --id 0 --replicas 3 --sequencers 1 --turns 1
polls request
sends of 1: 2
=> 0
served 1 lost 1
|
41000 4e4f03020000000000000001000000000000000100000000000000000000000100075000016b000176
41002 4e4f03020000000000000001000000000000000100000000000000000000000100075000016b000176
----
nopaxos node --id 0 --replicas 3 --sequencers 1
polls nothing failure
=> 5
|
----
nopaxos controller --id 0 --replicas 3 --sequencers 1 --install 0 --turns 1
=> 0
served 1 lost 0
|
41008 4e4f030400000000000000000002
----
nopaxos controller --id 3 --replicas 3 --sequencers 2 --install 1 --turns 1
=> 0
served 1 lost 0
|
41009 4e4f030403010000000300000001
----
nopaxos node --id 0 --replicas 3 --sequencers 1 --turns 1
polls stamped
=> 0
served 1 lost 0
|
41016 4e4f030300000000000000000000000001000000010000000000000000000000010100046e6f6e65
----
nopaxos node --id 0 --replicas 3 --sequencers 1 --turns 1
polls later
=> 0
served 1 lost 0
|
41001 4e4f030800000000000000000100000001120000000000000000000000000100000001
41002 4e4f030800000000000000000100000001120000000000000000000000000100000001
----
nopaxos node --id 0 --replicas 3 --sequencers 1 --observers 2 --turns 1
polls later
=> 0
served 1 lost 0
|
41001 4e4f030800000000000000000100000001120000000000000000000000000100000001
41002 4e4f030800000000000000000100000001120000000000000000000000000100000001
41032 4e4f030800000000000000000100000001120000000000000000000000000100000001
41033 4e4f030800000000000000000100000001120000000000000000000000000100000001
----
nopaxos node --observers 2 --id 0 --replicas 3 --sequencers 1 --turns 1
polls later
sends of 1: 2 3 4
=> 0
served 1 lost 3
|
41001 4e4f030800000000000000000100000001120000000000000000000000000100000001
----
nopaxos node --id 0 --replicas 1 --sequencers 1 --observers 4 --turns 1
polls later
=> 0
served 1 lost 0
|
41016 4e4f030300000000000000000000000001000000020000000000000000000000010100046e6f6e65
----
nopaxos observer --id 0 --replicas 3 --sequencers 1 --turns 1
polls read
=> 0
served 1 lost 0
|
41016 4e4f030a000000000000000000000000000000000100046e6f6e65
----
nopaxos observer --id 3 --replicas 3 --sequencers 1 --turns 2
polls stamped request
=> 0
served 2 lost 0
|
----
nopaxos observer --id 0 --replicas 3 --sequencers 1
polls nothing failure
=> 5
|
----
nopaxos read --id 0 --observer 0 --replicas 3 --sequencers 1 --turns 3 6b
polls answer
=> 0
read c0 1 o0 6b
answer c0 1 o0 0 6e6f6e65
served 1 lost 0
|
41032 4e4f030900000000000000000000000100016b
----
nopaxos read --id 0 --observer 0 --replicas 3 --sequencers 1 --turns 3 6B
polls nothing answer
sends of 1: 1
=> 0
read c0 1 o0 6b
answer c0 1 o0 0 6e6f6e65
served 2 lost 1
|
----
nopaxos read --id 0 --observer 0 --replicas 3 --sequencers 1 --turns 2 --position 1 6b
polls answer
=> 7
read c0 1 o0 6b
answer c0 1 o0 0 6e6f6e65
served 2 lost 0
|
41032 4e4f030900000000000000000000000100016b
----
nopaxos read --id 0 --observer 0 --position 1 --replicas 3 --sequencers 1 --turns 2 6b
polls 4e4f030a000000000100000000000000000000000100046e6f6e65
=> 0
read c0 1 o0 6b
answer c0 1 o0 1 6e6f6e65
served 1 lost 0
|
41032 4e4f030900000000000000000000000100016b
----
nopaxos read --id 0 --observer 3 --replicas 3 --sequencers 1 --turns 2 6b
polls answer reply
=> 7
read c0 1 o3 6b
served 2 lost 0
|
41035 4e4f030900000000000000000000000100016b
----
nopaxos read --id 0 --observer 0 --replicas 3 --sequencers 1 --turns 3 6b
polls failure
=> 5
read c0 1 o0 6b
|
41032 4e4f030900000000000000000000000100016b
";
