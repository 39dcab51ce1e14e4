//! Runs of a whole cluster in one process, as data.

/// A cluster with one actor of each kind, in the form that `runs` says. It gets the datagrams of
/// one put by the polls of the replica, the sequencer, the controller and the client, three each.
/// Then the same with a datagram that nobody sent, which comes to the controller, with each send
/// failing in turn, and with a turn too few. In the last
/// row there are more actors than links: to the one that is attached then nothing comes.
pub const CLUSTERS: &str = "\
nopaxos cluster --replicas 1 --sequencers 1 --clients 1 --turns 9 5000016b000176
polls nothing nothing stamped nothing request nothing nothing nothing nothing nothing nothing reply
=> 0
nopaxos 1 replicas 1 sequencers 1 clients 1
submit c0 5000016b000176
deliver 0 s0
deliver 1 r0
deliver 2 c0
transcript 1 replicas 1 sequencers 1 clients 1
submit c0 1 5000016b000176
send 0 c0 s* request 25
send 1 s0 r* stamped 41
send 2 r0 c0 reply 40
accept c0 1 6e6f6e65
replica r0 up normal 0 1 1 0
history 1 c0 1 5000016b000176
end
served 3 lost 0 stray 0
|
41016 4e4f030300000000000000000000000001000000010000000000000000000000010100046e6f6e65
41000 4e4f03020000000000000001000000000000000100000000000000000000000100075000016b000176
41008 4e4f030100000000000000000000000100075000016b000176
----
nopaxos cluster --replicas 1 --sequencers 1 --clients 1 --turns 9 5000016b000176
polls nothing nothing stamped nothing request nothing nothing nothing nothing nothing nothing reply
instead 4e4f 7
=> 0
nopaxos 1 replicas 1 sequencers 1 clients 1
submit c0 5000016b000176
deliver 0 s0
deliver 1 r0
deliver 2 c0
transcript 1 replicas 1 sequencers 1 clients 1
submit c0 1 5000016b000176
send 0 c0 s* request 25
send 1 s0 r* stamped 41
send 2 r0 c0 reply 40
accept c0 1 6e6f6e65
replica r0 up normal 0 1 1 0
history 1 c0 1 5000016b000176
end
served 3 lost 0 stray 1
|
41016 4e4f030300000000000000000000000001000000010000000000000000000000010100046e6f6e65
41000 4e4f03020000000000000001000000000000000100000000000000000000000100075000016b000176
41008 4e4f030100000000000000000000000100075000016b000176
----
nopaxos cluster --replicas 1 --sequencers 1 --clients 1 --turns 9 5000016b000176
polls nothing nothing stamped nothing request nothing nothing nothing nothing nothing nothing reply
sends of 1: 1
=> 0
nopaxos 1 replicas 1 sequencers 1 clients 1
submit c0 5000016b000176
deliver 0 s0
deliver 1 r0
deliver 2 c0
transcript 1 replicas 1 sequencers 1 clients 1
submit c0 1 5000016b000176
send 0 c0 s* request 25
send 1 s0 r* stamped 41
send 2 r0 c0 reply 40
accept c0 1 6e6f6e65
replica r0 up normal 0 1 1 0
history 1 c0 1 5000016b000176
end
served 3 lost 1 stray 0
|
41000 4e4f03020000000000000001000000000000000100000000000000000000000100075000016b000176
41008 4e4f030100000000000000000000000100075000016b000176
----
nopaxos cluster --replicas 1 --sequencers 1 --clients 1 --turns 9 5000016b000176
polls nothing nothing stamped nothing request nothing nothing nothing nothing nothing nothing reply
sends of 2: 1
=> 0
nopaxos 1 replicas 1 sequencers 1 clients 1
submit c0 5000016b000176
deliver 0 s0
deliver 1 r0
deliver 2 c0
transcript 1 replicas 1 sequencers 1 clients 1
submit c0 1 5000016b000176
send 0 c0 s* request 25
send 1 s0 r* stamped 41
send 2 r0 c0 reply 40
accept c0 1 6e6f6e65
replica r0 up normal 0 1 1 0
history 1 c0 1 5000016b000176
end
served 3 lost 1 stray 0
|
41016 4e4f030300000000000000000000000001000000010000000000000000000000010100046e6f6e65
41008 4e4f030100000000000000000000000100075000016b000176
----
nopaxos cluster --replicas 1 --sequencers 1 --clients 1 --turns 9 5000016b000176
polls nothing nothing stamped nothing request nothing nothing nothing nothing nothing nothing reply
sends of 4: 1
=> 0
nopaxos 1 replicas 1 sequencers 1 clients 1
submit c0 5000016b000176
deliver 0 s0
deliver 1 r0
deliver 2 c0
transcript 1 replicas 1 sequencers 1 clients 1
submit c0 1 5000016b000176
send 0 c0 s* request 25
send 1 s0 r* stamped 41
send 2 r0 c0 reply 40
accept c0 1 6e6f6e65
replica r0 up normal 0 1 1 0
history 1 c0 1 5000016b000176
end
served 3 lost 1 stray 0
|
41016 4e4f030300000000000000000000000001000000010000000000000000000000010100046e6f6e65
41000 4e4f03020000000000000001000000000000000100000000000000000000000100075000016b000176
----
nopaxos cluster --replicas 1 --sequencers 1 --clients 1 --turns 2 5000016b000176
polls nothing nothing stamped nothing request nothing nothing nothing nothing nothing nothing reply
=> 7
nopaxos 1 replicas 1 sequencers 1 clients 1
submit c0 5000016b000176
deliver 0 s0
transcript 1 replicas 1 sequencers 1 clients 1
submit c0 1 5000016b000176
send 0 c0 s* request 25
send 1 s0 r* stamped 41
replica r0 up normal 0 1 0 0
end
served 2 lost 0 stray 0
|
41000 4e4f03020000000000000001000000000000000100000000000000000000000100075000016b000176
41008 4e4f030100000000000000000000000100075000016b000176
----
nopaxos cluster --replicas 1 --sequencers 2 --clients 1 --turns 2 5000016b000176
polls nothing
=> 7
nopaxos 1 replicas 1 sequencers 2 clients 1
submit c0 5000016b000176
transcript 1 replicas 1 sequencers 2 clients 1
submit c0 1 5000016b000176
send 0 c0 s* request 25
replica r0 up normal 0 1 0 0
end
served 2 lost 0 stray 0
|
41008 4e4f030100000000000000000000000100075000016b000176
41009 4e4f030100000000000000000000000100075000016b000176
";
