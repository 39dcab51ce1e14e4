//! Runs that read a text, as data: short reads and writes, and those that fail.

/// Runs over texts, in the form that `runs` says.
pub const TEXTS: &str = "\
nopaxos replay
reads 82
writes 16
schedule
nopaxos 1 replicas 3 sequencers 1 clients 1
crash r0
=> 0
transcript 1 replicas 3 sequencers 1 clients 1
replica r0 crashed normal 0 1 0 0
replica r1 up normal 0 1 0 0
replica r2 up normal 0 1 0 0
end
|
----
nopaxos replay
reads 82 1
writes 16
=> 3
|
----
nopaxos replay
reads 82 2
writes 16
=> 3
transcript 1 replicas 3 sequencers 1 clients 1
submit c0 1 5000016b000176
send 0 c0 s* request 25
send 1 s0 r* stamped 41
|
----
nopaxos replay
reads 82
writes 16 2
=> 4
transcript 1 rep|
----
nopaxos audit
reads 82
writes 1
schedule
nopaxos 1 replicas 1 sequencers 1 clients 1
in c0 submit 5000016b000176
out c0 submit 1 5000016b000176
out c0 send s* 4e4f030100000000000000000000000100075000016b000176
in s0 packet 4e4f030100000000000000000000000100075000016b000176
out s0 send r* 4e4f03020000000000000001000000000000000100000000000000000000000100075000016b000176
=> 0
nopaxos 1 replicas 1 sequencers 1 clients 1
submit c0 5000016b000176
deliver 0 s0
audited 2
|
----
nopaxos audit
reads 7
writes 16
schedule
nopaxos 1 replicas 1 sequencers 1 clients 1
in c0 submit 5000016b000176
out c0 submit 1 5000016b000176
out c0 send s* 4e4f030100000000000000000000000100075000016b000176
in s0 packet 4e4f030100000000000000000000000100075000016b000177
out s0 send r* 4e4f03020000000000000001000000000000000100000000000000000000000100075000016b000176
=> 8
audit line 5 fault 3
|
----
nopaxos audit
reads 82 3
schedule
nopaxos 1 replicas 1 sequencers 1 clients 1
in c0 submit 5000016b000176
out c0 submit 1 5000016b000176
out c0 send s* 4e4f030100000000000000000000000100075000016b000176
in s0 packet 4e4f030100000000000000000000000100075000016b000176
out s0 send r* 4e4f03020000000000000001000000000000000100000000000000000000000100075000016b000176
=> 3
|
----
nopaxos audit
writes 16 2
schedule
nopaxos 1 replicas 1 sequencers 1 clients 1
in c0 submit 5000016b000176
out c0 submit 1 5000016b000176
out c0 send s* 4e4f030100000000000000000000000100075000016b000176
in s0 packet 4e4f030100000000000000000000000100075000016b000176
out s0 send r* 4e4f03020000000000000001000000000000000100000000000000000000000100075000016b000176
=> 4
nopaxos 1 replic|
----
nopaxos check
reads 82
writes 16
schedule
transcript 1 replicas 3 sequencers 1 clients 1
submit c0 1 5000016b000176
send 0 c0 s* request 25
send 1 s0 r* stamped 41
send 2 r0 c0 reply 40
send 3 r1 c0 reply 36
accept c0 1 6e6f6e65
replica r0 up normal 0 1 1 0
replica r1 up normal 0 1 1 0
replica r2 up normal 0 1 0 0
history 1 c0 1 5000016b000176
end
=> 0
legal 1 1 1
|
----
nopaxos check
reads 7
writes 1
schedule
transcript 1 replicas 3 sequencers 1 clients 1
submit c0 1 5000016b000176
send 0 c0 s* request 25
send 1 s0 r* stamped 41
send 2 r0 c0 reply 40
send 3 r1 c0 reply 36
accept c0 1 3d76
replica r0 up normal 0 1 1 0
replica r1 up normal 0 1 1 0
replica r2 up normal 0 1 0 0
history 1 c0 1 5000016b000176
end
=> 8
refuted line 7 clause 5
|
----
nopaxos check
reads 82
writes 16
schedule
transcript 1 replicas 3 sequencers 1 clients 1
submit c0 1 5000016b000176
send 0 c0 s* request 25
send 1 s0 r* stamped 41
send 2 r0 c0 reply 40
send 3 r1 c0 reply 36
accept c0 1 6e6f6e65
replica r0 up normal 0 1 1 0
replica r1 up normal 0 1 1 0
replica r2 up normal 0 1 0 0
end
=> 8
refuted line 7 clause 5
|
----
nopaxos check
reads 82
writes 16
schedule
transcript 1 replicas 3 sequencers 1 clients 1
submit c0 1 5000016b000176
submit c0 1 5000016b000176
history 1 c0 1 5000016b000176
history 2 c0 1 5000016b000176
end
=> 8
refuted line 5 clause 3
|
----
nopaxos check
reads 82
writes 16
schedule
transcript 1 replicas 3 sequencers 1 clients 1
submit c0 1 5000016b000176
history 1 c0 1 5000016b000177
end
=> 8
refuted line 3 clause 4
|
----
nopaxos check
reads 82
writes 16
schedule
transcript 1 replicas 3 sequencers 1 clients 2
submit c0 1 4700016b
submit c1 1 4700016b
accept c1 1 6e6f6e65
submit c1 2 4700016b
history 1 c1 2 4700016b
history 2 c1 1 4700016b
end
=> 8
refuted line 5 clause 6
|
----
nopaxos check
reads 82
writes 16
schedule
transcript 1 replicas 3 sequencers 1 clients 1
submit c0 1 5000016b000176
send 0 c0 s* request 25
send 1 s0 r* stamped 41
send 2 r0 c0 reply 40
send 3 r1 c0 reply 36
accept c0 1 6e6f6e65
replica r0 up normal 0 1 1 0
replica r1 up normal 0 1 1 0
replica r2 up normal 0 1 0 0
history 1 c0 1 5000016b000176
=> 8
refuted line 12 clause 2
|
----
nopaxos check
reads 82 1
writes 16
=> 3
|
----
nopaxos check
reads 82
writes 4 2
schedule
transcript 1 replicas 3 sequencers 1 clients 1
end
=> 4
lega|
----
nopaxos gen 7 1
writes 16
=> 0
gen 7 1
sends 1 accepts 0
view 0 1 length 0 noops 0
history 0
|
----
nopaxos gen 7 1
writes 16 2
=> 4
gen 7 1
sends 1 |
----
nopaxos stop
writes 16 2
=> 4
usage: nopaxos r|
----
nopaxos replay
reads 1
writes 16
schedule
=> 1
error line 1 rule 3
|
----
nopaxos replay
reads 7
writes 16
schedule
nopaxos 1 replicas 3 sequencers 1 clients 1
=> 0
transcript 1 replicas 3 sequencers 1 clients 1
replica r0 up normal 0 1 0 0
replica r1 up normal 0 1 0 0
replica r2 up normal 0 1 0 0
end
|
----
nopaxos replay
reads 1
writes 16
schedule
nopaxos 1 replicas 3 sequencers 1 clients 1
submit c0 5000016b000176
deliver 0 s0
deliver 1 r0
deliver 1 r1
deliver 2 c0
deliver 3 c0
=> 0
transcript 1 replicas 3 sequencers 1 clients 1
submit c0 1 5000016b000176
send 0 c0 s* request 25
send 1 s0 r* stamped 41
send 2 r0 c0 reply 40
send 3 r1 c0 reply 36
accept c0 1 6e6f6e65
replica r0 up normal 0 1 1 0
replica r1 up normal 0 1 1 0
replica r2 up normal 0 1 0 0
history 1 c0 1 5000016b000176
end
|
----
nopaxos replay
reads 7
writes 16
schedule
nopaxos 1 replicas 3 sequencers 1 clients 1
submit c0 5000016b000176
deliver 0 s0
deliver 1 r0
deliver 1 r1
deliver 2 c0
deliver 3 c0
=> 0
transcript 1 replicas 3 sequencers 1 clients 1
submit c0 1 5000016b000176
send 0 c0 s* request 25
send 1 s0 r* stamped 41
send 2 r0 c0 reply 40
send 3 r1 c0 reply 36
accept c0 1 6e6f6e65
replica r0 up normal 0 1 1 0
replica r1 up normal 0 1 1 0
replica r2 up normal 0 1 0 0
history 1 c0 1 5000016b000176
end
|
----
nopaxos replay
reads 1
writes 16
schedule
nopaxos 1 replicas 3 sequencers 1 clients 1
submit c0 5000016b000176
deliver 1 r0
=> 1
transcript 1 replicas 3 sequencers 1 clients 1
submit c0 1 5000016b000176
send 0 c0 s* request 25
error line 3 rule 8 index 1 sent 1
|
----
nopaxos replay
reads 7
writes 16
schedule
nopaxos 1 replicas 3 sequencers 1 clients 1
crash r0
tick r0 resend
=> 0
transcript 1 replicas 3 sequencers 1 clients 1
dead r0
replica r0 crashed normal 0 1 0 0
replica r1 up normal 0 1 0 0
replica r2 up normal 0 1 0 0
end
|
----
linearize
reads 16 2
schedule
transcript
xxxxxxxxxxxxxxxxxxxxxx
=> 8
refuted line 1 clause 2
|
";
